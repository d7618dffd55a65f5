//! The table of heads: kinds of nodes and their numbers.
ghost use Rattle.std.specs.Prelude.{◌≡◌, slice_index_or};
ghost use Rattle.core_expr.specs.declared.row.RowKind.TheVariants.{Plain};
ghost use Rattle.core_expr.specs.declared.head.Head.TheVariants.{Temporal};
ghost use Rattle.core_expr.specs.Heads.{kind_at, kind_for, kind_number, kind_symbol};
ghost use Rattle.core_expr.specs.Terms.{head_code, binder_code};

use crate::head::{Binder, Head, Sym};
use crate::row::RowKind;

/// The kinds of nodes by their head numbers. At 6, where the symbol decides, stands a filler.
const KINDS: [RowKind; 34] = [
    RowKind::Plain(Head::True),
    RowKind::Plain(Head::False),
    RowKind::Plain(Head::Num),
    RowKind::Plain(Head::Str),
    RowKind::Plain(Head::Boolean),
    RowKind::Bound,
    RowKind::Plain(Head::Temporal),
    RowKind::Plain(Head::Not),
    RowKind::Plain(Head::And),
    RowKind::Plain(Head::Or),
    RowKind::Plain(Head::Imp),
    RowKind::Plain(Head::Iff),
    RowKind::Binding(Binder::All),
    RowKind::Binding(Binder::Ex),
    RowKind::Plain(Head::Eq),
    RowKind::Plain(Head::In),
    RowKind::Plain(Head::Subseteq),
    RowKind::Plain(Head::Enum),
    RowKind::Plain(Head::Cup),
    RowKind::Plain(Head::Cap),
    RowKind::Plain(Head::Diff),
    RowKind::Plain(Head::Power),
    RowKind::Plain(Head::Union),
    RowKind::Binding(Binder::Filter),
    RowKind::Binding(Binder::Image),
    RowKind::Binding(Binder::Fun),
    RowKind::Plain(Head::FunSet),
    RowKind::Plain(Head::Dom),
    RowKind::Plain(Head::Apply),
    RowKind::Plain(Head::Except),
    RowKind::Plain(Head::Tuple),
    RowKind::Plain(Head::If),
    RowKind::Binding(Binder::Choose),
    RowKind::Plain(Head::Temporal),
];

/// The kind at this place of the table; past its end, the temporal mark.
fn kind_in(table: &[RowKind], head: u64) -> RowKind
    ensures { result ≡ slice_index_or table.now head (Plain Temporal) }
{
    match table.get(head as usize) {
        Some(kind) => *kind,
        None => RowKind::Plain(Head::Temporal),
    }
}

/// What kind of node has this head number.
#[tactic(auto, unfolding(crate::specs::Heads::kind_at, crate::specs::Heads::kind_table))]
fn kind_at(head: u64) -> RowKind
    ensures { result ≡ kind_at head }
{
    kind_in(&KINDS, head)
}

/// What kind of node has this head number, or this symbol.
pub fn kind_for(head: u64, sym: Option<Sym>) -> RowKind
    ensures { result ≡ kind_for head sym }
{
    match sym {
        Some(sym) => RowKind::Symbol(sym),
        None => kind_at(head),
    }
}

/// The head number of a head that binds nothing.
fn head_number(head: Head) -> u64
    ensures { result ≡ head_code head }
{
    match head {
        Head::True => 0,
        Head::False => 1,
        Head::Num => 2,
        Head::Str => 3,
        Head::Boolean => 4,
        Head::Not => 7,
        Head::And => 8,
        Head::Or => 9,
        Head::Imp => 10,
        Head::Iff => 11,
        Head::Eq => 14,
        Head::In => 15,
        Head::Subseteq => 16,
        Head::Enum => 17,
        Head::Cup => 18,
        Head::Cap => 19,
        Head::Diff => 20,
        Head::Power => 21,
        Head::Union => 22,
        Head::FunSet => 26,
        Head::Dom => 27,
        Head::Apply => 28,
        Head::Except => 29,
        Head::Tuple => 30,
        Head::If => 31,
        Head::Temporal => 33,
    }
}

/// The head number of a binder.
fn binder_number(binder: Binder) -> u64
    ensures { result ≡ binder_code binder }
{
    match binder {
        Binder::All => 12,
        Binder::Ex => 13,
        Binder::Filter => 23,
        Binder::Image => 24,
        Binder::Fun => 25,
        Binder::Choose => 32,
    }
}

/// The head number of a kind of node.
pub fn kind_number(kind: RowKind) -> u64
    ensures { result ≡ kind_number kind }
{
    match kind {
        RowKind::Bound => 5,
        RowKind::Symbol(_) => 6,
        RowKind::Plain(head) => head_number(head),
        RowKind::Binding(binder) => binder_number(binder),
    }
}

/// The symbol of a kind of node.
pub(crate) fn kind_symbol(kind: RowKind) -> Option<Sym>
    ensures { result ≡ kind_symbol kind }
{
    match kind {
        RowKind::Symbol(sym) => Some(sym),
        _ => None,
    }
}
