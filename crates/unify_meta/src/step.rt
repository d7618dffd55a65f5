//! One step along the path to the first difference of two terms.
ghost use Rattle.std.specs.Prelude.{◌≡◌, ◌↔◌, ◌⊎◌, ◌<◌, length, IsTrue};
ghost use Rattle.core_expr.specs.Heads.{kind_at};
ghost use Rattle.term_bank.specs.Slots.{node_of};
ghost use Rattle.unify_meta.specs.Metas.{symbols};
ghost use Rattle.unify_meta.specs.Disagreements.{is_listing, IsStep};

use crate::disagreement::{Assignment, Disagreement};
use crate::metas::meta_number;
use core_expr::{Head, RowKind, kind_for};
use term_bank::{Bank, BankNode};
use term_walks::first_apart;
use unifier_definition::difference_by_parts;

/// The first difference of two nodes is found, or it is that of two of their parts.
#[derive(Clone, Copy, Debug)]
pub enum Step {
    Here(Disagreement),
    Below(u64, u64),
}

/// Whether a node with this head counts its parts, which may be any number.
fn is_listing(head: u64) -> bool
    ensures { result ≡ is_listing (kind_at head) }
{
    match kind_for(head, None) {
        RowKind::Plain(Head::Enum) | RowKind::Plain(Head::Tuple) => true,
        _ => false,
    }
}

/// Whether two nodes with one head have the same numbers, their count of parts apart.
fn agree(a: &BankNode, b: &BankNode) -> bool
    ensures { IsTrue result ↔ (((node_of a.now).numbers ≡ (node_of b.now).numbers)
        ⊎ IsTrue (is_listing (kind_at a.now.head))) }
{
    a.numbers.as_slice() == b.numbers.as_slice() || is_listing(a.head)
}

/// The first difference of two nodes, or the parts whose first difference it is.
pub fn next_step(bank: &Bank, metas: &[u64], i: u64, j: u64) -> Step
    requires left { i < length bank.now }
    requires right { j < length bank.now }
    requires apart { i ≡ j → ⊥ }
    ensures { IsStep bank.now (symbols metas.now) i j result }
{
    bank.count();
    let a = bank.node(i).unwrap();
    let b = bank.node(j).unwrap();
    if let Some(name) = meta_number(metas, a) {
        let found = Assignment {
            name,
            meta: i,
            term: j,
        };
        return Step::Here(Disagreement::Meta(found));
    }
    if let Some(name) = meta_number(metas, b) {
        let found = Assignment {
            name,
            meta: j,
            term: i,
        };
        return Step::Here(Disagreement::Meta(found));
    }
    if a.head != b.head {
        return Step::Here(Disagreement::Apart);
    }
    if !agree(a, b) {
        return Step::Here(Disagreement::Apart);
    }
    difference_by_parts();
    match first_apart(a.parts.as_slice(), b.parts.as_slice()) {
        Some(k) => Step::Below(a.parts[k], b.parts[k]),
        None => Step::Here(Disagreement::Apart),
    }
}
