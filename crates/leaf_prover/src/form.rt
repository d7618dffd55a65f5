//! Which canonical forms the search can take.
ghost use Rattle.std.specs.Prelude.{◌≡◌};
ghost use Rattle.core_expr.specs.Heads.{is_canonical_kind, is_canonical};
ghost use Rattle.core_expr.specs.Terms.{is_scoped};
ghost use Rattle.leaf_prover.specs.Forms as spec;

use core_expr::{Canon, Expr, Head, RowKind, SymKind};

/// Whether a node may stand in a canonical form.
fn is_canonical_kind(kind: RowKind) -> bool
    ensures { result ≡ is_canonical_kind kind }
{
    match kind {
        RowKind::Symbol(symbol) => matches!(symbol.kind, SymKind::Canon),
        RowKind::Plain(head) => !matches!(head, Head::Temporal),
        _ => true,
    }
}

/// Whether all symbols are canonical and no temporal mark is there.
fn is_canonical(e: &Expr) -> bool
    ensures { result ≡ is_canonical e.now }
{
    for i in 0..e.length() {
        if !is_canonical_kind(e.kind(i)) {
            return false;
        }
    }
    true
}

/// Whether no variable is loose.
fn is_closed(e: &Expr) -> bool
    ensures { result ≡ is_scoped 0 e.now }
{
    e.is_closed()
}

/// Whether an expression is a closed formula over canonical symbols.
fn is_form_part(e: &Expr) -> bool
    ensures { result ≡ spec.is_form_part e.now }
{
    is_canonical(e) && is_closed(e)
}

/// Whether the facts and the goal are closed expressions over canonical symbols without a temporal mark. Takes time linear in their
/// nodes, and no memory.
pub fn is_form(canon: &Canon) -> bool
    ensures { result ≡ spec.is_form canon.now }
{
    for fact in canon.facts.as_slice() {
        if !is_form_part(fact) {
            return false;
        }
    }
    is_form_part(&canon.goal)
}
