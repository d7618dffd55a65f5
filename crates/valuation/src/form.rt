//! Which canonical forms are propositional.

ghost use Rattle.std.specs.Prelude.{◌≡◌, ◌&&◌};
ghost use Rattle.valuation.specs.Truth.{are_propositional, is_propositional};
ghost use Rattle.valuation.specs.Forms as spec;

use core_expr::{Canon, Expr, Head, RowKind};

/// Whether a node may stand in a propositional formula.
fn is_connective(kind: RowKind, parts: u64) -> bool
    ensures { result ≡ spec.is_connective kind parts }
{
    match kind {
        RowKind::Symbol(_) => parts == 0,
        RowKind::Plain(head) => matches!(
            head,
            Head::True | Head::False | Head::Not | Head::And | Head::Or | Head::Imp | Head::Iff
        ),
        _ => false,
    }
}

/// Whether an expression is a propositional formula: built of TRUE, FALSE, symbols without arguments and the five connectives.
/// Takes time linear in its nodes, and no memory.
pub fn is_formula(e: &Expr) -> bool
    ensures { result ≡ is_propositional e.now }
{
    for i in 0..e.length() {
        if !is_connective(e.kind(i), e.parts(i)) {
            return false;
        }
    }
    true
}

/// Whether a canonical form is propositional: its facts and its goal are built of TRUE, FALSE, symbols without arguments,
/// `~`, `/\`, `\/`, `=>` and `<=>`. Takes time linear in its nodes, and no memory.
pub fn is_propositional(canon: &Canon) -> bool
    ensures { result ≡ (are_propositional canon.now.facts && is_propositional canon.now.goal) }
{
    for fact in canon.facts.as_slice() {
        if !is_formula(fact) {
            return false;
        }
    }
    is_formula(&canon.goal)
}
