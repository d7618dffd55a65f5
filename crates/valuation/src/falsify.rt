//! Values that falsify a canonical form.

ghost use Rattle.std.specs.Prelude.{◌≡◌, ◌<◌, length, false};
ghost use Rattle.std.proofs.Common.{get_or};
ghost use Rattle.core_expr.specs.Heads.{IsWellFormed};
ghost use Rattle.core_expr.specs.Flat.{rows_of};
ghost use Rattle.core_expr.specs.Places.{subtree};
ghost use Rattle.valuation.specs.Truth.{all_hold, by_number, falsifies, value_under};
ghost use Rattle.valuation.specs.Forms as spec;
ghost use Rattle.valuation.specs.Forms.{part_of};

use core_expr::{Canon, Expr, Head, RowKind};

/// The value of the symbol with a number. One past the last is FALSE.
fn value_at(values: &[bool], number: u64) -> bool
    ensures { result ≡ get_or values.now number false }
{
    match values.get(number as usize) {
        Some(value) => *value,
        None => false,
    }
}

/// The truth value of a node with this head, from those of its first and its second part; only the connectives have one.
fn combined(head: Head, first: bool, second: bool) -> bool
    ensures { result ≡ spec.combined head first second }
{
    match head {
        Head::True => true,
        Head::Not => !first,
        Head::And => first && second,
        Head::Or => first || second,
        Head::Imp => !first || second,
        Head::Iff => first == second,
        _ => false,
    }
}

/// The truth value of the part `k` of the node `i`; TRUE where there is none.
#[cycle(truth)]
fn operand(e: &Expr, i: u64, k: u64, values: &[bool]) -> bool
    requires node { i < length (rows_of e.now) }
    requires formed { IsWellFormed (subtree e.now i) }
    ensures { result ≡ value_under (by_number values.now) (part_of (subtree e.now i) k) }
{
    if k >= e.parts(i) {
        return true;
    }
    truth(e, e.part(i, k), values)
}

/// The truth value of the formula that the node `i` is the root of.
#[cycle(truth)]
fn truth(e: &Expr, i: u64, values: &[bool]) -> bool
    requires node { i < length (rows_of e.now) }
    requires formed { IsWellFormed (subtree e.now i) }
    ensures { result ≡ value_under (by_number values.now) (subtree e.now i) }
{
    match e.kind(i) {
        RowKind::Symbol(sym) => e.parts(i) == 0 && value_at(values, sym.number),
        RowKind::Plain(head) => {
            let first = operand(e, i, 0, values);
            let second = operand(e, i, 1, values);
            combined(head, first, second)
        }
        _ => false,
    }
}

/// Whether an expression is true under the values; one that is no propositional formula is not.
fn holds(e: &Expr, values: &[bool]) -> bool
    ensures { result ≡ value_under (by_number values.now) e.now }
{
    truth(e, e.length() - 1, values)
}

/// Whether each of the expressions is true under the values.
fn all_hold(facts: &[Expr], values: &[bool]) -> bool
    ensures { result ≡ all_hold (by_number values.now) facts.now }
{
    for fact in facts {
        if !holds(fact, values) {
            return false;
        }
    }
    true
}

/// Whether the values, by the numbers of the symbols, make every fact true and the goal false. A symbol without a value is
/// FALSE, and so is what is no propositional formula. Takes no memory; it recurses as deep as the formulas are.
pub fn falsifies(canon: &Canon, values: &[bool]) -> bool
    ensures { result ≡ falsifies (by_number values.now) canon.now.facts canon.now.goal }
{
    all_hold(canon.facts.as_slice(), values) && !holds(&canon.goal, values)
}
