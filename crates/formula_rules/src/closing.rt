//! How a formula closes a branch by itself, and the formulas that it clashes with.
ghost use Rattle.std.specs.Prelude.{◌≡◌, ◌∷◌, [], ℕ, ◌<◌, length, nat_eq, IfOk};
ghost use Rattle.core_expr.specs.Nodes.{AreBelow};
ghost use Rattle.core_expr.specs.Tree.{not_, eq_, true_, false_};
ghost use Rattle.core_expr.specs.Terms.{same};
ghost use Rattle.seq_calculus.specs.Schemas.{are_apart};
ghost use Rattle.term_bank.specs.Banks.{IsDistinct, Extends, tree_at};
ghost use Rattle.search_definition.specs.Terms.{when};
ghost use Rattle.search_definition.specs.Branches.{shuts_first, shuts_third, shuts_last, is_truth_clash, is_not_of, is_mirror_not};
ghost use Rattle.formula_rules.specs.Answers.{names, is_number, is_text};

use core_expr::Memory;
use search_definition::Clash;
use std::alloc::Global;
use term_bank::Bank;
use term_shapes::{Shape, build, seek, shape_at};

/// Whether the terms are equal.
#[tactic(auto, using(crate::proofs::Same::same_at))]
pub fn same_term(bank: &Bank, a: u64, b: u64) -> bool
    requires { AreBelow (length bank.now) (a ∷ b ∷ []) }
    ensures { result ≡ same (tree_at bank.now a) (tree_at bank.now b) }
{
    let _count = bank.count();
    a == b
}

/// The case, where the test holds.
fn clash_when(held: bool, clash: Clash) -> Option<Clash>
    ensures { result ≡ when held clash }
{
    if held { Some(clash) } else { None }
}

/// How the Not of a closes a branch by itself, by a case before those with a partner.
fn denied_first(bank: &Bank, a: u64) -> Option<Clash>
    requires { a < length bank.now }
    ensures { result ≡ shuts_first (not_ (tree_at bank.now a)) }
{
    match shape_at(bank, a) {
        Shape::True => Some(Clash::DeniedTruth),
        _ => None,
    }
}

/// How the formula closes a branch by itself, by a case before those with a partner.
pub fn shuts_first(bank: &Bank, f: u64) -> Option<Clash>
    requires { f < length bank.now }
    ensures { result ≡ shuts_first (tree_at bank.now f) }
{
    match shape_at(bank, f) {
        Shape::False => Some(Clash::Falsehood),
        Shape::Not(a) => denied_first(bank, a),
        _ => None,
    }
}

/// How the Not of q closes a branch, where q is an equation of a term with itself.
fn denied_third(bank: &Bank, q: u64) -> Option<Clash>
    requires { q < length bank.now }
    ensures { result ≡ shuts_third (not_ (tree_at bank.now q)) }
{
    match shape_at(bank, q) {
        Shape::Eq(s, t) => clash_when(same_term(bank, s, t), Clash::DeniedIdentity),
        _ => None,
    }
}

/// How the formula closes a branch by itself, where it is `~(t = t)`.
pub fn shuts_third(bank: &Bank, f: u64) -> Option<Clash>
    requires { f < length bank.now }
    ensures { result ≡ shuts_third (tree_at bank.now f) }
{
    match shape_at(bank, f) {
        Shape::Not(q) => denied_third(bank, q),
        _ => None,
    }
}

/// Whether the term is a numeral.
fn is_number(bank: &Bank, t: u64) -> bool
    requires { t < length bank.now }
    ensures { result ≡ is_number (tree_at bank.now t) }
{
    match shape_at(bank, t) {
        Shape::Num(_, _) => true,
        _ => false,
    }
}

/// Whether the term is a string.
fn is_text(bank: &Bank, t: u64) -> bool
    requires { t < length bank.now }
    ensures { result ≡ is_text (tree_at bank.now t) }
{
    match shape_at(bank, t) {
        Shape::Str => true,
        _ => false,
    }
}

/// Whether the terms are two different numerals or two different strings.
fn are_apart(bank: &Bank, s: u64, t: u64) -> bool
    requires { AreBelow (length bank.now) (s ∷ t ∷ []) }
    ensures { result ≡ are_apart (tree_at bank.now s) (tree_at bank.now t) }
{
    if is_number(bank, s) && is_number(bank, t) {
        return !same_term(bank, s, t);
    }
    if is_text(bank, s) && is_text(bank, t) {
        return !same_term(bank, s, t);
    }
    false
}

/// Whether the term is TRUE.
fn is_true(bank: &Bank, t: u64) -> bool
    requires { t < length bank.now }
    ensures { result ≡ is_truth_clash (tree_at bank.now t) false_ }
{
    match shape_at(bank, t) {
        Shape::True => true,
        _ => false,
    }
}

/// Whether the term is FALSE.
fn is_false(bank: &Bank, t: u64) -> bool
    requires { t < length bank.now }
    ensures { result ≡ is_truth_clash (tree_at bank.now t) true_ }
{
    match shape_at(bank, t) {
        Shape::False => true,
        _ => false,
    }
}

/// Whether the terms are TRUE and FALSE, either way round.
fn is_truth_clash(bank: &Bank, s: u64, t: u64) -> bool
    requires { AreBelow (length bank.now) (s ∷ t ∷ []) }
    ensures { result ≡ is_truth_clash (tree_at bank.now s) (tree_at bank.now t) }
{
    match shape_at(bank, s) {
        Shape::True => is_false(bank, t),
        Shape::False => is_true(bank, t),
        _ => false,
    }
}

/// How the formula closes a branch by itself, where it is an equation of two different literals, or of TRUE and FALSE.
pub fn shuts_last(bank: &Bank, f: u64) -> Option<Clash>
    requires { f < length bank.now }
    ensures { result ≡ shuts_last (tree_at bank.now f) }
{
    match shape_at(bank, f) {
        Shape::Eq(s, t) => {
            if are_apart(bank, s, t) {
                Some(Clash::Literals)
            } else {
                clash_when(is_truth_clash(bank, s, t), Clash::Truths)
            }
        }
        _ => None,
    }
}

/// The formula that is the Not of f: None exactly where the bank has none.
pub fn denial(bank: &Bank, f: u64) -> Option<u64>
    requires { f < length bank.now }
    ensures { (g : ℕ) → g < length bank.now
        → is_not_of (tree_at bank.now g) (tree_at bank.now f) ≡ names result g }
{
    let _count = bank.count();
    seek(bank, Shape::Not(f))
}

/// The formula that f is the Not of: None exactly where f is no Not.
pub fn denied(bank: &Bank, f: u64) -> Option<u64>
    requires { f < length bank.now }
    ensures { (g : ℕ) → g < length bank.now
        → is_not_of (tree_at bank.now f) (tree_at bank.now g) ≡ names result g }
{
    let _count = bank.count();
    match shape_at(bank, f) {
        Shape::Not(a) => Some(a),
        _ => None,
    }
}

/// The Not of `t = s`.
fn denied_equation(bank: &mut Bank, alloc: Global, s: u64, t: u64) -> Result<u64, Memory>
    requires { AreBelow (length bank.old) (s ∷ t ∷ []) }
    ensures extends { Extends bank.old bank.new }
    ensures distinct { IsDistinct bank.new }
    ensures ok { IfOk result (λ k. (g : ℕ) → g < length bank.new
        → is_mirror_not (eq_ (tree_at bank.old s) (tree_at bank.old t)) (tree_at bank.new g)
        ≡ nat_eq g k) }
{
    build(bank, alloc, &[s, t], &[Shape::Eq(1, 0), Shape::Not(2)])
}

/// The formula that is the Not of the mirror of f, put into the bank: None exactly where f is no equation.
pub fn mirror_denial(bank: &mut Bank, alloc: Global, f: u64) -> Result<Option<u64>, Memory>
    requires { f < length bank.old }
    ensures extends { Extends bank.old bank.new }
    ensures distinct { IsDistinct bank.new }
    ensures ok { IfOk result (λ o. (g : ℕ) → g < length bank.new
        → is_mirror_not (tree_at bank.old f) (tree_at bank.new g) ≡ names o g) }
{
    let _count = bank.count();
    match shape_at(bank, f) {
        Shape::Eq(s, t) => Ok(Some(denied_equation(bank, alloc, s, t)?)),
        _ => Ok(None),
    }
}

/// The mirror of q, where that is an equation.
fn equation_mirror(bank: &Bank, q: u64) -> Option<u64>
    requires { q < length bank.now }
    ensures { (g : ℕ) → g < length bank.now
        → is_mirror_not (tree_at bank.now g) (not_ (tree_at bank.now q)) ≡ names result g }
{
    let _count = bank.count();
    match shape_at(bank, q) {
        Shape::Eq(u, v) => seek(bank, Shape::Eq(v, u)),
        _ => None,
    }
}

/// The formula whose mirror f denies: None exactly where f denies no equation or the bank has none.
pub fn mirror_denied(bank: &Bank, f: u64) -> Option<u64>
    requires { f < length bank.now }
    ensures { (g : ℕ) → g < length bank.now
        → is_mirror_not (tree_at bank.now g) (tree_at bank.now f) ≡ names result g }
{
    match shape_at(bank, f) {
        Shape::Not(q) => equation_mirror(bank, q),
        _ => None,
    }
}
