//! Reasons for which a formula has a value as a whole.
ghost use Rattle.std.specs.Prelude.{◌≡◌, ◌<◌, ◌∷◌, [], ℕ, Some, None, true, false, length, IfOk};
ghost use Rattle.core_expr.specs.Tree.{not_};
ghost use Rattle.term_bank.specs.Banks.{IsDistinct, Extends, tree_at};
ghost use Rattle.search_definition.specs.Branches.{has};
ghost use Rattle.search_definition.specs.Values.{mirror, is_plainly_true, is_plainly_false, has_mirror, has_not_mirror};
ghost use Rattle.branch_state.specs.Parts.{Holds, shown};
ghost use Rattle.tableau_search.specs.Entries.{AreKnown, branch_of};
ghost use Rattle.branch_values.specs.Reasons.{IsMirror, Stood, IsReason, first_reason};

use crate::value::Value;
use branch_state::{Parts, has};
use core_expr::Memory;
use formula_rules::{same_term, shuts_last};
use std::alloc::Global;
use term_bank::Bank;
use term_shapes::{Shape, make, seek, shape_at};

/// A value with the formula on the branch that it rests on, if it rests on one.
#[derive(Clone, Copy, Debug)]
pub struct Reason {
    pub value: Value,
    pub basis: Option<u64>,
}

/// Whether the formula is TRUE or `t = t`.
fn is_plainly_true(bank: &Bank, i: u64) -> bool
    requires { i < length bank.now }
    ensures { result ≡ is_plainly_true (tree_at bank.now i) }
{
    match shape_at(bank, i) {
        Shape::True => true,
        Shape::Eq(s, t) => same_term(bank, s, t),
        _ => false,
    }
}

/// Whether the formula is FALSE, or an equation of two different literals or of TRUE and FALSE.
fn is_plainly_false(bank: &Bank, i: u64) -> bool
    requires { i < length bank.now }
    ensures { result ≡ is_plainly_false (tree_at bank.now i) }
{
    match shape_at(bank, i) {
        Shape::False => true,
        _ => shuts_last(bank, i).is_some(),
    }
}

/// The mirror of a formula, put into the bank: None exactly where it is no equation.
fn mirror_of(bank: &mut Bank, alloc: Global, i: u64) -> Result<Option<u64>, Memory>
    requires { i < length bank.old }
    ensures extends { Extends bank.old bank.new }
    ensures distinct { IsDistinct bank.new }
    ensures ok { IfOk result (λ o. IsMirror bank.new (tree_at bank.old i) o) }
{
    let _count = bank.count();
    match shape_at(bank, i) {
        Shape::Eq(s, t) => Ok(Some(make(bank, alloc, Shape::Eq(t, s))?)),
        _ => Ok(None),
    }
}

/// The formula at an index, where it stands on the branch.
fn standing_at(bank: &Bank, parts: &Parts, i: u64) -> Option<u64>
    requires within { i < length bank.now }
    requires held { Holds parts.now }
    requires known { AreKnown (length bank.now) (shown parts.now).now }
    ensures { Stood bank.now (has (branch_of bank.now (shown parts.now).now) (tree_at bank.now i))
        (tree_at bank.now i) result }
{
    let _count = bank.count();
    if has(parts, i) { Some(i) } else { None }
}

/// The Not of a formula, where it stands on the branch.
fn standing_denial(bank: &Bank, parts: &Parts, i: u64) -> Option<u64>
    requires within { i < length bank.now }
    requires held { Holds parts.now }
    requires known { AreKnown (length bank.now) (shown parts.now).now }
    ensures { Stood bank.now
        (has (branch_of bank.now (shown parts.now).now) (not_ (tree_at bank.now i)))
        (not_ (tree_at bank.now i)) result }
{
    let _count = bank.count();
    match seek(bank, Shape::Not(i)) {
        Some(k) => standing_at(bank, parts, k),
        None => None,
    }
}

/// Whether the Not of a formula stands on the branch.
pub fn is_denied(bank: &Bank, parts: &Parts, i: u64) -> bool
    requires within { i < length bank.now }
    requires held { Holds parts.now }
    requires known { AreKnown (length bank.now) (shown parts.now).now }
    ensures { result ≡ has (branch_of bank.now (shown parts.now).now) (not_ (tree_at bank.now i)) }
{
    match standing_denial(bank, parts, i) {
        Some(_) => true,
        None => false,
    }
}

/// The mirror of the formula at an index, where that stands on the branch.
fn standing_mirror(bank: &Bank, parts: &Parts, i: u64, mirrored: Option<u64>) -> Option<u64>
    requires within { i < length bank.now }
    requires mirrored { IsMirror bank.now (tree_at bank.now i) mirrored }
    requires held { Holds parts.now }
    requires known { AreKnown (length bank.now) (shown parts.now).now }
    ensures { Stood bank.now
        (has_mirror (branch_of bank.now (shown parts.now).now) (tree_at bank.now i))
        (mirror (tree_at bank.now i)) result }
{
    match mirrored {
        Some(k) => standing_at(bank, parts, k),
        None => None,
    }
}

/// The Not of the mirror of the formula at an index, where that stands on the branch.
fn standing_mirror_denial(bank: &Bank, parts: &Parts, i: u64, mirrored: Option<u64>) -> Option<u64>
    requires within { i < length bank.now }
    requires mirrored { IsMirror bank.now (tree_at bank.now i) mirrored }
    requires held { Holds parts.now }
    requires known { AreKnown (length bank.now) (shown parts.now).now }
    ensures { Stood bank.now
        (has_not_mirror (branch_of bank.now (shown parts.now).now) (tree_at bank.now i))
        (not_ (mirror (tree_at bank.now i))) result }
{
    match mirrored {
        Some(k) => standing_denial(bank, parts, k),
        None => None,
    }
}

/// The reason that this formula on the branch, or none, gives for a value.
fn given_by(value: Value, basis: Option<u64>) -> Option<Reason>
    ensures { result ≡ Some (record { value = value; basis = basis }) }
{
    Some(Reason { value, basis })
}

/// The reason against the formula at an index: its Not that stands; whether it is false by itself; the Not of its mirror.
fn reason_against(denied: Option<u64>, plain: bool, mirror_denied: Option<u64>) -> Option<Reason>
    ensures { (i : ℕ) → result ≡ first_reason false false None denied plain mirror_denied i }
{
    if denied.is_some() {
        return given_by(Value::No, denied);
    }
    if plain {
        return given_by(Value::No, None);
    }
    match mirror_denied {
        Some(k) => given_by(Value::No, Some(k)),
        None => None,
    }
}

/// The first reason that fits the formula at an index: whether it stands or is true by itself, its mirror that stands, its Not
/// that stands, whether it is false by itself, and the Not of its mirror that stands.
fn first_reason(
    stands: bool,
    plain: bool,
    mirrored: Option<u64>,
    denied: Option<u64>,
    false_itself: bool,
    mirror_denied: Option<u64>,
    i: u64,
) -> Option<Reason>
    ensures { result ≡ first_reason stands plain mirrored denied false_itself mirror_denied i }
{
    if stands {
        return given_by(Value::Yes, Some(i));
    }
    if plain {
        return given_by(Value::Yes, None);
    }
    match mirrored {
        Some(k) => given_by(Value::Yes, Some(k)),
        None => reason_against(denied, false_itself, mirror_denied),
    }
}

/// The reason for which the formula at an index has a value as a whole: None exactly where it has none. The mirror of an
/// equation comes into the bank.
pub fn reason_at(
    bank: &mut Bank,
    alloc: Global,
    parts: &Parts,
    i: u64,
) -> Result<Option<Reason>, Memory>
    requires within { i < length bank.old }
    requires held { Holds parts.now }
    requires known { AreKnown (length bank.old) (shown parts.now).now }
    ensures extends { Extends bank.old bank.new }
    ensures distinct { IsDistinct bank.new }
    ensures ok { IfOk result (λ o. IsReason bank.new
        (branch_of bank.old (shown parts.now).now) (tree_at bank.old i) o) }
{
    let _count = bank.count();
    if has(parts, i) {
        return Ok(given_by(Value::Yes, Some(i)));
    }
    let mirror = mirror_of(bank, alloc, i)?;
    let _count = bank.count();
    Ok(first_reason(
        false,
        is_plainly_true(bank, i),
        standing_mirror(bank, parts, i, mirror),
        standing_denial(bank, parts, i),
        is_plainly_false(bank, i),
        standing_mirror_denial(bank, parts, i, mirror),
        i,
    ))
}
