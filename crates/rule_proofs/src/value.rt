//! Values of formulas by grounds, as the search finds them on a branch.
ghost use Rattle.std.specs.Prelude.{◌≡◌, ◌<◌, ◌≤◌, ℕ, length, IfOk};
ghost use Rattle.core_expr.specs.Nodes.{AreBelow, picked};
ghost use Rattle.seq_calculus.specs.Schemas.{are_apart};
ghost use Rattle.term_bank.specs.Banks.{tree_at as bank_tree};
ghost use Rattle.term_shapes.specs.Shapes.{tree_of, named_parts, IsWhole};
ghost use Rattle.search_definition.specs.Branches.{has, is_truth_clash};
ghost use Rattle.search_definition.specs.Values.{opposite, both_true, one_true, same_truth, is_plainly_true, is_plainly_false, has_mirror, has_not_mirror, whole};
ghost use Rattle.proof_writer.specs.Written.{opens, count, tree_at};
ghost use Rattle.proof_trees.specs.Valued.{entries_of};
ghost use Rattle.rule_proofs.specs.Values.{truth_of, whole_of, whole_against, is_numeral, is_text};

use crate::closing::equal;
use core_expr::Memory;
use proof_writer::Writer;
use std::alloc::Global;
use term_bank::Bank;
use term_shapes::{Shape, shape_at};

/// The three values.
#[derive(Clone, Copy, Debug, PartialEq, Eq)]
pub enum Value {
    Yes,
    No,
    Unknown,
}

/// Why a formula has a value as a whole, or that it has none.
#[derive(Clone, Copy, Debug, PartialEq, Eq)]
pub enum Reason {
    Stands,
    ByItself,
    Mirrored,
    NotStands,
    FalseItself,
    NotMirrored,
    Undecided,
}

/// The value of ~A from that of A.
pub fn opposite(x: Value) -> Value
    ensures { truth_of result ≡ opposite (truth_of x) }
{
    match x {
        Value::Yes => Value::No,
        Value::No => Value::Yes,
        Value::Unknown => Value::Unknown,
    }
}

/// The value of A /\ B.
pub fn both_true(x: Value, y: Value) -> Value
    ensures { truth_of result ≡ both_true (truth_of x) (truth_of y) }
{
    match (x, y) {
        (Value::No, _) => Value::No,
        (Value::Yes, _) => y,
        (Value::Unknown, Value::No) => Value::No,
        (Value::Unknown, _) => Value::Unknown,
    }
}

/// The value of A \/ B.
pub fn one_true(x: Value, y: Value) -> Value
    ensures { truth_of result ≡ one_true (truth_of x) (truth_of y) }
{
    match (x, y) {
        (Value::Yes, _) => Value::Yes,
        (Value::No, _) => y,
        (Value::Unknown, Value::Yes) => Value::Yes,
        (Value::Unknown, _) => Value::Unknown,
    }
}

/// The value of A <=> B.
pub fn same_truth(x: Value, y: Value) -> Value
    ensures { truth_of result ≡ same_truth (truth_of x) (truth_of y) }
{
    match x {
        Value::Yes => y,
        Value::No => opposite(y),
        Value::Unknown => Value::Unknown,
    }
}

/// Whether the formula is among the grounds.
#[tactic(auto, using(crate::proofs::Values::has_at))]
fn has(bank: &Bank, grounds: &[u64], f: u64) -> bool
    requires grounds { AreBelow (length bank.now) grounds.now }
    requires below { f < length bank.now }
    ensures { result ≡ has (entries_of (picked bank.now grounds.now)) (bank_tree bank.now f) }
{
    let _ = bank.count();
    for ground in grounds {
        if *ground == f {
            return true;
        }
    }
    false
}

/// Whether the formula of a form is among the grounds.
#[tactic(auto, using(crate::proofs::Lefts::picked_same, crate::proofs::Lefts::below_wider))]
fn has_form(w: &mut Writer, alloc: Global, grounds: &[u64], shape: Shape) -> Result<bool, Memory>
    requires grounds { AreBelow (count w.old) grounds.now }
    requires below { AreBelow (count w.old) (named_parts shape) }
    requires whole { IsWhole shape }
    ensures more { count w.old ≤ count w.new }
    ensures same { (i : ℕ) → i < count w.old → tree_at w.new i ≡ tree_at w.old i }
    ensures opens { opens w.new ≡ opens w.old }
    ensures ok { IfOk result (λ b. b
        ≡ has (entries_of (picked w.old.trees grounds.now)) (tree_of w.old.trees shape)) }
{
    let formula = w.make(alloc, shape)?;
    Ok(has(w.bank(), grounds, formula))
}

/// Whether the formula is TRUE or t = t.
fn is_plainly_true(bank: &Bank, f: u64) -> bool
    requires { f < length bank.now }
    ensures { result ≡ is_plainly_true (bank_tree bank.now f) }
{
    match shape_at(bank, f) {
        Shape::True => true,
        Shape::Eq(s, t) => equal(bank, s, t),
        _ => false,
    }
}

/// Whether the term is a numeral.
fn is_numeral(bank: &Bank, t: u64) -> bool
    requires { t < length bank.now }
    ensures { result ≡ is_numeral (bank_tree bank.now t) }
{
    match shape_at(bank, t) {
        Shape::Num(_, _) => true,
        _ => false,
    }
}

/// Whether the term is a string.
fn is_text(bank: &Bank, t: u64) -> bool
    requires { t < length bank.now }
    ensures { result ≡ is_text (bank_tree bank.now t) }
{
    match shape_at(bank, t) {
        Shape::Str => true,
        _ => false,
    }
}

/// Whether the terms are two different numerals or two different strings.
#[tactic(auto, using(crate::proofs::Values::apart_numerals, crate::proofs::Values::apart_texts, crate::proofs::Values::apart_others))]
pub fn are_apart(bank: &Bank, s: u64, t: u64) -> bool
    requires first { s < length bank.now }
    requires second { t < length bank.now }
    ensures { result ≡ are_apart (bank_tree bank.now s) (bank_tree bank.now t) }
{
    if is_numeral(bank, s) {
        return is_numeral(bank, t) && !equal(bank, s, t);
    }
    if is_text(bank, s) {
        return is_text(bank, t) && !equal(bank, s, t);
    }
    false
}

/// Whether the terms are TRUE and FALSE, in some order.
fn is_truth_clash(bank: &Bank, s: u64, t: u64) -> bool
    requires first { s < length bank.now }
    requires second { t < length bank.now }
    ensures { result ≡ is_truth_clash (bank_tree bank.now s) (bank_tree bank.now t) }
{
    match shape_at(bank, s) {
        Shape::True => match shape_at(bank, t) {
            Shape::False => true,
            _ => false,
        },
        Shape::False => match shape_at(bank, t) {
            Shape::True => true,
            _ => false,
        },
        _ => false,
    }
}

/// Whether the formula is FALSE, an equation of two different literals, or one of TRUE and FALSE.
fn is_plainly_false(bank: &Bank, f: u64) -> bool
    requires { f < length bank.now }
    ensures { result ≡ is_plainly_false (bank_tree bank.now f) }
{
    match shape_at(bank, f) {
        Shape::False => true,
        Shape::Eq(s, t) => are_apart(bank, s, t) || is_truth_clash(bank, s, t),
        _ => false,
    }
}

/// Whether the formula is an equation whose mirror is among the grounds.
fn has_mirror(w: &mut Writer, alloc: Global, grounds: &[u64], f: u64) -> Result<bool, Memory>
    requires grounds { AreBelow (count w.old) grounds.now }
    requires below { f < count w.old }
    ensures more { count w.old ≤ count w.new }
    ensures same { (i : ℕ) → i < count w.old → tree_at w.new i ≡ tree_at w.old i }
    ensures opens { opens w.new ≡ opens w.old }
    ensures ok { IfOk result (λ b. b
        ≡ has_mirror (entries_of (picked w.old.trees grounds.now)) (tree_at w.old f)) }
{
    match shape_at(w.bank(), f) {
        Shape::Eq(s, t) => has_form(w, alloc, grounds, Shape::Eq(t, s)),
        _ => Ok(false),
    }
}

/// Whether the formula is an equation, and the Not of its mirror is among the grounds.
#[tactic(auto, using(crate::proofs::Lefts::picked_same, crate::proofs::Lefts::below_wider))]
fn has_not_mirror(w: &mut Writer, alloc: Global, grounds: &[u64], f: u64) -> Result<bool, Memory>
    requires grounds { AreBelow (count w.old) grounds.now }
    requires below { f < count w.old }
    ensures more { count w.old ≤ count w.new }
    ensures same { (i : ℕ) → i < count w.old → tree_at w.new i ≡ tree_at w.old i }
    ensures opens { opens w.new ≡ opens w.old }
    ensures ok { IfOk result (λ b. b
        ≡ has_not_mirror (entries_of (picked w.old.trees grounds.now)) (tree_at w.old f)) }
{
    match shape_at(w.bank(), f) {
        Shape::Eq(s, t) => {
            let mirrored = w.make(alloc, Shape::Eq(t, s))?;
            has_form(w, alloc, grounds, Shape::Not(mirrored))
        }
        _ => Ok(false),
    }
}

/// The reasons that say that a formula is false, or none.
#[tactic(auto, using(crate::proofs::Lefts::picked_same, crate::proofs::Lefts::below_wider))]
fn reason_against(w: &mut Writer, alloc: Global, grounds: &[u64], f: u64) -> Result<Reason, Memory>
    requires grounds { AreBelow (count w.old) grounds.now }
    requires below { f < count w.old }
    ensures more { count w.old ≤ count w.new }
    ensures same { (i : ℕ) → i < count w.old → tree_at w.new i ≡ tree_at w.old i }
    ensures opens { opens w.new ≡ opens w.old }
    ensures ok { IfOk result (λ r. whole_of r
        ≡ whole_against (entries_of (picked w.old.trees grounds.now)) (tree_at w.old f)) }
{
    if has_form(w, alloc, grounds, Shape::Not(f))? {
        return Ok(Reason::NotStands);
    }
    if is_plainly_false(w.bank(), f) {
        return Ok(Reason::FalseItself);
    }
    if has_not_mirror(w, alloc, grounds, f)? {
        return Ok(Reason::NotMirrored);
    }
    Ok(Reason::Undecided)
}

/// The first reason that fits.
#[tactic(auto, using(crate::proofs::Lefts::picked_same, crate::proofs::Lefts::below_wider))]
pub fn find_reason(w: &mut Writer, alloc: Global, grounds: &[u64], f: u64) -> Result<Reason, Memory>
    requires grounds { AreBelow (count w.old) grounds.now }
    requires below { f < count w.old }
    ensures more { count w.old ≤ count w.new }
    ensures same { (i : ℕ) → i < count w.old → tree_at w.new i ≡ tree_at w.old i }
    ensures opens { opens w.new ≡ opens w.old }
    ensures ok { IfOk result (λ r. whole_of r
        ≡ whole (entries_of (picked w.old.trees grounds.now)) (tree_at w.old f)) }
{
    if has(w.bank(), grounds, f) {
        return Ok(Reason::Stands);
    }
    if is_plainly_true(w.bank(), f) {
        return Ok(Reason::ByItself);
    }
    if has_mirror(w, alloc, grounds, f)? {
        return Ok(Reason::Mirrored);
    }
    reason_against(w, alloc, grounds, f)
}
