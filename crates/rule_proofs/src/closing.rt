//! Closings.
ghost use Rattle.std.specs.Prelude.{◌≡◌, ◌<◌, ◌≤◌, [], ◌∷◌, ℕ, length, OnOk};
ghost use Rattle.core_expr.specs.Terms.{same};
ghost use Rattle.core_expr.specs.Nodes.{AreBelow, picked};
ghost use Rattle.term_bank.specs.Banks.{tree_at as bank_tree};
ghost use Rattle.search_definition.specs.Branches.{is_not_of, is_mirror_not};
ghost use Rattle.proof_writer.specs.Written.{opens, count, tree_at};
ghost use Rattle.proof_trees.specs.Closings.{mirror_clash, unequal, apart, true_is_false, truths, lone_by, pair_by, entries_by};
ghost use Rattle.rule_proofs.specs.Cases.{truths_by};

use crate::shapes::{clash, mirror};
use core_expr::Memory;
use proof_writer::{Inference, Writer};
use search_definition::Clash;
use sqlite_items::Items;
use std::alloc::Global;
use term_bank::Bank;
use term_shapes::{Shape, shape_at};

/// Whether both are the same tree.
pub fn equal(bank: &Bank, a: u64, b: u64) -> bool
    requires first { a < length bank.now }
    requires second { b < length bank.now }
    ensures { result ≡ same (bank_tree bank.now a) (bank_tree bank.now b) }
{
    let _ = bank.count();
    a == b
}

/// s = t stands for the formula `f`, with ~(t = s).
pub fn mirror_clash(w: &mut Writer, alloc: Global, f: u64) -> Result<(), Memory>
    requires { f < count w.old }
    ensures more { count w.old ≤ count w.new }
    ensures same { (i : ℕ) → i < count w.old → tree_at w.new i ≡ tree_at w.old i }
    ensures ok { OnOk result (opens w.new ≡ mirror_clash (tree_at w.old f) ∷ opens w.old) }
{
    match shape_at(w.bank(), f) {
        Shape::Eq(s, t) => {
            let mirrored = w.make(alloc, Shape::Eq(t, s))?;
            w.infer(alloc, Inference::Axiom(mirrored))?;
            mirror(w, alloc, s, t)?;
            w.infer(alloc, Inference::NotLeft(mirrored))
        }
        _ => w.infer(alloc, Inference::FalseLeft),
    }
}

/// ~(t = t).
fn unequal(w: &mut Writer, alloc: Global, f: u64) -> Result<(), Memory>
    requires { f < count w.old }
    ensures trees { w.new.trees ≡ w.old.trees }
    ensures ok { OnOk result (opens w.new ≡ unequal (tree_at w.old f) ∷ opens w.old) }
{
    if let Shape::Not(g) = shape_at(w.bank(), f) {
        if let Shape::Eq(s, _) = shape_at(w.bank(), g) {
            w.infer(alloc, Inference::Reflexive(s))?;
            return w.infer(alloc, Inference::NotLeft(g));
        }
    }
    w.infer(alloc, Inference::FalseLeft)
}

/// An equation of two different literals.
pub fn apart(w: &mut Writer, alloc: Global, f: u64) -> Result<(), Memory>
    requires { f < count w.old }
    ensures trees { w.new.trees ≡ w.old.trees }
    ensures ok { OnOk result (opens w.new ≡ apart (tree_at w.old f) ∷ opens w.old) }
{
    match shape_at(w.bank(), f) {
        Shape::Eq(s, t) => {
            clash(w, alloc, f)?;
            let params = Items::from_slice(alloc, &[s, t])?;
            w.schema(alloc, 22, 0, params)
        }
        _ => w.infer(alloc, Inference::FalseLeft),
    }
}

/// TRUE = FALSE.
fn true_is_false(w: &mut Writer, alloc: Global) -> Result<(), Memory>
    ensures more { count w.old ≤ count w.new }
    ensures same { (i : ℕ) → i < count w.old → tree_at w.new i ≡ tree_at w.old i }
    ensures ok { OnOk result (opens w.new ≡ true_is_false ∷ opens w.old) }
{
    let variable = w.make(alloc, Shape::Bound(0))?;
    let truth = w.make(alloc, Shape::True)?;
    let falsehood = w.make(alloc, Shape::False)?;
    w.infer(alloc, Inference::FalseLeft)?;
    w.infer(alloc, Inference::Replacement(variable, truth, falsehood))?;
    w.infer(alloc, Inference::TrueRight)?;
    w.infer(alloc, Inference::Cut(truth))
}

/// Whether the formula is an equation whose left side is TRUE.
fn begins_with_true(bank: &Bank, f: u64) -> bool
    requires { f < length bank.now }
    ensures { truths (bank_tree bank.now f) ≡ truths_by result }
{
    if let Shape::Eq(s, _) = shape_at(bank, f) {
        if let Shape::True = shape_at(bank, s) {
            return true;
        }
    }
    false
}

/// TRUE = FALSE or FALSE = TRUE.
pub fn truths(w: &mut Writer, alloc: Global, f: u64) -> Result<(), Memory>
    requires { f < count w.old }
    ensures more { count w.old ≤ count w.new }
    ensures same { (i : ℕ) → i < count w.old → tree_at w.new i ≡ tree_at w.old i }
    ensures ok { OnOk result (opens w.new ≡ truths (tree_at w.old f) ∷ opens w.old) }
{
    if begins_with_true(w.bank(), f) {
        return true_is_false(w, alloc);
    }
    let truth = w.make(alloc, Shape::True)?;
    let falsehood = w.make(alloc, Shape::False)?;
    true_is_false(w, alloc)?;
    mirror(w, alloc, falsehood, truth)
}

/// A closing by one formula.
fn lone(w: &mut Writer, alloc: Global, clash: Clash, f: u64) -> Result<(), Memory>
    requires { f < count w.old }
    ensures more { count w.old ≤ count w.new }
    ensures same { (i : ℕ) → i < count w.old → tree_at w.new i ≡ tree_at w.old i }
    ensures ok { OnOk result (opens w.new ≡ lone_by clash (tree_at w.old f) ∷ opens w.old) }
{
    match clash {
        Clash::DeniedTruth => {
            let truth = w.make(alloc, Shape::True)?;
            w.infer(alloc, Inference::TrueRight)?;
            w.infer(alloc, Inference::NotLeft(truth))
        }
        Clash::DeniedIdentity => unequal(w, alloc, f),
        Clash::Literals => apart(w, alloc, f),
        Clash::Truths => truths(w, alloc, f),
        _ => w.infer(alloc, Inference::FalseLeft),
    }
}

/// Whether `f` is the Not of `g`.
fn is_not_of(bank: &Bank, f: u64, g: u64) -> bool
    requires first { f < length bank.now }
    requires second { g < length bank.now }
    ensures { result ≡ is_not_of (bank_tree bank.now f) (bank_tree bank.now g) }
{
    match shape_at(bank, f) {
        Shape::Not(a) => equal(bank, a, g),
        _ => false,
    }
}

/// Whether `f` is s = t, and `g` is ~(t = s).
fn is_mirror_not(bank: &Bank, f: u64, g: u64) -> bool
    requires first { f < length bank.now }
    requires second { g < length bank.now }
    ensures { result ≡ is_mirror_not (bank_tree bank.now f) (bank_tree bank.now g) }
{
    if let Shape::Eq(s, t) = shape_at(bank, f) {
        if let Shape::Not(a) = shape_at(bank, g) {
            if let Shape::Eq(u, v) = shape_at(bank, a) {
                return equal(bank, s, v) && equal(bank, t, u);
            }
        }
    }
    false
}

/// A closing by two formulas.
fn pair(w: &mut Writer, alloc: Global, case: Clash, f: u64, g: u64) -> Result<(), Memory>
    requires first { f < count w.old }
    requires second { g < count w.old }
    ensures more { count w.old ≤ count w.new }
    ensures same { (i : ℕ) → i < count w.old → tree_at w.new i ≡ tree_at w.old i }
    ensures ok { OnOk result (opens w.new
        ≡ pair_by case (tree_at w.old f) (tree_at w.old g) ∷ opens w.old) }
{
    match case {
        Clash::Denied => {
            let denied = if is_not_of(w.bank(), f, g) { g } else { f };
            clash(w, alloc, denied)
        }
        Clash::DeniedMirror => {
            let equation = if is_mirror_not(w.bank(), f, g) { f } else { g };
            mirror_clash(w, alloc, equation)
        }
        _ => w.infer(alloc, Inference::FalseLeft),
    }
}

/// A closing by these formulas.
#[tactic(auto, using(crate::proofs::Numbers::entries_other))]
pub fn close(w: &mut Writer, alloc: Global, case: Clash, entries: &[u64]) -> Result<(), Memory>
    requires { AreBelow (count w.old) entries.now }
    ensures more { count w.old ≤ count w.new }
    ensures same { (i : ℕ) → i < count w.old → tree_at w.new i ≡ tree_at w.old i }
    ensures ok { OnOk result (opens w.new
        ≡ entries_by case (picked w.old.trees entries.now) ∷ opens w.old) }
{
    if entries.len() == 1 {
        return lone(w, alloc, case, entries[0]);
    }
    if entries.len() == 2 {
        return pair(w, alloc, case, entries[0], entries[1]);
    }
    w.infer(alloc, Inference::FalseLeft)
}
