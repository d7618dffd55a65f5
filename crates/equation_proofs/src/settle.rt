//! The rank settle: a side of a split is contradictory by grounds.
ghost use Rattle.std.specs.Prelude.{◌≡◌, ◌<◌, ◌≤◌, [], ◌∷◌, ℕ, length, OnOk};
ghost use Rattle.core_expr.specs.Tree.{not_};
ghost use Rattle.core_expr.specs.Nodes.{AreBelow, picked};
ghost use Rattle.search_definition.specs.Splits.{splitting};
ghost use Rattle.search_definition.specs.Values.{is_no};
ghost use Rattle.proof_writer.specs.Written.{opens, count, tree_at};
ghost use Rattle.proof_writer.specs.Shapes.{first_of, rest_of};
ghost use Rattle.proof_trees.specs.Simple.{split_by};
ghost use Rattle.proof_trees.specs.Valued.{side_by, false_left_by, false_right_by};
ghost use Rattle.rule_proofs.specs.Values.{truth_of};

use core_expr::Memory;
use proof_writer::Writer;
use rule_proofs::{Value, show, split};
use std::alloc::Global;
use term_shapes::{Shape, shape_at};

/// Whether the value is that of a false formula.
fn is_false(value: Value) -> bool
    ensures { result ≡ is_no (truth_of value) }
{
    match value {
        Value::No => true,
        _ => false,
    }
}

/// The contradiction of the first of the formulas that is false by the grounds.
fn show_side(w: &mut Writer, alloc: Global, grounds: &[u64], formulas: &[u64]) -> Result<(), Memory>
    requires grounds { AreBelow (count w.old) grounds.now }
    requires below { AreBelow (count w.old) formulas.now }
    ensures more { count w.old ≤ count w.new }
    ensures same { (i : ℕ) → i < count w.old → tree_at w.new i ≡ tree_at w.old i }
    ensures ok { OnOk result (opens w.new ≡ side_by (picked w.old.trees grounds.now)
        (picked w.old.trees formulas.now) ∷ opens w.old) }
{
    for formula in formulas {
        let value = show(w, alloc, grounds, *formula)?;
        if is_false(value) {
            return Ok(());
        }
        w.discard();
    }
    let truth = w.make(alloc, Shape::True)?;
    show(w, alloc, grounds, truth)?;
    Ok(())
}

/// The split of `f` whose left side has these formulas, one of which is false by the grounds, over the proof of its right side.
#[tactic(auto, using(rule_proofs::proofs::Lefts::picked_same, rule_proofs::proofs::Lefts::below_wider))]
fn split_left(
    w: &mut Writer,
    alloc: Global,
    grounds: &[u64],
    f: u64,
    formulas: &[u64],
) -> Result<(), Memory>
    requires grounds { AreBelow (count w.old) grounds.now }
    requires below { AreBelow (count w.old) formulas.now }
    requires formula { f < count w.old }
    requires some { 1 ≤ length (opens w.old) }
    ensures more { count w.old ≤ count w.new }
    ensures same { (i : ℕ) → i < count w.old → tree_at w.new i ≡ tree_at w.old i }
    ensures ok { OnOk result (opens w.new ≡ split_by (tree_at w.old f)
        (side_by (picked w.old.trees grounds.now) (picked w.old.trees formulas.now))
        (first_of (opens w.old)) ∷ rest_of (opens w.old)) }
{
    show_side(w, alloc, grounds, formulas)?;
    split(w, alloc, f)
}

/// The same where the right side has these formulas, over the proof of the left side.
fn split_right(
    w: &mut Writer,
    alloc: Global,
    grounds: &[u64],
    f: u64,
    formulas: &[u64],
) -> Result<(), Memory>
    requires grounds { AreBelow (count w.old) grounds.now }
    requires below { AreBelow (count w.old) formulas.now }
    requires formula { f < count w.old }
    requires some { 1 ≤ length (opens w.old) }
    ensures more { count w.old ≤ count w.new }
    ensures same { (i : ℕ) → i < count w.old → tree_at w.new i ≡ tree_at w.old i }
    ensures ok { OnOk result (opens w.new ≡ split_by (tree_at w.old f) (first_of (opens w.old))
        (side_by (picked w.old.trees grounds.now) (picked w.old.trees formulas.now))
        ∷ rest_of (opens w.old)) }
{
    show_side(w, alloc, grounds, formulas)?;
    w.swap()?;
    split(w, alloc, f)
}

/// The split of the Not of `a`, which is `f`, where the left side has a formula that is false by the grounds.
#[tactic(auto, using(rule_proofs::proofs::Lefts::picked_same, rule_proofs::proofs::Lefts::below_wider))]
fn false_left_not(
    w: &mut Writer,
    alloc: Global,
    grounds: &[u64],
    f: u64,
    a: u64,
) -> Result<(), Memory>
    requires grounds { AreBelow (count w.old) grounds.now }
    requires formula { f < count w.old }
    requires under { a < count w.old }
    requires is { tree_at w.old f ≡ not_ (tree_at w.old a) }
    requires some { 1 ≤ length (opens w.old) }
    ensures more { count w.old ≤ count w.new }
    ensures same { (i : ℕ) → i < count w.old → tree_at w.new i ≡ tree_at w.old i }
    ensures ok { OnOk result (opens w.new ≡ false_left_by (not_ (tree_at w.old a))
        (picked w.old.trees grounds.now) (first_of (opens w.old))
        (splitting (not_ (tree_at w.old a))) ∷ rest_of (opens w.old)) }
{
    match shape_at(w.bank(), a) {
        Shape::And(x, _) => {
            let not = w.make(alloc, Shape::Not(x))?;
            split_left(w, alloc, grounds, f, &[not])
        }
        Shape::Iff(x, y) => {
            let not = w.make(alloc, Shape::Not(y))?;
            split_left(w, alloc, grounds, f, &[x, not])
        }
        _ => Ok(()),
    }
}

/// The split of the formula `f`, where the left side has a formula that is false by the grounds, over the proof of the right.
#[tactic(auto, using(rule_proofs::proofs::Lefts::picked_same, rule_proofs::proofs::Lefts::below_wider))]
pub fn false_left(w: &mut Writer, alloc: Global, grounds: &[u64], f: u64) -> Result<(), Memory>
    requires grounds { AreBelow (count w.old) grounds.now }
    requires formula { f < count w.old }
    requires some { 1 ≤ length (opens w.old) }
    ensures more { count w.old ≤ count w.new }
    ensures same { (i : ℕ) → i < count w.old → tree_at w.new i ≡ tree_at w.old i }
    ensures ok { OnOk result (opens w.new ≡ false_left_by (tree_at w.old f)
        (picked w.old.trees grounds.now) (first_of (opens w.old))
        (splitting (tree_at w.old f)) ∷ rest_of (opens w.old)) }
{
    match shape_at(w.bank(), f) {
        Shape::Or(a, _) => split_left(w, alloc, grounds, f, &[a]),
        Shape::Imp(a, _) => {
            let not = w.make(alloc, Shape::Not(a))?;
            split_left(w, alloc, grounds, f, &[not])
        }
        Shape::Iff(a, b) => split_left(w, alloc, grounds, f, &[a, b]),
        Shape::Not(a) => false_left_not(w, alloc, grounds, f, a),
        _ => Ok(()),
    }
}

/// The split of the Not of `a`, which is `f`, where the right side has a formula that is false by the grounds.
#[tactic(auto, using(rule_proofs::proofs::Lefts::picked_same, rule_proofs::proofs::Lefts::below_wider))]
fn false_right_not(
    w: &mut Writer,
    alloc: Global,
    grounds: &[u64],
    f: u64,
    a: u64,
) -> Result<(), Memory>
    requires grounds { AreBelow (count w.old) grounds.now }
    requires formula { f < count w.old }
    requires under { a < count w.old }
    requires is { tree_at w.old f ≡ not_ (tree_at w.old a) }
    requires some { 1 ≤ length (opens w.old) }
    ensures more { count w.old ≤ count w.new }
    ensures same { (i : ℕ) → i < count w.old → tree_at w.new i ≡ tree_at w.old i }
    ensures ok { OnOk result (opens w.new ≡ false_right_by (not_ (tree_at w.old a))
        (picked w.old.trees grounds.now) (first_of (opens w.old))
        (splitting (not_ (tree_at w.old a))) ∷ rest_of (opens w.old)) }
{
    match shape_at(w.bank(), a) {
        Shape::And(_, y) => {
            let not = w.make(alloc, Shape::Not(y))?;
            split_right(w, alloc, grounds, f, &[not])
        }
        Shape::Iff(x, y) => {
            let not = w.make(alloc, Shape::Not(x))?;
            split_right(w, alloc, grounds, f, &[not, y])
        }
        _ => Ok(()),
    }
}

/// The nots of both are the formulas of the right side.
#[tactic(auto, using(rule_proofs::proofs::Lefts::picked_same, rule_proofs::proofs::Lefts::below_wider))]
fn split_right_nots(
    w: &mut Writer,
    alloc: Global,
    grounds: &[u64],
    f: u64,
    a: u64,
    b: u64,
) -> Result<(), Memory>
    requires grounds { AreBelow (count w.old) grounds.now }
    requires formula { f < count w.old }
    requires first { a < count w.old }
    requires second { b < count w.old }
    requires some { 1 ≤ length (opens w.old) }
    ensures more { count w.old ≤ count w.new }
    ensures same { (i : ℕ) → i < count w.old → tree_at w.new i ≡ tree_at w.old i }
    ensures ok { OnOk result (opens w.new ≡ split_by (tree_at w.old f) (first_of (opens w.old))
        (side_by (picked w.old.trees grounds.now)
        (not_ (tree_at w.old a) ∷ not_ (tree_at w.old b) ∷ [])) ∷ rest_of (opens w.old)) }
{
    let first = w.make(alloc, Shape::Not(a))?;
    let second = w.make(alloc, Shape::Not(b))?;
    split_right(w, alloc, grounds, f, &[first, second])
}

/// The split of the formula `f`, where the right side has a formula that is false by the grounds, over the proof of the left.
pub fn false_right(w: &mut Writer, alloc: Global, grounds: &[u64], f: u64) -> Result<(), Memory>
    requires grounds { AreBelow (count w.old) grounds.now }
    requires formula { f < count w.old }
    requires some { 1 ≤ length (opens w.old) }
    ensures more { count w.old ≤ count w.new }
    ensures same { (i : ℕ) → i < count w.old → tree_at w.new i ≡ tree_at w.old i }
    ensures ok { OnOk result (opens w.new ≡ false_right_by (tree_at w.old f)
        (picked w.old.trees grounds.now) (first_of (opens w.old))
        (splitting (tree_at w.old f)) ∷ rest_of (opens w.old)) }
{
    match shape_at(w.bank(), f) {
        Shape::Or(_, b) | Shape::Imp(_, b) => split_right(w, alloc, grounds, f, &[b]),
        Shape::Iff(a, b) => split_right_nots(w, alloc, grounds, f, a, b),
        Shape::Not(a) => false_right_not(w, alloc, grounds, f, a),
        _ => Ok(()),
    }
}
