//! The ranks choice, instance and spare.
ghost use Rattle.std.specs.Prelude.{◌≡◌, ◌<◌, ◌≤◌, [], ◌∷◌, ℕ, length, OnOk};
ghost use Rattle.core_expr.specs.Tree.{not_};
ghost use Rattle.seq_calculus.specs.Calculus.{IsClosed};
ghost use Rattle.proof_writer.specs.Written.{opens, count, tree_at};
ghost use Rattle.proof_writer.specs.Shapes.{first_of, rest_of};
ghost use Rattle.proof_trees.specs.Simple.{choice_by, instance_by};

use crate::shapes::neg_left;
use core_expr::Memory;
use proof_writer::{Inference, Writer};
use std::alloc::Global;
use term_shapes::{Shape, shape_at};

/// The counterexample at the Not of the formula `f`.
fn choice_not(w: &mut Writer, alloc: Global, f: u64) -> Result<(), Memory>
    requires below { f < count w.old }
    requires closed { IsClosed (tree_at w.old f) }
    requires some { 1 ≤ length (opens w.old) }
    ensures more { count w.old ≤ count w.new }
    ensures same { (i : ℕ) → i < count w.old → tree_at w.new i ≡ tree_at w.old i }
    ensures ok { OnOk result (opens w.new
        ≡ choice_by (not_ (tree_at w.old f)) (first_of (opens w.old)) ∷ rest_of (opens w.old)) }
{
    match shape_at(w.bank(), f) {
        Shape::All(q) => {
            let not = w.make(alloc, Shape::Not(q))?;
            let chosen = w.make(alloc, Shape::Choose(not))?;
            let witness = w.inst(alloc, q, chosen)?;
            neg_left(w, alloc, witness)?;
            w.infer(alloc, Inference::AllRight(q))?;
            w.infer(alloc, Inference::NotLeft(f))
        }
        _ => Ok(()),
    }
}

/// The chosen value at the formula `f`.
pub fn choice(w: &mut Writer, alloc: Global, f: u64) -> Result<(), Memory>
    requires below { f < count w.old }
    requires closed { IsClosed (tree_at w.old f) }
    requires some { 1 ≤ length (opens w.old) }
    ensures more { count w.old ≤ count w.new }
    ensures same { (i : ℕ) → i < count w.old → tree_at w.new i ≡ tree_at w.old i }
    ensures ok { OnOk result (opens w.new
        ≡ choice_by (tree_at w.old f) (first_of (opens w.old)) ∷ rest_of (opens w.old)) }
{
    match shape_at(w.bank(), f) {
        Shape::Ex(q) => w.infer(alloc, Inference::ExistsLeft(q)),
        Shape::Not(g) => choice_not(w, alloc, g),
        _ => Ok(()),
    }
}

/// The instance by the term `t` at the Not of the formula `f`.
fn instance_not(w: &mut Writer, alloc: Global, f: u64, t: u64) -> Result<(), Memory>
    requires below { f < count w.old }
    requires term { t < count w.old }
    requires closed { IsClosed (tree_at w.old f) }
    requires closed_term { IsClosed (tree_at w.old t) }
    requires some { 1 ≤ length (opens w.old) }
    ensures more { count w.old ≤ count w.new }
    ensures same { (i : ℕ) → i < count w.old → tree_at w.new i ≡ tree_at w.old i }
    ensures ok { OnOk result (opens w.new ≡ instance_by (tree_at w.old t) (not_ (tree_at w.old f))
        (first_of (opens w.old)) ∷ rest_of (opens w.old)) }
{
    match shape_at(w.bank(), f) {
        Shape::Ex(q) => {
            let witness = w.inst(alloc, q, t)?;
            neg_left(w, alloc, witness)?;
            w.infer(alloc, Inference::ExistsRight(q, t))?;
            w.infer(alloc, Inference::NotLeft(f))
        }
        _ => Ok(()),
    }
}

/// The instance by the term `t` at the formula `f`.
pub fn instance(w: &mut Writer, alloc: Global, f: u64, t: u64) -> Result<(), Memory>
    requires below { f < count w.old }
    requires term { t < count w.old }
    requires closed { IsClosed (tree_at w.old f) }
    requires closed_term { IsClosed (tree_at w.old t) }
    requires some { 1 ≤ length (opens w.old) }
    ensures more { count w.old ≤ count w.new }
    ensures same { (i : ℕ) → i < count w.old → tree_at w.new i ≡ tree_at w.old i }
    ensures ok { OnOk result (opens w.new ≡ instance_by (tree_at w.old t) (tree_at w.old f)
        (first_of (opens w.old)) ∷ rest_of (opens w.old)) }
{
    match shape_at(w.bank(), f) {
        Shape::All(q) => w.infer(alloc, Inference::AllLeft(q, t)),
        Shape::Not(g) => instance_not(w, alloc, g, t),
        _ => Ok(()),
    }
}
