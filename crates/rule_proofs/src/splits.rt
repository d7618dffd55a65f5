//! The ranks split and take up.
ghost use Rattle.std.specs.Prelude.{◌≡◌, ◌<◌, ◌≤◌, [], ◌∷◌, ℕ, length, OnOk};
ghost use Rattle.core_expr.specs.Tree.{not_};
ghost use Rattle.proof_writer.specs.Written.{opens, count, tree_at};
ghost use Rattle.proof_writer.specs.Shapes.{first_of, second_of, rest_of};
ghost use Rattle.proof_trees.specs.Simple.{split_by};
ghost use Rattle.proof_trees.specs.Cuts.{take_up_by};

use crate::shapes::{neg_left, neg_left_below};
use core_expr::Memory;
use proof_writer::{Inference, Writer};
use std::alloc::Global;
use term_shapes::{Shape, shape_at};

/// The split of the Not of the formula `f`.
fn split_not(w: &mut Writer, alloc: Global, f: u64) -> Result<(), Memory>
    requires below { f < count w.old }
    requires some { 2 ≤ length (opens w.old) }
    ensures more { count w.old ≤ count w.new }
    ensures same { (i : ℕ) → i < count w.old → tree_at w.new i ≡ tree_at w.old i }
    ensures ok { OnOk result (opens w.new ≡ split_by (not_ (tree_at w.old f)) (first_of (opens w.old))
        (second_of (opens w.old)) ∷ rest_of (rest_of (opens w.old))) }
{
    match shape_at(w.bank(), f) {
        Shape::And(a, b) => {
            neg_left(w, alloc, a)?;
            neg_left_below(w, alloc, b)?;
            w.infer(alloc, Inference::AndRight(a, b))?;
            w.infer(alloc, Inference::NotLeft(f))
        }
        Shape::Iff(a, b) => {
            neg_left(w, alloc, b)?;
            neg_left_below(w, alloc, a)?;
            w.infer(alloc, Inference::IffRight(a, b))?;
            w.infer(alloc, Inference::NotLeft(f))
        }
        _ => w.discard_below(),
    }
}

/// The split of the formula `f` over the two latest proofs, those of its sides.
pub fn split(w: &mut Writer, alloc: Global, f: u64) -> Result<(), Memory>
    requires below { f < count w.old }
    requires some { 2 ≤ length (opens w.old) }
    ensures more { count w.old ≤ count w.new }
    ensures same { (i : ℕ) → i < count w.old → tree_at w.new i ≡ tree_at w.old i }
    ensures ok { OnOk result (opens w.new ≡ split_by (tree_at w.old f) (first_of (opens w.old))
        (second_of (opens w.old)) ∷ rest_of (rest_of (opens w.old))) }
{
    match shape_at(w.bank(), f) {
        Shape::Or(a, b) => w.infer(alloc, Inference::OrLeft(a, b)),
        Shape::Imp(a, b) => {
            neg_left(w, alloc, a)?;
            w.infer(alloc, Inference::ImpLeft(a, b))
        }
        Shape::Iff(a, b) => {
            neg_left_below(w, alloc, b)?;
            neg_left_below(w, alloc, a)?;
            w.infer(alloc, Inference::IffLeft(a, b))
        }
        Shape::Not(g) => split_not(w, alloc, g),
        _ => w.discard_below(),
    }
}

/// A CHOOSE with the body `p` is taken up, over the two latest proofs.
pub fn take_up(w: &mut Writer, alloc: Global, p: u64) -> Result<(), Memory>
    requires below { p < count w.old }
    requires some { 2 ≤ length (opens w.old) }
    ensures more { count w.old ≤ count w.new }
    ensures same { (i : ℕ) → i < count w.old → tree_at w.new i ≡ tree_at w.old i }
    ensures ok { OnOk result (opens w.new ≡ take_up_by (tree_at w.old p) (first_of (opens w.old))
        (second_of (opens w.old)) ∷ rest_of (rest_of (opens w.old))) }
{
    let exists = w.make(alloc, Shape::Ex(p))?;
    w.infer(alloc, Inference::ExistsLeft(p))?;
    w.swap()?;
    neg_left(w, alloc, exists)?;
    w.infer(alloc, Inference::Cut(exists))
}
