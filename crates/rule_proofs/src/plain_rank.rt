//! The rank plain at connectives.
ghost use Rattle.std.specs.Prelude.{◌≡◌, ◌<◌, ◌≤◌, [], ◌∷◌, ℕ, length, OnOk};
ghost use Rattle.core_expr.specs.Tree.{not_};
ghost use Rattle.proof_writer.specs.Written.{opens, count, tree_at};
ghost use Rattle.proof_writer.specs.Shapes.{first_of, rest_of};
ghost use Rattle.proof_trees.specs.Simple.{plain_by};

use crate::shapes::neg_left;
use core_expr::Memory;
use proof_writer::{Inference, Writer};
use std::alloc::Global;
use term_shapes::{Shape, shape_at};

/// At the Not of the formula `f`.
fn plain_not(w: &mut Writer, alloc: Global, f: u64) -> Result<(), Memory>
    requires below { f < count w.old }
    requires some { 1 ≤ length (opens w.old) }
    ensures more { count w.old ≤ count w.new }
    ensures same { (i : ℕ) → i < count w.old → tree_at w.new i ≡ tree_at w.old i }
    ensures ok { OnOk result (opens w.new
        ≡ plain_by (not_ (tree_at w.old f)) (first_of (opens w.old)) ∷ rest_of (opens w.old)) }
{
    match shape_at(w.bank(), f) {
        Shape::Not(a) => {
            w.infer(alloc, Inference::NotRight(a))?;
            w.infer(alloc, Inference::NotLeft(f))
        }
        Shape::Or(a, b) => {
            neg_left(w, alloc, b)?;
            neg_left(w, alloc, a)?;
            w.infer(alloc, Inference::OrRight(a, b))?;
            w.infer(alloc, Inference::NotLeft(f))
        }
        Shape::Imp(a, b) => {
            neg_left(w, alloc, b)?;
            w.infer(alloc, Inference::ImpRight(a, b))?;
            w.infer(alloc, Inference::NotLeft(f))
        }
        _ => Ok(()),
    }
}

/// At a conjunction, or a Not of a Not, of a disjunction or of an implication.
pub fn plain(w: &mut Writer, alloc: Global, f: u64) -> Result<(), Memory>
    requires below { f < count w.old }
    requires some { 1 ≤ length (opens w.old) }
    ensures more { count w.old ≤ count w.new }
    ensures same { (i : ℕ) → i < count w.old → tree_at w.new i ≡ tree_at w.old i }
    ensures ok { OnOk result (opens w.new
        ≡ plain_by (tree_at w.old f) (first_of (opens w.old)) ∷ rest_of (opens w.old)) }
{
    match shape_at(w.bank(), f) {
        Shape::Not(g) => plain_not(w, alloc, g),
        Shape::And(a, b) => w.infer(alloc, Inference::AndLeft(a, b)),
        _ => Ok(()),
    }
}
