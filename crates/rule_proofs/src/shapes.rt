//! The shapes that most rules use, over the latest open proof.
ghost use Rattle.std.specs.Prelude.{◌≡◌, ◌<◌, ◌≤◌, [], ◌∷◌, ℕ, length, OnOk};
ghost use Rattle.proof_writer.specs.Written.{opens, count, tree_at};
ghost use Rattle.proof_writer.specs.Shapes.{neg_left, clash, mirror, first_of, second_of, rest_of};

use core_expr::Memory;
use proof_writer::{Inference, Writer};
use std::alloc::Global;
use term_shapes::Shape;

/// From a proof with ~a on the left, one with a on the right.
pub fn neg_left(w: &mut Writer, alloc: Global, a: u64) -> Result<(), Memory>
    requires below { a < count w.old }
    requires some { 1 ≤ length (opens w.old) }
    ensures more { count w.old ≤ count w.new }
    ensures same { (i : ℕ) → i < count w.old → tree_at w.new i ≡ tree_at w.old i }
    ensures ok { OnOk result (opens w.new
        ≡ neg_left (tree_at w.old a) (first_of (opens w.old)) ∷ rest_of (opens w.old)) }
{
    let not = w.make(alloc, Shape::Not(a))?;
    w.infer(alloc, Inference::Axiom(a))?;
    w.infer(alloc, Inference::NotRight(a))?;
    w.infer(alloc, Inference::Cut(not))
}

/// From a proof below the latest with ~a on the left, one with a on the right.
pub fn neg_left_below(w: &mut Writer, alloc: Global, a: u64) -> Result<(), Memory>
    requires below { a < count w.old }
    requires some { 2 ≤ length (opens w.old) }
    ensures more { count w.old ≤ count w.new }
    ensures same { (i : ℕ) → i < count w.old → tree_at w.new i ≡ tree_at w.old i }
    ensures ok { OnOk result (opens w.new ≡ first_of (opens w.old)
        ∷ neg_left (tree_at w.old a) (second_of (opens w.old)) ∷ rest_of (rest_of (opens w.old))) }
{
    w.swap()?;
    neg_left(w, alloc, a)?;
    w.swap()
}

/// a and ~a are on the left.
pub fn clash(w: &mut Writer, alloc: Global, a: u64) -> Result<(), Memory>
    requires { a < count w.old }
    ensures trees { w.new.trees ≡ w.old.trees }
    ensures ok { OnOk result (opens w.new ≡ clash (tree_at w.old a) ∷ opens w.old) }
{
    w.infer(alloc, Inference::Axiom(a))?;
    w.infer(alloc, Inference::NotLeft(a))
}

/// From a proof with t = s on the left, one with s = t.
pub fn mirror(w: &mut Writer, alloc: Global, s: u64, t: u64) -> Result<(), Memory>
    requires first { s < count w.old }
    requires second { t < count w.old }
    requires some { 1 ≤ length (opens w.old) }
    ensures more { count w.old ≤ count w.new }
    ensures same { (i : ℕ) → i < count w.old → tree_at w.new i ≡ tree_at w.old i }
    ensures ok { OnOk result (opens w.new ≡ mirror (tree_at w.old s) (tree_at w.old t)
        (first_of (opens w.old)) ∷ rest_of (opens w.old)) }
{
    let variable = w.make(alloc, Shape::Bound(0))?;
    let pattern = w.make(alloc, Shape::Eq(variable, s))?;
    let itself = w.make(alloc, Shape::Eq(s, s))?;
    w.infer(alloc, Inference::Replacement(pattern, s, t))?;
    w.infer(alloc, Inference::Reflexive(s))?;
    w.infer(alloc, Inference::Cut(itself))
}
