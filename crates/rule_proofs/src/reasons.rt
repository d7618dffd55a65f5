//! The proofs of values: a formula that is true by grounds, or the contradiction of one that is false.
ghost use Rattle.std.specs.Prelude.{◌≡◌, ◌<◌, ◌≤◌, [], ◌∷◌, ℕ, length, OnOk};
ghost use Rattle.proof_writer.specs.Written.{opens, count, tree_at};
ghost use Rattle.seq_calculus.specs.Calculus.Rule.{TrueR};
ghost use Rattle.proof_writer.specs.Shapes.{leaf, first_of, second_of, rest_of};
ghost use Rattle.proof_trees.specs.Valued.{itself_by, mirrored_by, false_by, whole_by, not_by, and_by, or_by, imp_by, iff_by};
ghost use Rattle.rule_proofs.specs.Values.{truth_of, whole_of};

use crate::closing::{apart, mirror_clash, truths};
use crate::shapes::{clash, mirror};
use crate::value::{Reason, Value, are_apart};
use core_expr::Memory;
use proof_writer::{Inference, Writer};
use std::alloc::Global;
use term_shapes::{Shape, shape_at};

/// TRUE or t = t.
fn show_itself(w: &mut Writer, alloc: Global, f: u64) -> Result<(), Memory>
    requires { f < count w.old }
    ensures trees { w.new.trees ≡ w.old.trees }
    ensures ok { OnOk result (opens w.new ≡ itself_by (tree_at w.old f) ∷ opens w.old) }
{
    match shape_at(w.bank(), f) {
        Shape::Eq(s, _) => w.infer(alloc, Inference::Reflexive(s)),
        _ => w.infer(alloc, Inference::TrueRight),
    }
}

/// s = t, where t = s stands.
fn show_mirrored(w: &mut Writer, alloc: Global, f: u64) -> Result<(), Memory>
    requires { f < count w.old }
    ensures more { count w.old ≤ count w.new }
    ensures same { (i : ℕ) → i < count w.old → tree_at w.new i ≡ tree_at w.old i }
    ensures ok { OnOk result (opens w.new ≡ mirrored_by (tree_at w.old f) ∷ opens w.old) }
{
    match shape_at(w.bank(), f) {
        Shape::Eq(s, t) => {
            w.infer(alloc, Inference::Axiom(f))?;
            mirror(w, alloc, t, s)
        }
        _ => w.infer(alloc, Inference::TrueRight),
    }
}

/// FALSE, an equation of different literals, or one of TRUE and FALSE.
fn show_false(w: &mut Writer, alloc: Global, f: u64) -> Result<(), Memory>
    requires { f < count w.old }
    ensures more { count w.old ≤ count w.new }
    ensures same { (i : ℕ) → i < count w.old → tree_at w.new i ≡ tree_at w.old i }
    ensures ok { OnOk result (opens w.new ≡ false_by (tree_at w.old f) ∷ opens w.old) }
{
    match shape_at(w.bank(), f) {
        Shape::Eq(s, t) => {
            if are_apart(w.bank(), s, t) {
                return apart(w, alloc, f);
            }
            truths(w, alloc, f)
        }
        _ => w.infer(alloc, Inference::FalseLeft),
    }
}

/// The proof by the reason for a formula's value as a whole; where there is none, TRUE on the right.
pub fn show_whole(w: &mut Writer, alloc: Global, reason: Reason, f: u64) -> Result<(), Memory>
    requires { f < count w.old }
    ensures more { count w.old ≤ count w.new }
    ensures same { (i : ℕ) → i < count w.old → tree_at w.new i ≡ tree_at w.old i }
    ensures ok { OnOk result (opens w.new
        ≡ whole_by (whole_of reason) (tree_at w.old f) (leaf TrueR) ∷ opens w.old) }
{
    match reason {
        Reason::Stands => w.infer(alloc, Inference::Axiom(f)),
        Reason::ByItself => show_itself(w, alloc, f),
        Reason::Mirrored => show_mirrored(w, alloc, f),
        Reason::NotStands => clash(w, alloc, f),
        Reason::FalseItself => show_false(w, alloc, f),
        Reason::NotMirrored => mirror_clash(w, alloc, f),
        Reason::Undecided => w.infer(alloc, Inference::TrueRight),
    }
}

/// The value of ~A, over the proof of that of A.
pub fn join_not(w: &mut Writer, alloc: Global, x: Value, a: u64) -> Result<(), Memory>
    requires below { a < count w.old }
    requires some { 1 ≤ length (opens w.old) }
    ensures trees { w.new.trees ≡ w.old.trees }
    ensures ok { OnOk result (opens w.new
        ≡ not_by (truth_of x) (tree_at w.old a) (first_of (opens w.old)) ∷ rest_of (opens w.old)) }
{
    match x {
        Value::Yes => w.infer(alloc, Inference::NotLeft(a)),
        Value::No => w.infer(alloc, Inference::NotRight(a)),
        Value::Unknown => Ok(()),
    }
}

/// The value of A /\ B, over the proofs of those of B and, below it, of A.
pub fn join_and(
    w: &mut Writer,
    alloc: Global,
    x: Value,
    y: Value,
    a: u64,
    b: u64,
) -> Result<(), Memory>
    requires first { a < count w.old }
    requires second { b < count w.old }
    requires some { 2 ≤ length (opens w.old) }
    ensures trees { w.new.trees ≡ w.old.trees }
    ensures ok { OnOk result (opens w.new
        ≡ and_by (truth_of x) (truth_of y) (tree_at w.old a) (tree_at w.old b)
        (second_of (opens w.old)) (first_of (opens w.old)) ∷ rest_of (rest_of (opens w.old))) }
{
    match (x, y) {
        (Value::No, _) => {
            w.discard();
            w.infer(alloc, Inference::AndLeft(a, b))
        }
        (Value::Yes, Value::Yes) => {
            w.swap()?;
            w.infer(alloc, Inference::AndRight(a, b))
        }
        _ => {
            w.discard_below()?;
            w.infer(alloc, Inference::AndLeft(a, b))
        }
    }
}

/// The value of A \/ B likewise.
pub fn join_or(
    w: &mut Writer,
    alloc: Global,
    x: Value,
    y: Value,
    a: u64,
    b: u64,
) -> Result<(), Memory>
    requires first { a < count w.old }
    requires second { b < count w.old }
    requires some { 2 ≤ length (opens w.old) }
    ensures trees { w.new.trees ≡ w.old.trees }
    ensures ok { OnOk result (opens w.new
        ≡ or_by (truth_of x) (truth_of y) (tree_at w.old a) (tree_at w.old b)
        (second_of (opens w.old)) (first_of (opens w.old)) ∷ rest_of (rest_of (opens w.old))) }
{
    match (x, y) {
        (Value::Yes, _) => {
            w.discard();
            w.infer(alloc, Inference::OrRight(a, b))
        }
        (Value::No, Value::No) => {
            w.swap()?;
            w.infer(alloc, Inference::OrLeft(a, b))
        }
        _ => {
            w.discard_below()?;
            w.infer(alloc, Inference::OrRight(a, b))
        }
    }
}

/// The value of A => B likewise.
pub fn join_imp(
    w: &mut Writer,
    alloc: Global,
    x: Value,
    y: Value,
    a: u64,
    b: u64,
) -> Result<(), Memory>
    requires first { a < count w.old }
    requires second { b < count w.old }
    requires some { 2 ≤ length (opens w.old) }
    ensures trees { w.new.trees ≡ w.old.trees }
    ensures ok { OnOk result (opens w.new
        ≡ imp_by (truth_of x) (truth_of y) (tree_at w.old a) (tree_at w.old b)
        (second_of (opens w.old)) (first_of (opens w.old)) ∷ rest_of (rest_of (opens w.old))) }
{
    match (x, y) {
        (Value::No, _) => {
            w.discard();
            w.infer(alloc, Inference::ImpRight(a, b))
        }
        (Value::Yes, Value::No) => {
            w.swap()?;
            w.infer(alloc, Inference::ImpLeft(a, b))
        }
        _ => {
            w.discard_below()?;
            w.infer(alloc, Inference::ImpRight(a, b))
        }
    }
}

/// The value of A <=> B likewise.
pub fn join_iff(
    w: &mut Writer,
    alloc: Global,
    x: Value,
    y: Value,
    a: u64,
    b: u64,
) -> Result<(), Memory>
    requires first { a < count w.old }
    requires second { b < count w.old }
    requires some { 2 ≤ length (opens w.old) }
    ensures trees { w.new.trees ≡ w.old.trees }
    ensures ok { OnOk result (opens w.new
        ≡ iff_by (truth_of x) (truth_of y) (tree_at w.old a) (tree_at w.old b)
        (second_of (opens w.old)) (first_of (opens w.old)) ∷ rest_of (rest_of (opens w.old))) }
{
    match (x, y) {
        (Value::Yes, Value::Yes) => w.infer(alloc, Inference::IffRight(a, b)),
        (Value::No, Value::No) => {
            w.swap()?;
            w.infer(alloc, Inference::IffRight(a, b))
        }
        (Value::Yes, _) => w.infer(alloc, Inference::IffLeft(a, b)),
        _ => {
            w.swap()?;
            w.infer(alloc, Inference::IffLeft(a, b))
        }
    }
}
