//! Rules by the lists of what is named and added, as is told of them.
ghost use Rattle.std.specs.Prelude.{◌≡◌, ◌<◌, ◌≤◌, [], ◌∷◌, ℕ, length, OnOk};
ghost use Rattle.core_expr.specs.Nodes.{AreBelow, picked};
ghost use Rattle.seq_calculus.specs.Calculus.{IsClosed};
ghost use Rattle.search_definition.specs.Plain.{rewrite_of};
ghost use Rattle.search_trace.specs.Traces.{AddedUnder, added_trees};
ghost use Rattle.proof_writer.specs.Written.{opens, count, tree_at};
ghost use Rattle.proof_writer.specs.Shapes.{first_of, rest_of};
ghost use Rattle.proof_trees.specs.Simple.{left_side_by, denied_side_by, instance_by};
ghost use Rattle.proof_trees.specs.Equated.{same_members_by, extension_by, other_function_by};
ghost use Rattle.proof_trees.specs.Abstracted.{replace_by};
ghost use Rattle.proof_trees.specs.By.{head_of, tail_of, rewritten_by};
ghost use Rattle.proof_trees.specs.Told.{IsOne, IsTwo};
ghost use Rattle.equation_proofs.specs.Firsts.{LeftTold, DeniedTold, SameTold, MembersTold, RewriteTold, OneClosed};

use crate::firsts::{first, first_added, second};
use crate::replacing::{replace, rewrite};
use core_expr::Memory;
use proof_writer::Writer;
use rule_proofs::{extension, instance, left_over, not_over, other_function, same_members};
use search_trace::Added;
use std::alloc::Global;
use term_shapes::{Shape, shape_at};

/// The left side of a schema, whose right side is added.
#[tactic(auto, using(crate::proofs::ToldLaws::left_below, crate::proofs::ToldLaws::left_right))]
pub fn left_rule(w: &mut Writer, alloc: Global, f: u64, added: &[Added]) -> Result<(), Memory>
    requires formula { f < count w.old }
    requires added { AddedUnder (count w.old) added.now }
    requires told { LeftTold (tree_at w.old f) (added_trees w.old.trees added.now) }
    requires some { 1 ≤ length (opens w.old) }
    ensures more { count w.old ≤ count w.new }
    ensures same { (i : ℕ) → i < count w.old → tree_at w.new i ≡ tree_at w.old i }
    ensures ok { OnOk result (opens w.new
        ≡ left_side_by (tree_at w.old f) (first_of (opens w.old)) ∷ rest_of (opens w.old)) }
{
    left_over(w, alloc, f, first_added(added))
}

/// The Not of a left side, where the Not of the right side is added.
#[tactic(auto, using(crate::proofs::ToldLaws::denied_below, crate::proofs::ToldLaws::denied_right))]
pub fn denied_rule(w: &mut Writer, alloc: Global, f: u64, added: &[Added]) -> Result<(), Memory>
    requires formula { f < count w.old }
    requires added { AddedUnder (count w.old) added.now }
    requires told { DeniedTold (tree_at w.old f) (added_trees w.old.trees added.now) }
    requires some { 1 ≤ length (opens w.old) }
    ensures more { count w.old ≤ count w.new }
    ensures same { (i : ℕ) → i < count w.old → tree_at w.new i ≡ tree_at w.old i }
    ensures ok { OnOk result (opens w.new
        ≡ denied_side_by (tree_at w.old f) (first_of (opens w.old)) ∷ rest_of (opens w.old)) }
{
    let right = first_added(added);
    if let Shape::Not(a) = shape_at(w.bank(), f) {
        if let Shape::Not(r) = shape_at(w.bank(), right) {
            return not_over(w, alloc, a, r);
        }
    }
    Ok(())
}

/// An equation of sets.
#[tactic(auto, using(crate::proofs::ToldLaws::same_below, crate::proofs::ToldLaws::same_adds))]
pub fn same_rule(w: &mut Writer, alloc: Global, f: u64, added: &[Added]) -> Result<(), Memory>
    requires formula { f < count w.old }
    requires added { AddedUnder (count w.old) added.now }
    requires closed { IsClosed (tree_at w.old f) }
    requires told { SameTold (tree_at w.old f) (added_trees w.old.trees added.now) }
    requires some { 1 ≤ length (opens w.old) }
    ensures more { count w.old ≤ count w.new }
    ensures same { (i : ℕ) → i < count w.old → tree_at w.new i ≡ tree_at w.old i }
    ensures ok { OnOk result (opens w.new
        ≡ same_members_by (tree_at w.old f) (first_of (opens w.old)) ∷ rest_of (opens w.old)) }
{
    same_members(w, alloc, f, first_added(added))
}

/// The Not of an equation of sets.
#[tactic(auto, using(crate::proofs::ToldLaws::members_below, crate::proofs::ToldLaws::members_denies))]
pub fn members_rule(w: &mut Writer, alloc: Global, f: u64, added: &[Added]) -> Result<(), Memory>
    requires formula { f < count w.old }
    requires added { AddedUnder (count w.old) added.now }
    requires closed { IsClosed (tree_at w.old f) }
    requires told { MembersTold (tree_at w.old f) (added_trees w.old.trees added.now) }
    requires some { 1 ≤ length (opens w.old) }
    ensures more { count w.old ≤ count w.new }
    ensures same { (i : ℕ) → i < count w.old → tree_at w.new i ≡ tree_at w.old i }
    ensures ok { OnOk result (opens w.new
        ≡ extension_by (tree_at w.old f) (first_of (opens w.old)) ∷ rest_of (opens w.old)) }
{
    extension(w, alloc, f, first_added(added))
}

/// A function is not another, by the equation that is named and the function that is told.
#[tactic(auto, using(crate::proofs::ToldLaws::one_at, crate::proofs::ToldLaws::one_below))]
pub fn other_rule(
    w: &mut Writer,
    alloc: Global,
    f: u64,
    others: &[u64],
    terms: &[u64],
) -> Result<(), Memory>
    requires formula { f < count w.old }
    requires others { AreBelow (count w.old) others.now }
    requires terms { AreBelow (count w.old) terms.now }
    requires one { IsOne (picked w.old.trees others.now) }
    requires told { IsOne (picked w.old.trees terms.now) }
    requires some { 1 ≤ length (opens w.old) }
    ensures more { count w.old ≤ count w.new }
    ensures same { (i : ℕ) → i < count w.old → tree_at w.new i ≡ tree_at w.old i }
    ensures ok { OnOk result (opens w.new ≡ other_function_by (tree_at w.old f)
        (head_of (picked w.old.trees others.now)) (head_of (picked w.old.trees terms.now))
        (first_of (opens w.old)) ∷ rest_of (opens w.old)) }
{
    other_function(w, alloc, f, first(others), first(terms))
}

/// An instance by the term that is told.
#[tactic(auto, using(crate::proofs::ToldLaws::closed_at, crate::proofs::ToldLaws::closed_below, crate::proofs::ToldLaws::closed_closed))]
pub fn instance_rule(w: &mut Writer, alloc: Global, f: u64, terms: &[u64]) -> Result<(), Memory>
    requires formula { f < count w.old }
    requires closed { IsClosed (tree_at w.old f) }
    requires terms { AreBelow (count w.old) terms.now }
    requires told { OneClosed (picked w.old.trees terms.now) }
    requires some { 1 ≤ length (opens w.old) }
    ensures more { count w.old ≤ count w.new }
    ensures same { (i : ℕ) → i < count w.old → tree_at w.new i ≡ tree_at w.old i }
    ensures ok { OnOk result (opens w.new ≡ instance_by (head_of (picked w.old.trees terms.now))
        (tree_at w.old f) (first_of (opens w.old)) ∷ rest_of (opens w.old)) }
{
    instance(w, alloc, f, first(terms))
}

/// A replacement by the equation that is named and the two terms that are told.
#[tactic(auto, using(crate::proofs::ToldLaws::one_at, crate::proofs::ToldLaws::one_below, crate::proofs::ToldLaws::two_at, crate::proofs::ToldLaws::two_below))]
pub fn replaced_rule(
    w: &mut Writer,
    alloc: Global,
    f: u64,
    others: &[u64],
    terms: &[u64],
) -> Result<(), Memory>
    requires formula { f < count w.old }
    requires others { AreBelow (count w.old) others.now }
    requires terms { AreBelow (count w.old) terms.now }
    requires one { IsOne (picked w.old.trees others.now) }
    requires told { IsTwo (picked w.old.trees terms.now) }
    requires some { 1 ≤ length (opens w.old) }
    ensures more { count w.old ≤ count w.new }
    ensures same { (i : ℕ) → i < count w.old → tree_at w.new i ≡ tree_at w.old i }
    ensures ok { OnOk result (opens w.new ≡ replace_by (head_of (picked w.old.trees others.now))
        (head_of (picked w.old.trees terms.now)) (head_of (tail_of (picked w.old.trees terms.now)))
        (tree_at w.old f) (first_of (opens w.old)) ∷ rest_of (opens w.old)) }
{
    replace(w, alloc, first(others), first(terms), second(terms), f)
}

/// A rewriting of the first of the two terms that are told to the second.
#[tactic(auto, using(crate::proofs::ToldLaws::rewrite_at, crate::proofs::ToldLaws::rewrite_below, crate::proofs::ToldLaws::rewrite_sides))]
pub fn rewritten_rule(w: &mut Writer, alloc: Global, f: u64, terms: &[u64]) -> Result<(), Memory>
    requires formula { f < count w.old }
    requires terms { AreBelow (count w.old) terms.now }
    requires told { RewriteTold (picked w.old.trees terms.now) }
    requires some { 1 ≤ length (opens w.old) }
    ensures more { count w.old ≤ count w.new }
    ensures same { (i : ℕ) → i < count w.old → tree_at w.new i ≡ tree_at w.old i }
    ensures ok { OnOk result (opens w.new ≡ rewritten_by
        (rewrite_of (head_of (picked w.old.trees terms.now))) (tree_at w.old f)
        (first_of (opens w.old)) ∷ rest_of (opens w.old)) }
{
    rewrite(w, alloc, f, first(terms), second(terms))
}
