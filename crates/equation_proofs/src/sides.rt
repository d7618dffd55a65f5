//! Rules over the proofs of their sides.
ghost use Rattle.std.specs.Prelude.{◌≡◌, ◌<◌, ◌≤◌, [], ◌∷◌, ℕ, length, OnOk};
ghost use Rattle.core_expr.specs.Nodes.{AreBelow, picked};
ghost use Rattle.seq_calculus.specs.Calculus.{IsClosed};
ghost use Rattle.seq_calculus.specs.Calculus.Rule.{TrueR};
ghost use Rattle.search_definition.specs.Rules.Sides.{Alone, Both};
ghost use Rattle.search_trace.specs.Traces.{AddedUnder, added_trees};
ghost use Rattle.proof_writer.specs.Written.{opens, count, tree_at};
ghost use Rattle.proof_writer.specs.Shapes.{leaf, first_of, second_of, rest_of};
ghost use Rattle.proof_trees.specs.Simple.{split_by};
ghost use Rattle.proof_trees.specs.Cuts.{take_up_by, term_split_by};
ghost use Rattle.proof_trees.specs.By.{head_of, rule_by};
ghost use Rattle.proof_trees.specs.Told.{IsOne, told_by};
ghost use Rattle.equation_proofs.specs.Firsts.{OneClosed};

use crate::firsts::first;
use crate::kinds::{Kind, kind_of};
use crate::settle::{false_left, false_right};
use crate::term_split::{split_both, split_settled};
use crate::told::{
    denied_rule, instance_rule, left_rule, members_rule, other_rule, replaced_rule, rewritten_rule,
    same_rule,
};
use core_expr::Memory;
use proof_writer::{Inference, Writer};
use rule_proofs::{choice, function_set, function_values, plain, split, take_up};
use search_definition::Rule;
use search_trace::Added;
use std::alloc::Global;

/// The second of the latest open proofs is TRUE on the right.
fn fill(w: &mut Writer, alloc: Global) -> Result<(), Memory>
    requires some { 1 ≤ length (opens w.old) }
    ensures trees { w.new.trees ≡ w.old.trees }
    ensures ok { OnOk result (opens w.new
        ≡ first_of (opens w.old) ∷ leaf TrueR ∷ rest_of (opens w.old)) }
{
    w.infer(alloc, Inference::TrueRight)?;
    w.swap()
}

/// A split over the proof of its first side alone.
fn split_one(w: &mut Writer, alloc: Global, f: u64) -> Result<(), Memory>
    requires formula { f < count w.old }
    requires some { 1 ≤ length (opens w.old) }
    ensures more { count w.old ≤ count w.new }
    ensures same { (i : ℕ) → i < count w.old → tree_at w.new i ≡ tree_at w.old i }
    ensures ok { OnOk result (opens w.new
        ≡ split_by (tree_at w.old f) (first_of (opens w.old)) (leaf TrueR)
        ∷ rest_of (opens w.old)) }
{
    fill(w, alloc)?;
    split(w, alloc, f)
}

/// A CHOOSE is taken up over the proof of the first side alone.
#[tactic(auto, using(crate::proofs::ToldLaws::one_at, crate::proofs::ToldLaws::one_below))]
fn take_up_one(w: &mut Writer, alloc: Global, terms: &[u64]) -> Result<(), Memory>
    requires terms { AreBelow (count w.old) terms.now }
    requires told { IsOne (picked w.old.trees terms.now) }
    requires some { 1 ≤ length (opens w.old) }
    ensures more { count w.old ≤ count w.new }
    ensures same { (i : ℕ) → i < count w.old → tree_at w.new i ≡ tree_at w.old i }
    ensures ok { OnOk result (opens w.new ≡ take_up_by (head_of (picked w.old.trees terms.now))
        (first_of (opens w.old)) (leaf TrueR) ∷ rest_of (opens w.old)) }
{
    fill(w, alloc)?;
    take_up(w, alloc, first(terms))
}

/// A CHOOSE is taken up over the proofs of both sides.
#[tactic(auto, using(crate::proofs::ToldLaws::one_at, crate::proofs::ToldLaws::one_below))]
fn take_up_both(w: &mut Writer, alloc: Global, terms: &[u64]) -> Result<(), Memory>
    requires terms { AreBelow (count w.old) terms.now }
    requires told { IsOne (picked w.old.trees terms.now) }
    requires some { 2 ≤ length (opens w.old) }
    ensures more { count w.old ≤ count w.new }
    ensures same { (i : ℕ) → i < count w.old → tree_at w.new i ≡ tree_at w.old i }
    ensures ok { OnOk result (opens w.new ≡ take_up_by (head_of (picked w.old.trees terms.now))
        (first_of (opens w.old)) (second_of (opens w.old)) ∷ rest_of (rest_of (opens w.old))) }
{
    take_up(w, alloc, first(terms))
}

/// A term split that the grounds settle.
#[tactic(auto, using(crate::proofs::ToldLaws::closed_at, crate::proofs::ToldLaws::closed_below, crate::proofs::ToldLaws::closed_closed))]
fn term_split_one(
    w: &mut Writer,
    alloc: Global,
    f: u64,
    others: &[u64],
    terms: &[u64],
) -> Result<(), Memory>
    requires formula { f < count w.old }
    requires others { AreBelow (count w.old) others.now }
    requires terms { AreBelow (count w.old) terms.now }
    requires told { OneClosed (picked w.old.trees terms.now) }
    requires some { 1 ≤ length (opens w.old) }
    ensures more { count w.old ≤ count w.new }
    ensures same { (i : ℕ) → i < count w.old → tree_at w.new i ≡ tree_at w.old i }
    ensures ok { OnOk result (opens w.new ≡ term_split_by (head_of (picked w.old.trees terms.now))
        (tree_at w.old f) (picked w.old.trees others.now) (first_of (opens w.old) ∷ [])
        ∷ rest_of (opens w.old)) }
{
    split_settled(w, alloc, others, first(terms), f)
}

/// A term split over the proofs of both sides.
#[tactic(auto, using(crate::proofs::ToldLaws::closed_at, crate::proofs::ToldLaws::closed_below, crate::proofs::ToldLaws::closed_closed))]
fn term_split_both(
    w: &mut Writer,
    alloc: Global,
    f: u64,
    others: &[u64],
    terms: &[u64],
) -> Result<(), Memory>
    requires formula { f < count w.old }
    requires terms { AreBelow (count w.old) terms.now }
    requires told { OneClosed (picked w.old.trees terms.now) }
    requires some { 2 ≤ length (opens w.old) }
    ensures more { count w.old ≤ count w.new }
    ensures same { (i : ℕ) → i < count w.old → tree_at w.new i ≡ tree_at w.old i }
    ensures ok { OnOk result (opens w.new ≡ term_split_by (head_of (picked w.old.trees terms.now))
        (tree_at w.old f) (picked w.old.trees others.now)
        (first_of (opens w.old) ∷ second_of (opens w.old) ∷ []) ∷ rest_of (rest_of (opens w.old))) }
{
    split_both(w, alloc, first(terms), f)
}

/// A rule at the formula `f` over the proof of its one side, with the other formulas that it names, its terms and what it adds.
pub fn one_side(
    w: &mut Writer,
    alloc: Global,
    rule: Rule,
    f: u64,
    others: &[u64],
    terms: &[u64],
    added: &[Added],
) -> Result<(), Memory>
    requires formula { f < count w.old }
    requires others { AreBelow (count w.old) others.now }
    requires terms { AreBelow (count w.old) terms.now }
    requires added { AddedUnder (count w.old) added.now }
    requires closed { IsClosed (tree_at w.old f) }
    requires told { told_by rule (tree_at w.old f) (picked w.old.trees others.now)
        (picked w.old.trees terms.now) (Alone (added_trees w.old.trees added.now)) }
    requires some { 1 ≤ length (opens w.old) }
    ensures more { count w.old ≤ count w.new }
    ensures same { (i : ℕ) → i < count w.old → tree_at w.new i ≡ tree_at w.old i }
    ensures ok { OnOk result (opens w.new ≡ rule_by rule (tree_at w.old f)
        (picked w.old.trees others.now) (picked w.old.trees terms.now)
        (first_of (opens w.old) ∷ []) ∷ rest_of (opens w.old)) }
{
    match rule {
        Rule::DoubleNot | Rule::Conjunction | Rule::DeniedDisjunction | Rule::DeniedImplication =>
            plain(w, alloc, f),
        Rule::FunctionSet => function_set(w, alloc, f),
        Rule::LeftSide(_) => left_rule(w, alloc, f, added),
        Rule::DeniedLeftSide(_) => denied_rule(w, alloc, f, added),
        Rule::Rewritten(_) => rewritten_rule(w, alloc, f, terms),
        Rule::SameMembers => same_rule(w, alloc, f, added),
        Rule::FunctionValues => function_values(w, alloc, f),
        Rule::OtherFunction => other_rule(w, alloc, f, others, terms),
        Rule::Replaced => replaced_rule(w, alloc, f, others, terms),
        Rule::TrueSide => Ok(()),
        Rule::FalseLeft => false_left(w, alloc, others, f),
        Rule::FalseRight => false_right(w, alloc, others, f),
        Rule::Witness | Rule::Counterexample => choice(w, alloc, f),
        Rule::Disjunction
        | Rule::DeniedConjunction
        | Rule::Implication
        | Rule::Equivalence
        | Rule::DeniedEquivalence => split_one(w, alloc, f),
        Rule::Conditional | Rule::Application => { term_split_one(w, alloc, f, others, terms) }
        Rule::Members => members_rule(w, alloc, f, added),
        Rule::Instance | Rule::Spare => instance_rule(w, alloc, f, terms),
        Rule::TakenUp => take_up_one(w, alloc, terms),
    }
}

/// A rule at the formula `f` over the proofs of two sides, the second of which plays no part where the rule has one.
#[tactic(auto, using(crate::proofs::KindLaws::single_by, crate::proofs::KindLaws::single_told, crate::proofs::KindLaws::split_is, crate::proofs::KindLaws::term_split_is, crate::proofs::KindLaws::term_split_told, crate::proofs::KindLaws::take_up_is, crate::proofs::KindLaws::take_up_told))]
pub fn two_sides(
    w: &mut Writer,
    alloc: Global,
    rule: Rule,
    f: u64,
    others: &[u64],
    terms: &[u64],
    first: &[Added],
    second: &[Added],
) -> Result<(), Memory>
    requires formula { f < count w.old }
    requires others { AreBelow (count w.old) others.now }
    requires terms { AreBelow (count w.old) terms.now }
    requires closed { IsClosed (tree_at w.old f) }
    requires told { told_by rule (tree_at w.old f) (picked w.old.trees others.now)
        (picked w.old.trees terms.now)
        (Both (added_trees w.old.trees first.now) (added_trees w.old.trees second.now)) }
    requires some { 2 ≤ length (opens w.old) }
    ensures more { count w.old ≤ count w.new }
    ensures same { (i : ℕ) → i < count w.old → tree_at w.new i ≡ tree_at w.old i }
    ensures ok { OnOk result (opens w.new ≡ rule_by rule (tree_at w.old f)
        (picked w.old.trees others.now) (picked w.old.trees terms.now)
        (first_of (opens w.old) ∷ second_of (opens w.old) ∷ [])
        ∷ rest_of (rest_of (opens w.old))) }
{
    match kind_of(rule) {
        Kind::Split => split(w, alloc, f),
        Kind::TermSplit => term_split_both(w, alloc, f, others, terms),
        Kind::TakeUp => take_up_both(w, alloc, terms),
        Kind::Single => {
            w.discard_below()?;
            one_side(w, alloc, rule, f, others, terms, &[])
        }
    }
}
