//! Rank choice, and what is added where a CHOOSE is taken up.
ghost use Rattle.std.specs.Prelude.{◌≡◌, ◌<◌, ◌∷◌, [], length, IfOk, Some};
ghost use Rattle.core_expr.specs.Nodes.{AreBelow};
ghost use Rattle.core_expr.specs.Tree.{not_, choose_};
ghost use Rattle.core_expr.specs.Put.{IsScoped, inst};
ghost use Rattle.term_bank.specs.Banks.{IsDistinct, Extends, HasTree, tree_at};
ghost use Rattle.search_definition.specs.Plain.{choice};
ghost use Rattle.search_definition.specs.Splits.{taken_up};
ghost use Rattle.formula_rules.specs.Answers.{HasAnswer};

use crate::given::{Given, gives, parts};
use core_expr::Memory;
use search_definition::Rule;
use std::alloc::Global;
use term_bank::Bank;
use term_shapes::{Shape, build, make, shape_at};

/// P of its chosen term.
pub fn witnessed(bank: &mut Bank, alloc: Global, p: u64) -> Result<u64, Memory>
    requires within { p < length bank.old }
    requires body { IsScoped 1 (tree_at bank.old p) }
    ensures extends { Extends bank.old bank.new }
    ensures distinct { IsDistinct bank.new }
    ensures ok { IfOk result (λ k. HasTree bank.new k
        (inst (tree_at bank.old p) (choose_ (tree_at bank.old p)))) }
{
    let term = make(bank, alloc, Shape::Choose(p))?;
    bank.inst(alloc, p, term)
}

/// P of the chosen counterexample.
fn countered(bank: &mut Bank, alloc: Global, p: u64) -> Result<u64, Memory>
    requires within { p < length bank.old }
    requires body { IsScoped 1 (tree_at bank.old p) }
    ensures extends { Extends bank.old bank.new }
    ensures distinct { IsDistinct bank.new }
    ensures ok { IfOk result (λ k. HasTree bank.new k
        (inst (tree_at bank.old p) (choose_ (not_ (tree_at bank.old p))))) }
{
    let term = build(bank, alloc, &[p], &[Shape::Not(0), Shape::Choose(1)])?;
    bank.inst(alloc, p, term)
}

/// What the Not f of a gives by a choice.
fn denied_choice(bank: &mut Bank, alloc: Global, f: u64, a: u64) -> Result<Option<Given>, Memory>
    requires below { AreBelow (length bank.old) (f ∷ a ∷ []) }
    requires is_not { tree_at bank.old f ≡ not_ (tree_at bank.old a) }
    requires closed { IsScoped 0 (tree_at bank.old a) }
    ensures extends { Extends bank.old bank.new }
    ensures distinct { IsDistinct bank.new }
    ensures ok { IfOk result (λ o. HasAnswer bank.new o (choice (tree_at bank.old f))) }
{
    let _count = bank.count();
    match shape_at(bank, a) {
        Shape::All(p) => {
            let (rule, instance) = (Rule::Counterexample, countered(bank, alloc, p)?);
            Ok(Some(gives(bank, alloc, rule, f, &[instance], &[Shape::Not(0)], &[1])?))
        }
        _ => Ok(None),
    }
}

/// Rank choice: `\E x : P` gives P of its chosen term, and `~\A x : P` gives `~P` of the chosen counterexample. None exactly
/// where the rank does not fit.
pub fn choice(bank: &mut Bank, alloc: Global, f: u64) -> Result<Option<Given>, Memory>
    requires within { f < length bank.old }
    requires closed { IsScoped 0 (tree_at bank.old f) }
    ensures extends { Extends bank.old bank.new }
    ensures distinct { IsDistinct bank.new }
    ensures ok { IfOk result (λ o. HasAnswer bank.new o (choice (tree_at bank.old f))) }
{
    let _count = bank.count();
    match shape_at(bank, f) {
        Shape::Ex(p) => {
            let instance = witnessed(bank, alloc, p)?;
            Ok(Some(gives(bank, alloc, Rule::Witness, f, &[instance], &[], &[0])?))
        }
        Shape::Not(a) => denied_choice(bank, alloc, f, a),
        _ => Ok(None),
    }
}

/// What a literal f with the closed `CHOOSE x : P` gives where that is taken up: `\E x : P` with P of the chosen term, or
/// `~\E x : P`.
pub fn taken_up(bank: &mut Bank, alloc: Global, f: u64, p: u64) -> Result<Given, Memory>
    requires below { AreBelow (length bank.old) (f ∷ p ∷ []) }
    requires body { IsScoped 1 (tree_at bank.old p) }
    ensures extends { Extends bank.old bank.new }
    ensures distinct { IsDistinct bank.new }
    ensures ok { IfOk result (λ g. HasAnswer bank.new (Some g)
        (taken_up (tree_at bank.old f) (tree_at bank.old p))) }
{
    let instance = witnessed(bank, alloc, p)?;
    let forms = &[Shape::Ex(0), Shape::Not(2)];
    parts(
        bank,
        alloc,
        Rule::TakenUp,
        &[f],
        &[p],
        &[p, instance],
        forms,
        &[2, 1],
        &[3],
    )
}
