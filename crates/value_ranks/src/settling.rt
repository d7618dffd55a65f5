//! Rank settle.
ghost use Rattle.std.specs.Prelude.{◌<◌, ◌∷◌, [], length, IfOk};
ghost use Rattle.core_expr.specs.Nodes.{AreBelow};
ghost use Rattle.term_bank.specs.Banks.{IsDistinct, Extends, tree_at};
ghost use Rattle.search_definition.specs.Values.{grounds};
ghost use Rattle.search_definition.specs.Rules.{gives};
ghost use Rattle.search_definition.specs.Splits.{settle, settle_split};
ghost use Rattle.branch_state.specs.Parts.{Holds, shown};
ghost use Rattle.tableau_search.specs.Entries.{AreKnown, branch_of};
ghost use Rattle.formula_rules.specs.Answers.{trees_at, HasAnswer, splitting_of};
ghost use Rattle.value_ranks.specs.Sides.{IsSide};

use crate::side::{Side, side_on};
use branch_state::Parts;
use branch_values::grounds_on;
use core_expr::Memory;
use formula_rules::{Given, Parting, Sides, parting_of};
use search_definition::Rule;
use std::alloc::Global;
use term_bank::Bank;

/// A side has true formulas alone: nothing is added.
fn true_side(bank: &Bank, alloc: Global, f: u64) -> Result<Given, Memory>
    requires { f < length bank.now }
    ensures { IfOk result (λ g. HasAnswer bank.now (Some g)
        (gives Rule.TrueSide (tree_at bank.now f ∷ []) [] [])) }
{
    Ok(Given {
        rule: Rule::TrueSide,
        named: Vec::from_slice(alloc, &[f])?,
        terms: Vec::new(alloc),
        added: Sides::Alone(Vec::new(alloc)),
    })
}

/// The formula k of a side is false: the other side is added, on the grounds of k.
fn false_side(
    bank: &mut Bank,
    alloc: Global,
    parts: &Parts,
    rule: Rule,
    f: u64,
    k: u64,
    other: &[u64],
) -> Result<Given, Memory>
    requires within { f < length bank.old }
    requires false_one { k < length bank.old }
    requires below { AreBelow (length bank.old) other.now }
    requires held { Holds parts.now }
    requires known { AreKnown (length bank.old) (shown parts.now).now }
    ensures extends { Extends bank.old bank.new }
    ensures distinct { IsDistinct bank.new }
    ensures ok { IfOk result (λ g. HasAnswer bank.new (Some g) (gives rule
        (tree_at bank.old f
        ∷ grounds (branch_of bank.old (shown parts.now).now) (tree_at bank.old k))
        [] (trees_at bank.old other.now))) }
{
    let grounds = grounds_on(bank, alloc, parts, k)?;
    let mut named = Vec::from_slice(alloc, &[f])?;
    named.extend_from_slice(grounds.as_slice())?;
    Ok(Given {
        rule,
        named,
        terms: Vec::new(alloc),
        added: Sides::Alone(Vec::from_slice(alloc, other)?),
    })
}

/// What the values of the two sides give: None exactly where they settle nothing.
fn settle_sides(
    bank: &mut Bank,
    alloc: Global,
    parts: &Parts,
    f: u64,
    parting: &Parting,
    left: Side,
    right: Side,
) -> Result<Option<Given>, Memory>
    requires within { f < length bank.old }
    requires left_below { AreBelow (length bank.old) parting.now.left.items }
    requires right_below { AreBelow (length bank.old) parting.now.right.items }
    requires left { IsSide bank.old (branch_of bank.old (shown parts.now).now)
        (trees_at bank.old parting.now.left.items) left }
    requires right { IsSide bank.old (branch_of bank.old (shown parts.now).now)
        (trees_at bank.old parting.now.right.items) right }
    requires held { Holds parts.now }
    requires known { AreKnown (length bank.old) (shown parts.now).now }
    ensures extends { Extends bank.old bank.new }
    ensures distinct { IsDistinct bank.new }
    ensures ok { IfOk result (λ o. HasAnswer bank.new o
        (settle_split (branch_of bank.old (shown parts.now).now) (tree_at bank.old f)
        (splitting_of bank.old parting.now))) }
{
    let _count = bank.count();
    if left.all_true || right.all_true {
        return Ok(Some(true_side(bank, alloc, f)?));
    }
    if let Some(k) = left.first_false {
        let (rule, other) = (Rule::FalseLeft, parting.right.as_slice());
        return Ok(Some(false_side(bank, alloc, parts, rule, f, k, other)?));
    }
    if let Some(k) = right.first_false {
        let (rule, other) = (Rule::FalseRight, parting.left.as_slice());
        return Ok(Some(false_side(bank, alloc, parts, rule, f, k, other)?));
    }
    Ok(None)
}

/// What a splitting of the formula gives by the values of its sides: None exactly where they settle nothing.
fn settle_parting(
    bank: &mut Bank,
    alloc: Global,
    parts: &Parts,
    f: u64,
    parting: &Parting,
) -> Result<Option<Given>, Memory>
    requires within { f < length bank.old }
    requires left_below { AreBelow (length bank.old) parting.now.left.items }
    requires right_below { AreBelow (length bank.old) parting.now.right.items }
    requires held { Holds parts.now }
    requires known { AreKnown (length bank.old) (shown parts.now).now }
    ensures extends { Extends bank.old bank.new }
    ensures distinct { IsDistinct bank.new }
    ensures ok { IfOk result (λ o. HasAnswer bank.new o
        (settle_split (branch_of bank.old (shown parts.now).now) (tree_at bank.old f)
        (splitting_of bank.old parting.now))) }
{
    let left = side_on(bank, alloc, parts, parting.left.as_slice())?;
    let right = side_on(bank, alloc, parts, parting.right.as_slice())?;
    let given = settle_sides(bank, alloc, parts, f, parting, left, right)?;
    Ok(given)
}

/// A split formula whose sides have values on the branch is used without splitting: None exactly where it is not.
pub fn settle(
    bank: &mut Bank,
    alloc: Global,
    parts: &Parts,
    f: u64,
) -> Result<Option<Given>, Memory>
    requires within { f < length bank.old }
    requires held { Holds parts.now }
    requires known { AreKnown (length bank.old) (shown parts.now).now }
    ensures extends { Extends bank.old bank.new }
    ensures distinct { IsDistinct bank.new }
    ensures ok { IfOk result (λ o. HasAnswer bank.new o
        (settle (branch_of bank.old (shown parts.now).now) (tree_at bank.old f))) }
{
    match parting_of(bank, alloc, f)? {
        None => Ok(None),
        Some(parting) => {
            let given = settle_parting(bank, alloc, parts, f, &parting)?;
            Ok(given)
        }
    }
}
