//! Rank term split.
ghost use Rattle.std.specs.Prelude.{◌<◌, ◌∷◌, [], length, IfOk, Some};
ghost use Rattle.core_expr.specs.Nodes.{AreBelow};
ghost use Rattle.core_expr.specs.Put.{IsScoped};
ghost use Rattle.term_bank.specs.Banks.{IsDistinct, Extends, tree_at};
ghost use Rattle.search_definition.specs.Splits.{split_by, split_at, term_split};
ghost use Rattle.branch_state.specs.Parts.{Holds, shown};
ghost use Rattle.tableau_search.specs.Entries.{AreKnown, branch_of};
ghost use Rattle.formula_rules.specs.Answers.{HasAnswer, HasStep, alone_step, both_step, trees_at};
ghost use Rattle.branch_values.specs.Judging.{truth_of};
ghost use Rattle.literal_ranks.specs.Dividing.{IsWithin, dividing_of, divided};

use crate::division::{Division, division_of};
use crate::sought::{Sought, first_sought};
use branch_state::Parts;
use branch_values::{Value, grounds_on, value_on};
use core_expr::Memory;
use formula_rules::{Given, Sides, is_literal};
use search_definition::Rule;
use std::alloc::Global;
use term_bank::Bank;

/// f gives one side for u alone, on these grounds.
fn one_side(
    bank: &Bank,
    alloc: Global,
    rule: Rule,
    f: u64,
    grounds: &[u64],
    u: u64,
    side: &[u64],
) -> Result<Given, Memory>
    requires below { AreBelow (length bank.now) (f ∷ u ∷ []) }
    requires grounds { AreBelow (length bank.now) grounds.now }
    requires side { AreBelow (length bank.now) side.now }
    ensures { IfOk result (λ g. HasStep bank.now g (alone_step rule
        (tree_at bank.now f ∷ trees_at bank.now grounds.now) (tree_at bank.now u ∷ [])
        (trees_at bank.now side.now))) }
{
    let mut named = Vec::from_slice(alloc, &[f])?;
    named.extend_from_slice(grounds)?;
    Ok(Given {
        rule,
        named,
        terms: Vec::from_slice(alloc, &[u])?,
        added: Sides::Alone(Vec::from_slice(alloc, side)?),
    })
}

/// f gives both sides for u.
fn both_sides(
    bank: &Bank,
    alloc: Global,
    f: u64,
    u: u64,
    division: &Division,
) -> Result<Given, Memory>
    requires below { AreBelow (length bank.now) (f ∷ u ∷ []) }
    requires division { IsWithin bank.now division.now }
    ensures { IfOk result (λ g. HasStep bank.now g (both_step division.now.rule
        (tree_at bank.now f ∷ []) (tree_at bank.now u ∷ [])
        (trees_at bank.now division.now.left.items)
        (trees_at bank.now division.now.right.items))) }
{
    Ok(Given {
        rule: division.rule,
        named: Vec::from_slice(alloc, &[f])?,
        terms: Vec::from_slice(alloc, &[u])?,
        added: Sides::Both(
            Vec::from_slice(alloc, division.left.as_slice())?,
            Vec::from_slice(alloc, division.right.as_slice())?,
        ),
    })
}

/// What f gives that is so split at u, where the formula that decides has this value on these grounds.
fn divide(
    bank: &Bank,
    alloc: Global,
    value: Value,
    f: u64,
    grounds: &[u64],
    u: u64,
    division: &Division,
) -> Result<Given, Memory>
    requires below { AreBelow (length bank.now) (f ∷ u ∷ []) }
    requires grounds { AreBelow (length bank.now) grounds.now }
    requires division { IsWithin bank.now division.now }
    ensures { IfOk result (λ g. HasAnswer bank.now (Some g) (split_by (truth_of value)
        division.now.rule (tree_at bank.now f) (trees_at bank.now grounds.now)
        (tree_at bank.now u) (trees_at bank.now division.now.left.items)
        (trees_at bank.now division.now.right.items))) }
{
    let rule = division.rule;
    match value {
        Value::Yes => one_side(bank, alloc, rule, f, grounds, u, division.left.as_slice()),
        Value::No => one_side(bank, alloc, rule, f, grounds, u, division.right.as_slice()),
        Value::Unknown => both_sides(bank, alloc, f, u, division),
    }
}

/// What f gives that is so split at u, by the value on the branch of the formula that decides.
fn divided(
    bank: &mut Bank,
    alloc: Global,
    parts: &Parts,
    f: u64,
    u: u64,
    division: &Division,
) -> Result<Given, Memory>
    requires below { AreBelow (length bank.old) (f ∷ u ∷ []) }
    requires division { IsWithin bank.old division.now }
    requires held { Holds parts.now }
    requires known { AreKnown (length bank.old) (shown parts.now).now }
    ensures extends { Extends bank.old bank.new }
    ensures distinct { IsDistinct bank.new }
    ensures ok { IfOk result (λ g. HasAnswer bank.new (Some g)
        (divided (branch_of bank.old (shown parts.now).now) (tree_at bank.old f)
        (tree_at bank.old u) (dividing_of bank.old division.now))) }
{
    let value = value_on(bank, alloc, parts, division.condition)?;
    let grounds = grounds_on(bank, alloc, parts, division.condition)?;
    let given = divide(bank, alloc, value, f, grounds.as_slice(), u, division)?;
    Ok(given)
}

/// What f gives at the closed term u: None exactly where it is not split at u.
fn split_at(
    bank: &mut Bank,
    alloc: Global,
    parts: &Parts,
    f: u64,
    u: u64,
) -> Result<Option<Given>, Memory>
    requires below { AreBelow (length bank.old) (f ∷ u ∷ []) }
    requires closed { IsScoped 0 (tree_at bank.old u) }
    requires held { Holds parts.now }
    requires known { AreKnown (length bank.old) (shown parts.now).now }
    ensures extends { Extends bank.old bank.new }
    ensures distinct { IsDistinct bank.new }
    ensures ok { IfOk result (λ o. HasAnswer bank.new o
        (split_at (branch_of bank.old (shown parts.now).now) (tree_at bank.old f)
        (tree_at bank.old u))) }
{
    match division_of(bank, alloc, f, u)? {
        Some(division) => {
            let given = divided(bank, alloc, parts, f, u, &division)?;
            Ok(Some(given))
        }
        None => Ok(None),
    }
}

/// Rank term split: a literal with a closed IF or applied function constructor, of which the first is taken, gives the side
/// that the value of its condition decides, or both where that is not known. None exactly where it has none.
pub fn term_split(
    bank: &mut Bank,
    alloc: Global,
    parts: &Parts,
    f: u64,
) -> Result<Option<Given>, Memory>
    requires within { f < length bank.old }
    requires held { Holds parts.now }
    requires known { AreKnown (length bank.old) (shown parts.now).now }
    ensures extends { Extends bank.old bank.new }
    ensures distinct { IsDistinct bank.new }
    ensures ok { IfOk result (λ o. HasAnswer bank.new o
        (term_split (branch_of bank.old (shown parts.now).now) (tree_at bank.old f))) }
{
    let _count = bank.count();
    if !is_literal(bank, f) {
        return Ok(None);
    }
    match first_sought(bank, alloc, parts, Sought::Division, f)? {
        Some(u) => {
            let given = split_at(bank, alloc, parts, f, u)?;
            Ok(given)
        }
        None => Ok(None),
    }
}
