//! The ranks instance and spare.
ghost use Rattle.std.specs.Prelude.{◌<◌, Some, Option, length, IfOk, IfSome};
ghost use Rattle.term_bank.specs.Banks.{IsDistinct, Extends};
ghost use Rattle.search_definition.specs.declared.rule.Rule.TheVariants as rules;
ghost use Rattle.search_definition.specs.Terms.{after, first_some};
ghost use Rattle.search_definition.specs.Rules.{Result};
ghost use Rattle.search_definition.specs.Instances.{at_place, spare_at, instance_rule, spare_rule};
ghost use Rattle.branch_state.specs.Parts.{Holds, shown};
ghost use Rattle.tableau_search.specs.Entries.{AreKnown, AreClosed, branch_of};
ghost use Rattle.tableau_search.specs.Found.{IsFound, IsAnswer};
ghost use Rattle.instance_terms.specs.Fresh.{fresh_of};
ghost use Rattle.instance_ranks.specs.Lives.{place_of, places_of, IsLive, AreLive, IsInstance, HasInstance, result_by, entry_place};

use crate::atoms::found_term;
use crate::fresh_terms::new_term;
use crate::live::{LiveUniversal, by_count, place_at};
use branch_state::{Parts, length};
use branch_values::found_at;
use core_expr::Memory;
use formula_rules::{Given, Sides, instance};
use instance_terms::{FreshNumbers, spare_term};
use search_definition::Rule;
use std::alloc::Global;
use tableau_search::Found;
use term_bank::Bank;

/// A live universal with the term by which it is instantiated.
#[derive(Clone, Copy, Debug)]
pub struct Instance {
    pub place: LiveUniversal,
    pub term: u64,
}

/// The rule that adds the instance.
fn instance_found(
    bank: &mut Bank,
    alloc: Global,
    parts: &Parts,
    rule: Rule,
    x: Instance,
) -> Result<Found, Memory>
    requires { IsInstance bank.old (shown parts.now).now x }
    ensures extends { Extends bank.old bank.new }
    ensures distinct { IsDistinct bank.new }
    ensures found { IfOk result
        (IsFound bank.new (shown parts.now).now (Some (result_by bank.old rule x))) }
{
    let added = instance(bank, alloc, x.place.universal, x.term)?;
    let given = Given {
        rule,
        named: Vec::from_slice(alloc, &[x.place.formula])?,
        terms: Vec::from_slice(alloc, &[x.term])?,
        added: Sides::Alone(Vec::from_slice(alloc, &[added])?),
    };
    found_at(bank, alloc, x.place.entry, given)
}

/// The rule that adds the instance, if there is one.
fn answer(
    bank: &mut Bank,
    alloc: Global,
    parts: &Parts,
    rule: Rule,
    o: Option<Instance>,
) -> Result<Option<Found>, Memory>
    requires { IfSome o (IsInstance bank.old (shown parts.now).now) }
    ensures extends { Extends bank.old bank.new }
    ensures distinct { IsDistinct bank.new }
    ensures answer { (r : Option Result) → HasInstance bank.old (shown parts.now).now rule r o
        → IfOk result (IsAnswer bank.new (shown parts.now).now r) }
{
    let _count = bank.count();
    match o {
        Some(x) => Ok(Some(instance_found(bank, alloc, parts, rule, x)?)),
        None => Ok(None),
    }
}

/// The first of these universals that has a new instance by a partner, with the term.
fn first_instance(
    bank: &mut Bank,
    alloc: Global,
    parts: &Parts,
    w: FreshNumbers,
    list: &[LiveUniversal],
) -> Result<Option<Instance>, Memory>
    requires held { Holds parts.now }
    requires known { AreKnown (length bank.old) (shown parts.now).now }
    requires closed { AreClosed bank.old (shown parts.now).now }
    requires live { AreLive bank.old (shown parts.now).now list.now }
    ensures extends { Extends bank.old bank.new }
    ensures distinct { IsDistinct bank.new }
    ensures ok { IfOk result (HasInstance bank.new (shown parts.now).now rules.Instance
        (first_some (at_place (branch_of bank.old (shown parts.now).now) (fresh_of w))
        (places_of bank.old list.now))) }
{
    let _count = bank.count();
    for i in 0..list.len() {
        let place = list[i];
        match found_term(bank, alloc, parts, w, place.universal)? {
            Some(term) => return Ok(Some(Instance { place, term })),
            None => {}
        }
    }
    Ok(None)
}

/// Rank instance: the first universal, by count and then by age, that has a new instance by a partner.
pub fn instance_rank(
    bank: &mut Bank,
    alloc: Global,
    parts: &Parts,
    w: FreshNumbers,
) -> Result<Option<Found>, Memory>
    requires held { Holds parts.now }
    requires known { AreKnown (length bank.old) (shown parts.now).now }
    requires closed { AreClosed bank.old (shown parts.now).now }
    ensures extends { Extends bank.old bank.new }
    ensures distinct { IsDistinct bank.new }
    ensures answer { IfOk result (IsAnswer bank.new (shown parts.now).now
        (instance_rule (fresh_of w) (branch_of bank.new (shown parts.now).now))) }
{
    let _count = bank.count();
    let list = by_count(bank, alloc, parts)?;
    let first = first_instance(bank, alloc, parts, w, list.as_slice())?;
    answer(bank, alloc, parts, Rule::Instance, first)
}

/// The instance of the universal by the spare term, where it has no instance yet and this one is new.
fn spare_of(
    bank: &mut Bank,
    alloc: Global,
    parts: &Parts,
    w: FreshNumbers,
    place: LiveUniversal,
) -> Result<Option<Instance>, Memory>
    requires held { Holds parts.now }
    requires known { AreKnown (length bank.old) (shown parts.now).now }
    requires live { IsLive bank.old (shown parts.now).now place }
    ensures extends { Extends bank.old bank.new }
    ensures distinct { IsDistinct bank.new }
    ensures ok { IfOk result (HasInstance bank.new (shown parts.now).now rules.Spare
        (spare_at (branch_of bank.old (shown parts.now).now) (fresh_of w)
        (place_of bank.old place))) }
{
    let _count = bank.count();
    if place.count != 0 {
        return Ok(None);
    }
    let spare = spare_term(bank, alloc, w)?;
    match new_term(bank, alloc, parts, place.universal, spare)? {
        Some(term) => Ok(Some(Instance { place, term })),
        None => Ok(None),
    }
}

/// The instance of the entry by the spare term, where the entry is a live universal that has no instance yet and this one is
/// new.
fn spare_at(
    bank: &mut Bank,
    alloc: Global,
    parts: &Parts,
    w: FreshNumbers,
    i: u64,
) -> Result<Option<Instance>, Memory>
    requires held { Holds parts.now }
    requires known { AreKnown (length bank.old) (shown parts.now).now }
    requires closed { AreClosed bank.old (shown parts.now).now }
    requires within { i < length (shown parts.now).now }
    ensures extends { Extends bank.old bank.new }
    ensures distinct { IsDistinct bank.new }
    ensures ok { IfOk result (HasInstance bank.new (shown parts.now).now rules.Spare
        (after (spare_at (branch_of bank.old (shown parts.now).now) (fresh_of w))
        (entry_place bank.old (shown parts.now).now i))) }
{
    let _count = bank.count();
    match place_at(bank, parts, i) {
        Some(place) => spare_of(bank, alloc, parts, w, place),
        None => Ok(None),
    }
}

/// The oldest universal without an instance whose instance by the spare term is new, with that term.
fn first_spare(
    bank: &mut Bank,
    alloc: Global,
    parts: &Parts,
    w: FreshNumbers,
) -> Result<Option<Instance>, Memory>
    requires held { Holds parts.now }
    requires known { AreKnown (length bank.old) (shown parts.now).now }
    requires closed { AreClosed bank.old (shown parts.now).now }
    ensures extends { Extends bank.old bank.new }
    ensures distinct { IsDistinct bank.new }
    ensures ok { IfOk result (HasInstance bank.new (shown parts.now).now rules.Spare
        (spare_rule (fresh_of w) (branch_of bank.old (shown parts.now).now))) }
{
    let _count = bank.count();
    for i in 0..length(parts) {
        match spare_at(bank, alloc, parts, w, i)? {
            Some(x) => return Ok(Some(x)),
            None => {}
        }
    }
    Ok(None)
}

/// Rank spare: the oldest universal without an instance gets the one by the spare term.
pub fn spare_rank(
    bank: &mut Bank,
    alloc: Global,
    parts: &Parts,
    w: FreshNumbers,
) -> Result<Option<Found>, Memory>
    requires held { Holds parts.now }
    requires known { AreKnown (length bank.old) (shown parts.now).now }
    requires closed { AreClosed bank.old (shown parts.now).now }
    ensures extends { Extends bank.old bank.new }
    ensures distinct { IsDistinct bank.new }
    ensures answer { IfOk result (IsAnswer bank.new (shown parts.now).now
        (spare_rule (fresh_of w) (branch_of bank.new (shown parts.now).now))) }
{
    let _count = bank.count();
    let first = first_spare(bank, alloc, parts, w)?;
    answer(bank, alloc, parts, Rule::Spare, first)
}
