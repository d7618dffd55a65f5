//! The oldest live entry that a rank fits.
ghost use Rattle.std.specs.Prelude.{◌≡◌, ◌<◌, length, IfOk};
ghost use Rattle.term_bank.specs.Banks.{IsDistinct, Extends, tree_at};
ghost use Rattle.search_definition.specs.Rules.{at_live};
ghost use Rattle.search_definition.specs.Instances.{Fresh};
ghost use Rattle.search_definition.specs.Search.{by_rank};
ghost use Rattle.search_definition.specs.Watches.{NoneBefore};
ghost use Rattle.branch_state.specs.Shown.{placed_at};
ghost use Rattle.branch_state.specs.Parts.{Holds, shown};
ghost use Rattle.tableau_search.specs.Entries.{AreKnown, branch_of};
ghost use Rattle.tableau_search.specs.Found.{IsAnswer};
ghost use Rattle.formula_rules.specs.Answers.{HasAnswer};
ghost use Rattle.value_ranks.specs.Ranked.{rank_of, rule_of, position};

use crate::settling::settle;
use branch_state::{Parts, entry, length};
use branch_values::found_at;
use core_expr::Memory;
use formula_rules::Given;
use literal_ranks::{take_up, term_split};
use std::alloc::Global;
use tableau_search::Found;
use term_bank::Bank;

/// A rank that looks at values of formulas and takes the oldest entry that it fits.
#[derive(Clone, Copy, Debug, PartialEq, Eq)]
pub enum ValueRank {
    Settle,
    TakeUp,
    TermSplit,
}

/// What the rule of the rank gives at a formula: None exactly where it does not fit.
fn given_at(
    bank: &mut Bank,
    alloc: Global,
    parts: &Parts,
    rank: ValueRank,
    f: u64,
) -> Result<Option<Given>, Memory>
    requires within { f < length bank.old }
    requires held { Holds parts.now }
    requires known { AreKnown (length bank.old) (shown parts.now).now }
    ensures extends { Extends bank.old bank.new }
    ensures distinct { IsDistinct bank.new }
    ensures ok { IfOk result (λ o. HasAnswer bank.new o
        (rule_of rank (branch_of bank.old (shown parts.now).now) (tree_at bank.old f))) }
{
    match rank {
        ValueRank::Settle => settle(bank, alloc, parts, f),
        ValueRank::TakeUp => take_up(bank, alloc, parts, f),
        ValueRank::TermSplit => term_split(bank, alloc, parts, f),
    }
}

/// What the rule of the rank gives at an entry: None too where that is dead.
fn at_entry(
    bank: &mut Bank,
    alloc: Global,
    parts: &Parts,
    rank: ValueRank,
    i: u64,
) -> Result<Option<Given>, Memory>
    requires within { i < length (shown parts.now).now }
    requires held { Holds parts.now }
    requires known { AreKnown (length bank.old) (shown parts.now).now }
    ensures extends { Extends bank.old bank.new }
    ensures distinct { IsDistinct bank.new }
    ensures ok { IfOk result (λ o. HasAnswer bank.new o
        (at_live (rule_of rank (branch_of bank.old (shown parts.now).now))
        (placed_at (shown parts.now).now i).live
        (tree_at bank.old (placed_at (shown parts.now).now i).formula))) }
{
    let _count = bank.count();
    let item = entry(parts, i);
    if !item.live {
        return Ok(None);
    }
    given_at(bank, alloc, parts, rank, item.formula)
}

/// The entry that the rank fits, else the end: where the search for the oldest goes on.
pub fn position(found: &Option<Found>, end: u64) -> u64
    ensures { result ≡ position found.now end }
{
    match found {
        None => end,
        Some(Found::Alone(used, _)) => used.entry,
        Some(Found::Splits(used, _, _)) => used.entry,
    }
}

/// What the rule of the rank gives at the oldest live entry that it fits, where no live entry before the start fits: None
/// exactly where none fits.
pub fn rank_from(
    bank: &mut Bank,
    alloc: Global,
    parts: &Parts,
    rank: ValueRank,
    start: u64,
) -> Result<Option<Found>, Memory>
    requires held { Holds parts.now }
    requires known { AreKnown (length bank.old) (shown parts.now).now }
    requires start { NoneBefore (rule_of rank (branch_of bank.old (shown parts.now).now)) start
        (branch_of bank.old (shown parts.now).now) }
    ensures extends { Extends bank.old bank.new }
    ensures distinct { IsDistinct bank.new }
    ensures answer { IfOk result (λ o. (w : Fresh) → IsAnswer bank.new (shown parts.now).now
        (by_rank w (branch_of bank.new (shown parts.now).now) (rank_of rank)) o) }
    ensures passed { IfOk result (λ o. NoneBefore
        (rule_of rank (branch_of bank.new (shown parts.now).now))
        (position o (length (shown parts.now).now)) (branch_of bank.new (shown parts.now).now)) }
{
    let _count = bank.count();
    for i in start..length(parts) {
        match at_entry(bank, alloc, parts, rank, i)? {
            Some(given) => {
                let found = found_at(bank, alloc, i, given)?;
                return Ok(Some(found));
            }
            None => {}
        }
    }
    Ok(None)
}
