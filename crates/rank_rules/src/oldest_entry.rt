//! The oldest entry that a rule fits.
ghost use Rattle.std.specs.Prelude.{◌<◌, length, IfOk};
ghost use Rattle.term_bank.specs.Banks.{IsDistinct, Extends, tree_at};
ghost use Rattle.seq_calculus.specs.Calculus.{AllClosed};
ghost use Rattle.search_definition.specs.Branches.{formulas};
ghost use Rattle.search_definition.specs.Rules.{at_live};
ghost use Rattle.search_definition.specs.Instances.{Fresh};
ghost use Rattle.search_definition.specs.Search.{by_rank};
ghost use Rattle.search_definition.specs.Watches.{NoneBefore};
ghost use Rattle.branch_state.specs.Parts.{Holds, shown};
ghost use Rattle.branch_state.specs.Shown.{placed_at};
ghost use Rattle.formula_rules.specs.Answers.{HasAnswer};
ghost use Rattle.rank_rules.specs.Ranked.{rule_of, rank_of, branch_of, AreKnown, IsFitting, position};

use crate::entry_rank::{EntryRank, answer};
use branch_state::{Parts, entry, length};
use core_expr::Memory;
use formula_rules::Given;
use std::alloc::Global;
use term_bank::Bank;

/// A rule that fits: the entry that it uses, by age, and what it does.
#[derive(Debug, Drop)]
pub struct Fitting {
    pub entry: u64,
    pub given: Given,
}

/// What the rank gives at the entry: None too where that is dead.
fn at_entry(
    bank: &mut Bank,
    alloc: Global,
    parts: &Parts,
    rank: EntryRank,
    i: u64,
) -> Result<Option<Given>, Memory>
    requires held { Holds parts.now }
    requires within { i < length (shown parts.now).now }
    requires known { AreKnown (length bank.old) (shown parts.now).now }
    requires closed { AllClosed (formulas (branch_of bank.old (shown parts.now).now)) }
    ensures extends { Extends bank.old bank.new }
    ensures distinct { IsDistinct bank.new }
    ensures ok { IfOk result (λ o. HasAnswer bank.new o
        (at_live (rule_of rank (branch_of bank.old (shown parts.now).now)) (placed_at (shown parts.now).now i).live
        (tree_at bank.old (placed_at (shown parts.now).now i).formula))) }
{
    let _count = bank.count();
    let item = entry(parts, i);
    if !item.live {
        return Ok(None);
    }
    answer(bank, alloc, parts, rank, item.formula)
}

/// The rank at the oldest live entry that it fits, where no live entry before the start fits: None exactly where none fits.
pub fn oldest(
    bank: &mut Bank,
    alloc: Global,
    parts: &Parts,
    rank: EntryRank,
    start: u64,
) -> Result<Option<Fitting>, Memory>
    requires held { Holds parts.now }
    requires known { AreKnown (length bank.old) (shown parts.now).now }
    requires closed { AllClosed (formulas (branch_of bank.old (shown parts.now).now)) }
    requires start { NoneBefore (rule_of rank (branch_of bank.old (shown parts.now).now)) start
        (branch_of bank.old (shown parts.now).now) }
    ensures extends { Extends bank.old bank.new }
    ensures distinct { IsDistinct bank.new }
    ensures ok { IfOk result (λ o. (w : Fresh) → IsFitting bank.new (shown parts.now).now
        (by_rank w (branch_of bank.new (shown parts.now).now) (rank_of rank)) o) }
    ensures passed { IfOk result (λ o. NoneBefore
        (rule_of rank (branch_of bank.new (shown parts.now).now))
        (position o (length (shown parts.now).now)) (branch_of bank.new (shown parts.now).now)) }
{
    let _count = bank.count();
    for i in start..length(parts) {
        match at_entry(bank, alloc, parts, rank, i)? {
            Some(given) => return Ok(Some(Fitting { entry: i, given })),
            None => {}
        }
    }
    Ok(None)
}
