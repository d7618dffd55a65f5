//! The rule of each rank.
ghost use Rattle.std.specs.Prelude.{length, IfOk, OnOk};
ghost use Rattle.search_definition.specs.Search.{by_rank};
ghost use Rattle.branch_state.specs.Parts.{Holds, shown};
ghost use Rattle.tableau_search.specs.Entries.{AreKnown, AreClosed, branch_of};
ghost use Rattle.tableau_search.specs.Found.{IsAnswer};
ghost use Rattle.tableau_ranks.specs.Kept.{trees_in, fresh_in, IsSized, LooksAt, IsKept};

use crate::by_entry::by_entry;
use crate::by_value::by_value;
use crate::closing::close;
use crate::instances::{instance, spare};
use crate::rewriting::{replace, rewrite};
use crate::state::TableauRanks;
use branch_state::Parts;
use core_expr::Memory;
use rank_rules::EntryRank;
use search_definition::Rank;
use std::alloc::Global;
use tableau_search::{Closing, Found, Ranks};
use value_ranks::ValueRank;

/// What the rule of the rank gives on the branch.
fn by_rank(
    ranks: &mut TableauRanks,
    alloc: Global,
    parts: &Parts,
    rank: Rank,
) -> Result<Option<Found>, Memory>
    requires held { Holds parts.now }
    requires known { AreKnown (length (trees_in ranks.old)) (shown parts.now).now }
    requires closed { AreClosed (trees_in ranks.old) (shown parts.now).now }
    requires sized { IsSized ranks.old }
    requires looks { LooksAt ranks.old (shown parts.now).now }
    ensures kept { OnOk result (IsKept ranks.old ranks.new (shown parts.now).now) }
    ensures answer { IfOk result (IsAnswer (trees_in ranks.new) (shown parts.now).now
        (by_rank (fresh_in ranks.old) (branch_of (trees_in ranks.new) (shown parts.now).now)
        rank)) }
{
    match rank {
        Rank::Plain => by_entry(ranks, alloc, parts, EntryRank::Plain),
        Rank::Rewrite => rewrite(ranks, alloc, parts),
        Rank::Derive => by_entry(ranks, alloc, parts, EntryRank::Derive),
        Rank::Replace => replace(ranks, alloc, parts),
        Rank::Settle => by_value(ranks, alloc, parts, ValueRank::Settle),
        Rank::Choice => by_entry(ranks, alloc, parts, EntryRank::Choice),
        Rank::Split => by_entry(ranks, alloc, parts, EntryRank::Split),
        Rank::TermSplit => by_value(ranks, alloc, parts, ValueRank::TermSplit),
        Rank::Extension => by_entry(ranks, alloc, parts, EntryRank::Extension),
        Rank::Instance => instance(ranks, alloc, parts),
        Rank::Spare => spare(ranks, alloc, parts),
        Rank::TakeUp => by_value(ranks, alloc, parts, ValueRank::TakeUp),
    }
}

impl Ranks for TableauRanks {
    fn close(&mut self, alloc: Global, parts: &Parts) -> Result<Option<Closing>, Memory> {
        let closing = close(self, alloc, parts)?;
        Ok(closing)
    }

    fn rank(&mut self, alloc: Global, parts: &Parts, rank: Rank) -> Result<Option<Found>, Memory> {
        let found = by_rank(self, alloc, parts, rank)?;
        Ok(found)
    }
}
