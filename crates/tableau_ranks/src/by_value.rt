//! The ranks that look at values of formulas on the branch.
ghost use Rattle.std.specs.Prelude.{◌≡◌, length, IfOk, OnOk};
ghost use Rattle.search_definition.specs.Search.{by_rank};
ghost use Rattle.branch_state.specs.Parts.{Holds, shown};
ghost use Rattle.tableau_search.specs.Entries.{AreKnown, AreClosed, branch_of};
ghost use Rattle.tableau_search.specs.Found.{IsAnswer};
ghost use Rattle.value_ranks.specs.Ranked.{rank_of};
ghost use Rattle.tableau_ranks.specs.Starts.{value_place};
ghost use Rattle.tableau_ranks.specs.Kept.{trees_in, fresh_in, IsSized, LooksAt, IsKept};

use crate::starts::{move_on, start_at};
use crate::state::TableauRanks;
use branch_state::{Parts, length};
use core_expr::Memory;
use rank_memo::Place;
use std::alloc::Global;
use tableau_search::Found;
use value_ranks::{ValueRank, position, rank_from};

/// The place of the rank's position: None for settle, which has none.
fn value_place(rank: ValueRank) -> Option<Place>
    ensures { result ≡ value_place rank }
{
    match rank {
        ValueRank::Settle => None,
        ValueRank::TermSplit => Some(Place::TermSplit),
        ValueRank::TakeUp => Some(Place::TakeUp),
    }
}

/// What the rank gives on the branch. Its position moves to the entry that fits, else to the end.
pub fn by_value(
    ranks: &mut TableauRanks,
    alloc: Global,
    parts: &Parts,
    rank: ValueRank,
) -> Result<Option<Found>, Memory>
    requires held { Holds parts.now }
    requires known { AreKnown (length (trees_in ranks.old)) (shown parts.now).now }
    requires closed { AreClosed (trees_in ranks.old) (shown parts.now).now }
    requires sized { IsSized ranks.old }
    requires looks { LooksAt ranks.old (shown parts.now).now }
    ensures kept { OnOk result (IsKept ranks.old ranks.new (shown parts.now).now) }
    ensures answer { IfOk result (IsAnswer (trees_in ranks.new) (shown parts.now).now
        (by_rank (fresh_in ranks.old) (branch_of (trees_in ranks.new) (shown parts.now).now)
        (rank_of rank))) }
{
    let place = value_place(rank);
    let start = start_at(&ranks.memo, place);
    let found = rank_from(&mut ranks.memo.bank, alloc, parts, rank, start)?;
    let position = position(&found, length(parts));
    move_on(&mut ranks.memo, place, position);
    Ok(found)
}
