//! The ranks instance and spare.
ghost use Rattle.std.specs.Prelude.{◌≡◌, length, IfOk, OnOk};
ghost use Rattle.search_definition.specs.declared.rule.Rank.TheVariants as rank;
ghost use Rattle.search_definition.specs.Search.{by_rank};
ghost use Rattle.branch_state.specs.Parts.{Holds, shown};
ghost use Rattle.tableau_search.specs.Entries.{AreKnown, AreClosed, branch_of};
ghost use Rattle.tableau_search.specs.Found.{IsAnswer};
ghost use Rattle.instance_terms.specs.Fresh.{fresh_of};
ghost use Rattle.tableau_ranks.specs.Kept.{trees_in, fresh_in, IsSized, LooksAt, IsKept};

use crate::state::TableauRanks;
use branch_state::Parts;
use core_expr::Memory;
use instance_ranks::{instance_rank, spare_rank};
use instance_terms::FreshNumbers;
use std::alloc::Global;
use tableau_search::Found;

/// The symbols that no formula has.
fn fresh(ranks: &TableauRanks) -> FreshNumbers
    ensures { fresh_of result ≡ fresh_in ranks.now }
{
    FreshNumbers {
        spare: ranks.memo.spare,
        metas: ranks.memo.metas,
    }
}

/// What instance gives on the branch.
pub fn instance(
    ranks: &mut TableauRanks,
    alloc: Global,
    parts: &Parts,
) -> Result<Option<Found>, Memory>
    requires held { Holds parts.now }
    requires known { AreKnown (length (trees_in ranks.old)) (shown parts.now).now }
    requires closed { AreClosed (trees_in ranks.old) (shown parts.now).now }
    requires sized { IsSized ranks.old }
    requires looks { LooksAt ranks.old (shown parts.now).now }
    ensures kept { OnOk result (IsKept ranks.old ranks.new (shown parts.now).now) }
    ensures answer { IfOk result (IsAnswer (trees_in ranks.new) (shown parts.now).now
        (by_rank (fresh_in ranks.old) (branch_of (trees_in ranks.new) (shown parts.now).now)
        rank.Instance)) }
{
    let w = fresh(ranks);
    instance_rank(&mut ranks.memo.bank, alloc, parts, w)
}

/// What spare gives on the branch.
pub fn spare(
    ranks: &mut TableauRanks,
    alloc: Global,
    parts: &Parts,
) -> Result<Option<Found>, Memory>
    requires held { Holds parts.now }
    requires known { AreKnown (length (trees_in ranks.old)) (shown parts.now).now }
    requires closed { AreClosed (trees_in ranks.old) (shown parts.now).now }
    requires sized { IsSized ranks.old }
    requires looks { LooksAt ranks.old (shown parts.now).now }
    ensures kept { OnOk result (IsKept ranks.old ranks.new (shown parts.now).now) }
    ensures answer { IfOk result (IsAnswer (trees_in ranks.new) (shown parts.now).now
        (by_rank (fresh_in ranks.old) (branch_of (trees_in ranks.new) (shown parts.now).now)
        rank.Spare)) }
{
    let w = fresh(ranks);
    spare_rank(&mut ranks.memo.bank, alloc, parts, w)
}
