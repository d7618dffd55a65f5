//! The ranks rewrite and replace.
ghost use Rattle.std.specs.Prelude.{◌≡◌, length, IfOk, OnOk};
ghost use Rattle.search_definition.specs.declared.rule.Rank.TheVariants as rank;
ghost use Rattle.search_definition.specs.Search.{by_rank};
ghost use Rattle.branch_state.specs.Parts.{Holds, shown};
ghost use Rattle.tableau_search.specs.Entries.{AreKnown, AreClosed, branch_of};
ghost use Rattle.tableau_search.specs.Found.{IsAnswer};
ghost use Rattle.equation_ranks.specs.Rewriting.{place_of};
ghost use Rattle.tableau_ranks.specs.Kept.{trees_in, fresh_in, IsSized, LooksAt, IsKept};

use crate::state::TableauRanks;
use branch_state::{Parts, length};
use core_expr::Memory;
use equation_ranks::{replace_rank, rewrite_from};
use rank_memo::Place;
use std::alloc::Global;
use tableau_search::Found;

/// The entry of what was found, else the end.
fn place_of(found: &Option<Found>, end: u64) -> u64
    ensures { result ≡ place_of found.now end }
{
    match found {
        Some(Found::Alone(used, _)) => used.entry,
        Some(Found::Splits(used, _, _)) => used.entry,
        None => end,
    }
}

/// What rewrite gives on the branch. Its position moves to the entry that it fits, else to the end.
pub fn rewrite(
    ranks: &mut TableauRanks,
    alloc: Global,
    parts: &Parts,
) -> Result<Option<Found>, Memory>
    requires held { Holds parts.now }
    requires known { AreKnown (length (trees_in ranks.old)) (shown parts.now).now }
    requires closed { AreClosed (trees_in ranks.old) (shown parts.now).now }
    requires sized { IsSized ranks.old }
    requires looks { LooksAt ranks.old (shown parts.now).now }
    ensures kept { OnOk result (IsKept ranks.old ranks.new (shown parts.now).now) }
    ensures answer { IfOk result (IsAnswer (trees_in ranks.new) (shown parts.now).now
        (by_rank (fresh_in ranks.old) (branch_of (trees_in ranks.new) (shown parts.now).now)
        rank.Rewrite)) }
{
    let start = ranks.memo.position(Place::Rewrite);
    let found = rewrite_from(&mut ranks.memo.bank, alloc, parts, start)?;
    let position = place_of(&found, length(parts));
    ranks.memo.move_to(Place::Rewrite, position);
    Ok(found)
}

/// What replace gives on the branch.
pub fn replace(
    ranks: &mut TableauRanks,
    alloc: Global,
    parts: &Parts,
) -> Result<Option<Found>, Memory>
    requires held { Holds parts.now }
    requires known { AreKnown (length (trees_in ranks.old)) (shown parts.now).now }
    requires closed { AreClosed (trees_in ranks.old) (shown parts.now).now }
    requires sized { IsSized ranks.old }
    requires looks { LooksAt ranks.old (shown parts.now).now }
    ensures kept { OnOk result (IsKept ranks.old ranks.new (shown parts.now).now) }
    ensures answer { IfOk result (IsAnswer (trees_in ranks.new) (shown parts.now).now
        (by_rank (fresh_in ranks.old) (branch_of (trees_in ranks.new) (shown parts.now).now)
        rank.Replace)) }
{
    replace_rank(&mut ranks.memo.bank, &mut ranks.sizes, alloc, parts)
}
