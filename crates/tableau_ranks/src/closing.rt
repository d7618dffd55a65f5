//! The closing of the branch.
ghost use Rattle.std.specs.Prelude.{length, IfOk, OnOk};
ghost use Rattle.branch_state.specs.Parts.{Holds, shown};
ghost use Rattle.tableau_search.specs.Entries.{AreKnown};
ghost use Rattle.tableau_search.specs.Found.{IsClosing};
ghost use Rattle.tableau_ranks.specs.Kept.{trees_in, IsSized, LooksAt, IsKept};

use crate::state::TableauRanks;
use branch_state::{Parts, length};
use core_expr::Memory;
use equation_ranks::close_from;
use rank_memo::Place;
use std::alloc::Global;
use tableau_search::Closing;

/// How the branch closes. Where it does not, the position for closings moves to its end.
pub fn close(
    ranks: &mut TableauRanks,
    alloc: Global,
    parts: &Parts,
) -> Result<Option<Closing>, Memory>
    requires held { Holds parts.now }
    requires known { AreKnown (length (trees_in ranks.old)) (shown parts.now).now }
    requires sized { IsSized ranks.old }
    requires looks { LooksAt ranks.old (shown parts.now).now }
    ensures kept { OnOk result (IsKept ranks.old ranks.new (shown parts.now).now) }
    ensures closing { IfOk result (IsClosing (trees_in ranks.new) (shown parts.now).now) }
{
    let start = ranks.memo.position(Place::Closing);
    match close_from(&mut ranks.memo.bank, alloc, parts, start)? {
        Some(closing) => Ok(Some(closing)),
        None => {
            ranks.memo.move_to(Place::Closing, length(parts));
            Ok(None)
        }
    }
}
