//! The list of turns.
ghost use Rattle.std.specs.Prelude.{◌≡◌, map, IfOk, OnOk};
ghost use Rattle.branch_state.specs.Parts.{Holds, shown};
ghost use Rattle.tableau_search.specs.Boards.{added_by, with_next, IsResumed};

use branch_state::{New, Parts, has};
use search_trace::{Added, Turn};
use std::alloc::{AllocError, Global};

/// The formulas, each with whether it does not stand on the branch.
pub fn added_of(alloc: Global, parts: &Parts, news: &[New]) -> Result<Vec<Added>, AllocError>
    requires { Holds parts.now }
    ensures { IfOk result (λ v. v.items ≡ map (added_by (shown parts.now).now) news.now) }
{
    let mut added = Vec::new(alloc);
    for new in news {
        let is_new = !has(parts, new.formula);
        added.push(Added {
            formula: new.formula,
            is_new,
        })?;
    }
    Ok(added)
}

/// A closing with the split whose second side is next; another turn as it is.
fn with_next(turn: Turn, number: u64) -> Turn
    ensures { result ≡ with_next number turn }
{
    match turn {
        Turn::Shut(clash, entries, _) => Turn::Shut(clash, entries, Some(number)),
        Turn::Alone(used, added) => Turn::Alone(used, added),
        Turn::Split(used, first, second) => Turn::Split(used, first, second),
    }
}

/// The last turn, a closing, says that the second side of this split is next.
pub fn resume(turns: &mut Vec<Turn>, number: u64) -> Result<(), AllocError>
    ensures { OnOk result (IsResumed number turns.old.items turns.new.items) }
{
    match turns.pop() {
        None => Ok(()),
        Some(turn) => {
            turns.push(with_next(turn, number))?;
            Ok(())
        }
    }
}
