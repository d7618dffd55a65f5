//! The ranks that take the oldest entry that their rule fits, by the formula or by what stands on the branch.
ghost use Rattle.std.specs.Prelude.{◌≡◌, Option, List, length, IfOk, IfSome, OnOk};
ghost use Rattle.search_definition.specs.Rules.{Result};
ghost use Rattle.search_definition.specs.Search.{by_rank};
ghost use Rattle.branch_state.specs.Shown.{Placed};
ghost use Rattle.branch_state.specs.Parts.{Holds, shown};
ghost use Rattle.tableau_search.specs.Entries.{AreKnown, AreClosed, branch_of};
ghost use Rattle.tableau_search.specs.Found.{IsAnswer};
ghost use Rattle.formula_rules.specs.Answers.{GivenBelow};
ghost use Rattle.rank_rules.specs.Ranked.{IsFitting, position, rank_of};
ghost use Rattle.tableau_ranks.specs.Starts.{entry_place};
ghost use Rattle.tableau_ranks.specs.Kept.{trees_in, fresh_in, IsSized, LooksAt, IsKept};

use crate::starts::{move_on, start_at};
use crate::state::TableauRanks;
use branch_state::{Parts, length};
use branch_values::found_at;
use core_expr::Memory;
use rank_memo::Place;
use rank_rules::{EntryRank, Fitting, oldest};
use std::alloc::Global;
use tableau_search::Found;
use term_bank::Bank;

/// The place of the rank's position: None for derive, which has none.
fn entry_place(rank: EntryRank) -> Option<Place>
    ensures { result ≡ entry_place rank }
{
    match rank {
        EntryRank::Plain => Some(Place::Plain),
        EntryRank::Derive => None,
        EntryRank::Choice => Some(Place::Choice),
        EntryRank::Split => Some(Place::Split),
        EntryRank::Extension => Some(Place::Extension),
    }
}

/// The entry that fits, else the end.
fn position(fitting: &Option<Fitting>, end: u64) -> u64
    ensures { result ≡ position fitting.now end }
{
    match fitting {
        Some(fitting) => fitting.entry,
        None => end,
    }
}

/// What fits, with the classes of what it adds.
fn found_of(bank: &Bank, alloc: Global, fitting: Option<Fitting>) -> Result<Option<Found>, Memory>
    requires { IfSome fitting (λ x. GivenBelow (length bank.now) x.given) }
    ensures { (es : List Placed) (r : Option Result) → IsFitting bank.now es r fitting
        → IfOk result (IsAnswer bank.now es r) }
{
    match fitting {
        Some(Fitting { entry, given }) => Ok(Some(found_at(bank, alloc, entry, given)?)),
        None => Ok(None),
    }
}

/// What the rank gives on the branch. Its position moves to the entry that fits, else to the end.
pub fn by_entry(
    ranks: &mut TableauRanks,
    alloc: Global,
    parts: &Parts,
    rank: EntryRank,
) -> Result<Option<Found>, Memory>
    requires held { Holds parts.now }
    requires known { AreKnown (length (trees_in ranks.old)) (shown parts.now).now }
    requires closed { AreClosed (trees_in ranks.old) (shown parts.now).now }
    requires sized { IsSized ranks.old }
    requires looks { LooksAt ranks.old (shown parts.now).now }
    ensures kept { OnOk result (IsKept ranks.old ranks.new (shown parts.now).now) }
    ensures answer { IfOk result (IsAnswer (trees_in ranks.new) (shown parts.now).now
        (by_rank (fresh_in ranks.old) (branch_of (trees_in ranks.new) (shown parts.now).now)
        (rank_of rank))) }
{
    let place = entry_place(rank);
    let start = start_at(&ranks.memo, place);
    let fitting = oldest(&mut ranks.memo.bank, alloc, parts, rank, start)?;
    let position = position(&fitting, length(parts));
    let found = found_of(&ranks.memo.bank, alloc, fitting)?;
    move_on(&mut ranks.memo, place, position);
    Ok(found)
}
