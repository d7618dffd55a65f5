//! The work: a finder, the branches that it looks at, and the turns so far.
ghost use Rattle.std.specs.Prelude.{◌≡◌, ◌<◌, length, IfOk, OnOk};
ghost use Rattle.term_bank.specs.Banks.{Extends};
ghost use Rattle.branch_state.specs.Parts.{Holds, shown};
ghost use Rattle.tableau_search.specs.Growing.{extends_same, extends_on};
ghost use Rattle.tableau_search.specs.Memos.{IsMemo};
ghost use Rattle.tableau_search.specs.Boards.{IsBoard, state_of, Turns, ReopensBoard};

use crate::finder::{Decision, Finder, Found};
use crate::steps::{apply_alone, apply_split, shut};
use crate::turns::resume;
use branch_state::{Parts, reopen};
use core_expr::Memory;
use search_loop::{Turned, Work};
use search_trace::Turn;
use std::alloc::Global;

/// A finder, the branches that it looks at, and the turns so far.
#[derive(Drop)]
pub struct Engine<F> {
    pub finder: F,
    pub parts: Parts,
    pub turns: Vec<Turn>,
}

/// The turn with this number.
fn take_turn<F: Finder>(
    alloc: Global,
    finder: &mut F,
    parts: &mut Parts,
    turns: &mut Vec<Turn>,
    number: u64,
) -> Result<Turned, Memory>
    requires holds { F.holds finder.old }
    requires held { Holds parts.old }
    requires board { IsBoard (F.trees finder.old) (shown parts.old) turns.old.items }
    requires memo { IsMemo (F.right finder.old) (F.saved finder.old) (F.count finder.old)
        (shown parts.old) }
    ensures holds { OnOk result (F.holds finder.new) }
    ensures extends { OnOk result (Extends (F.trees finder.old) (F.trees finder.new)) }
    ensures memo { OnOk result (IsMemo (F.right finder.new) (F.saved finder.new)
        (F.count finder.new) (shown parts.new)) }
    ensures held { OnOk result (Holds parts.new) }
    ensures board { OnOk result (IsBoard (F.trees finder.new) (shown parts.new) turns.new.items) }
    ensures turns { IfOk result (λ t. Turns number
        (state_of (F.fresh finder.old) (F.trees finder.old) (shown parts.old) turns.old.items)
        (state_of (F.fresh finder.new) (F.trees finder.new) (shown parts.new) turns.new.items) t) }
{
    match finder.find(alloc, parts)? {
        Decision::Stuck => Ok(Turned::Stuck),
        Decision::Closes(closing) => {
            let needs = shut(alloc, parts, turns, closing)?;
            Ok(Turned::Closes(needs))
        }
        Decision::Applies(Found::Alone(used, added)) => {
            apply_alone(alloc, parts, turns, used, added)?;
            Ok(Turned::Alone)
        }
        Decision::Applies(Found::Splits(used, first, second)) => {
            finder.put_off(alloc)?;
            let place = apply_split(alloc, parts, turns, used, first, second, number)?;
            Ok(Turned::Splits(place))
        }
    }
}

/// Works on the branch that waits at this place, the second side of the split with this number.
fn take_up<F: Finder>(
    finder: &mut F,
    parts: &mut Parts,
    turns: &mut Vec<Turn>,
    at: u64,
    number: u64,
) -> Result<(), Memory>
    requires holds { F.holds finder.old }
    requires held { Holds parts.old }
    requires board { IsBoard (F.trees finder.old) (shown parts.old) turns.old.items }
    requires memo { IsMemo (F.right finder.old) (F.saved finder.old) (F.count finder.old)
        (shown parts.old) }
    requires within { at < length (shown parts.old).waits }
    ensures holds { OnOk result (F.holds finder.new) }
    ensures memo { OnOk result (IsMemo (F.right finder.new) (F.saved finder.new)
        (F.count finder.new) (shown parts.new)) }
    ensures trees { OnOk result (F.trees finder.new ≡ F.trees finder.old) }
    ensures fresh { OnOk result (F.fresh finder.new ≡ F.fresh finder.old) }
    ensures held { Holds parts.new }
    ensures back { OnOk result (ReopensBoard at number (shown parts.old) turns.old.items
        (shown parts.new) turns.new.items) }
{
    finder.take_up(at)?;
    reopen(parts, at)?;
    resume(turns, number)?;
    Ok(())
}

impl<F: Finder> Work for Engine<F> {
    ghost state = { λ e. state_of (F.fresh e.finder) (F.trees e.finder) (shown e.parts)
        e.turns.items };

    ghost holds = { λ e. F.holds e.finder × Holds e.parts
        × IsBoard (F.trees e.finder) (shown e.parts) e.turns.items
        × IsMemo (F.right e.finder) (F.saved e.finder) (F.count e.finder) (shown e.parts) };

    ghost follows = { λ e f. Extends (F.trees e.finder) (F.trees f.finder) };

    fn turn(&mut self, alloc: Global, number: u64) -> Result<Turned, Memory> {
        let turned = take_turn(
            alloc,
            &mut self.finder,
            &mut self.parts,
            &mut self.turns,
            number,
        )?;
        Ok(turned)
    }

    fn reopen(&mut self, _alloc: Global, at: u64, number: u64) -> Result<(), Memory> {
        take_up(
            &mut self.finder,
            &mut self.parts,
            &mut self.turns,
            at,
            number,
        )?;
        Ok(())
    }

    ghost keeps_all = { λ e. extends_same (F.trees e.finder) };

    ghost keeps_on = { λ e f h. extends_on (F.trees e.finder) (F.trees f.finder) (F.trees h.finder) };
}
