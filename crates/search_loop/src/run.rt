//! The loop.
ghost use Rattle.std.specs.Prelude.{◌≡◌, ◌<◌, IfOk, OnOk};
ghost use Rattle.search_definition.specs.Search.{run, moves};
ghost use Rattle.search_loop.specs.Stacks.{stack_of, AreStacked, AreFalling};
ghost use Rattle.search_loop.specs.Turns.{RoundIs, Ends, StepsAre, start_at};

use crate::frames::{Frame, pop};
use crate::work::{Turned, Work};
use core_expr::Memory;
use std::alloc::Global;

/// How the search ended, with its turns: closed, saturated with the branch that is worked on, or spent.
#[derive(Clone, Copy, Debug, PartialEq, Eq)]
pub enum Ending {
    Closed(u64),
    Saturated(u64),
    Spent(u64),
}

/// What a turn left: a branch that no rule fits, no branch, or open branches.
#[derive(Debug, Drop)]
pub enum Round {
    Ends,
    Done,
    More,
}

/// A turn.
fn take_turn<W: Work>(
    alloc: Global,
    work: &mut W,
    frames: &mut Vec<Frame>,
    number: u64,
) -> Result<Round, Memory>
    requires holds { W.holds work.old }
    requires stacked { AreStacked (W.state work.old).count (stack_of frames.old.items) }
    requires falling { AreFalling (stack_of frames.old.items) }
    ensures holds { OnOk result (W.holds work.new) }
    ensures follows { OnOk result (W.follows work.old work.new) }
    ensures fresh { OnOk result ((W.state work.new).fresh ≡ (W.state work.old).fresh) }
    ensures falling { OnOk result (AreFalling (stack_of frames.new.items)) }
    ensures round { IfOk result (λ r. RoundIs number (W.state work.old)
        (stack_of frames.old.items) (W.state work.new) (stack_of frames.new.items) r) }
{
    match work.turn(alloc, number)? {
        Turned::Stuck => Ok(Round::Ends),
        Turned::Alone => Ok(Round::More),
        Turned::Splits(at) => {
            frames.push(Frame::First(number, at))?;
            Ok(Round::More)
        }
        Turned::Closes(needed) => match pop(alloc, frames, needed)? {
            None => Ok(Round::Done),
            Some(resumed) => {
                work.reopen(alloc, resumed.at, resumed.number)?;
                Ok(Round::More)
            }
        },
    }
}

/// The search from the branch of the work on, with at most `limit` turns.
pub fn search<W: Work>(alloc: Global, work: &mut W, limit: u64) -> Result<Ending, Memory>
    requires holds { W.holds work.old }
    requires limit { limit < 9223372036854775808 }
    ensures holds { OnOk result (W.holds work.new) }
    ensures follows { OnOk result (W.follows work.old work.new) }
    ensures ends { IfOk result (λ e. Ends (W.state work.new).now e
        (run (W.state work.old).fresh limit 0 (start_at (W.state work.old)))) }
    ensures steps { IfOk result (λ e. StepsAre e
        (moves (W.state work.old).fresh limit 0 (start_at (W.state work.old)))
        (W.state work.old).moves (W.state work.new).moves) }
    ensures fresh { OnOk result ((W.state work.new).fresh ≡ (W.state work.old).fresh) }
{
    let mut frames = Vec::new(alloc);
    let mut used = 0;
    'turns: loop {
        match take_turn(alloc, work, &mut frames, used + 1)? {
            Round::Ends => return Ok(Ending::Saturated(used)),
            Round::Done => {
                if used == limit {
                    return Ok(Ending::Spent(used));
                }
                return Ok(Ending::Closed(used + 1));
            }
            Round::More => {
                if used == limit {
                    return Ok(Ending::Spent(used));
                }
                used += 1;
            }
        }
    }
}
