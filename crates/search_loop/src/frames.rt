//! The open splits of the branch that is worked on, and what is left of them when it closes.
ghost use Rattle.std.specs.Prelude.{◌≡◌, ◌∷◌, IfOk};
ghost use Rattle.search_loop.specs.Stacks.{Falls, FallsIn, AreFalling, frame_of, stack_of, popped, after_step, after_pop, WhereGoes, StepFalls};

use crate::sets::{contains, union, without};
use std::alloc::{AllocError, Global};

/// An open split with its number: on the first side, with the place at which the second waits; or on the second, with what
/// the first needed.
#[derive(Debug, Drop)]
pub enum Frame {
    First(u64, u64),
    Second(u64, Vec<u64>),
}

/// The split whose second side is next, by its number, and the place at which that side waits.
#[derive(Clone, Copy, Debug)]
pub struct Resumed {
    pub number: u64,
    pub at: u64,
}

/// What is done at a frame: the frames below it are next, for a branch that needed these splits; or a branch that waits is
/// worked on.
#[derive(Debug, Drop)]
pub enum Step {
    Goes(Vec<u64>),
    Back(Resumed),
}

/// A frame above these, for a branch that needed these splits.
fn pass(
    alloc: Global,
    frames: &mut Vec<Frame>,
    frame: Frame,
    needed: Vec<u64>,
) -> Result<Step, AllocError>
    requires falls { Falls needed.items }
    requires frame { FallsIn (frame_of frame) }
    requires frames { AreFalling (stack_of frames.old.items) }
    ensures passed { IfOk result (λ s. after_step s (stack_of frames.new.items)
        ≡ popped (frame_of frame ∷ stack_of frames.old.items) needed.items) }
    ensures goes { IfOk result (λ s. WhereGoes s (frames.new.items ≡ frames.old.items)) }
    ensures falls { IfOk result (λ s. StepFalls s) }
    ensures frames { IfOk result (λ _. AreFalling (stack_of frames.new.items)) }
{
    match frame {
        Frame::First(number, at) => {
            if !contains(&needed, number) {
                return Ok(Step::Goes(needed));
            }
            let rest = without(alloc, &needed, number)?;
            frames.push(Frame::Second(number, rest))?;
            Ok(Step::Back(Resumed { number, at }))
        }
        Frame::Second(number, other) => {
            let both = union(alloc, &needed, &other)?;
            let rest = without(alloc, &both, number)?;
            Ok(Step::Goes(rest))
        }
    }
}

/// The split whose second side is next after a branch closed that needed these splits, or None where none waits.
pub fn pop(
    alloc: Global,
    frames: &mut Vec<Frame>,
    needed: Vec<u64>,
) -> Result<Option<Resumed>, AllocError>
    requires falls { Falls needed.items }
    requires frames { AreFalling (stack_of frames.old.items) }
    ensures popped { IfOk result (λ o. after_pop o (stack_of frames.new.items)
        ≡ popped (stack_of frames.old.items) needed.items) }
    ensures frames { IfOk result (λ _. AreFalling (stack_of frames.new.items)) }
{
    let mut needed = needed;
    while let Some(frame) = frames.pop() {
        match pass(alloc, frames, frame, needed)? {
            Step::Back(resumed) => return Ok(Some(resumed)),
            Step::Goes(rest) => needed = rest,
        }
    }
    Ok(None)
}
