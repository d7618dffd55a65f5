//! What the loop asks of a work.
ghost use Rattle.std.specs.Prelude.{◌≡◌, ◌<◌, IfOk, OnOk};
ghost use Rattle.search_loop.specs.Turns.{State, Keeps, Tells, Resumes};

use core_expr::Memory;
use std::alloc::Global;

/// What a turn did with the branch: no rule fits; it closes, and needed these splits; a rule went on with one branch; or a rule
/// split it, and the second side waits at this place.
#[derive(Debug, Drop)]
pub enum Turned {
    Stuck,
    Closes(Vec<u64>),
    Alone,
    Splits(u64),
}

/// The branch that is worked on, the second sides that wait, each at its place among them, and the steps.
pub trait Work {
    /// The branch, the branches that wait, how many there are, the fresh symbols, and the steps.
    ghost state: { Self → State };

    /// What holds between calls.
    ghost holds: { Self → Type 0 };

    /// What a later work keeps of an earlier one.
    ghost follows: { Self → Self → Type 0 };

    /// Takes the turn with this number, and notes its step.
    fn turn(&mut self, alloc: Global, number: u64) -> Result<Turned, Memory>
        requires { holds self.old }
        ensures holds { OnOk result (holds self.new) }
        ensures follows { OnOk result (follows self.old self.new) }
        ensures tells { IfOk result (λ t. Tells number (state self.old) (state self.new) t) }
        ensures keeps { OnOk result (Keeps (state self.old).count (state self.old) (state self.new)) };

    /// Works on the branch that waits at this place, the second side of the split with this number, and says
    /// so in the step of the closing before. The branches that wait before it stay.
    fn reopen(&mut self, alloc: Global, at: u64, number: u64) -> Result<(), Memory>
        requires holds { holds self.old }
        requires within { at < (state self.old).count }
        ensures holds { OnOk result (holds self.new) }
        ensures follows { OnOk result (follows self.old self.new) }
        ensures branch { OnOk result ((state self.new).now ≡ (state self.old).waits at) }
        ensures keeps { OnOk result (Keeps at (state self.old) (state self.new)) }
        ensures resumes { OnOk result (Resumes number (state self.old).moves (state self.new).moves) };

    /// A work keeps what it has.
    ghost keeps_all: { (x : Self) → follows x x };

    /// What is kept is kept on.
    ghost keeps_on: { (x y z : Self) → follows x y → follows y z → follows x z };
}
