//! The loop of the written search over any work that tells its turns.
//!
//! To the layers above this crate promises that [`search`] ends as the definition's `run` does and that the steps that the
//! work notes are the definition's `moves`, whatever the work is: a [`Work`] only tells that a turn was the definition's own
//! on its branch, and that the branches that wait stay. The loop keeps the open splits, their needs and what is dropped.
//! A set of needs is a falling list, so whether the latest split is in it is seen at its front.
#![tactic(auto)]

mod frames;
mod run;
mod sets;
mod work;

pub use frames::{Frame, Resumed, Step};
pub use run::{Ending, Round, search};
pub use sets::{Taken, union};
pub use work::{Turned, Work};
