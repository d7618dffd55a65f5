//! The engine of the written search: a work for its loop, over any finder of rules, and the finder by ranks.
//!
//! To the layers above this crate promises that [`solve`] ends as the definition's `search` does on an obligation, with its
//! turns, and that the turns are the definition's `steps`, for every [`Finder`]. A finder keeps the formulas by number and says
//! what the definition does with a branch; [`Ranked`] is one for each [`Ranks`], which has a function for closings and one for
//! the rule of each rank. What a finder keeps of the branch at hand is put off and taken up with the branches ([`Memo`]), and
//! need only stay right when a formula is added and when a live entry is used. No branch is copied, and a turn costs what it
//! adds.
#![tactic(auto)]

mod engine;
mod finder;
mod memo;
mod needs;
mod outcome;
mod ranks;
mod steps;
mod turns;

pub use finder::{Closing, Decision, Finder, Found};
pub use memo::Memo;
pub use outcome::{Solved, solve};
pub use ranks::{Ranked, Ranks};
