//! From the steps of a search that ended closed to a flat sequent proof.
//!
//! To the layers above this crate promises [`translate`]: over any [`RuleProofs`], for each obligation whose search ended
//! closed with the steps that the turns stand for, its proof is correct. It goes through the turns once, from the last to the
//! first, with one mark for each formula, and leaves out rules that add nothing which is used.
#![tactic(auto)]

mod back;
mod fill;
mod marks;
mod news;
mod proof;
mod rules;
mod run;
mod split;
mod state;
mod turn;

pub use proof::translate;
pub use rules::RuleProofs;
