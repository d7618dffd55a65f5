//! Proof trees for the steps of the search.
//!
//! To the layers above this crate promises, of what `specs/` defines: the proof tree of each rule of the search is correct
//! over the formulas that the rule names, from proofs of its sides; and the loop over the steps of a search that ended
//! closed, from the last to the first with one mark for each formula, makes a proof tree that is correct for the
//! obligation. The laws are the contracts of functions that do nothing.
#![tactic(auto)]

mod laws;

pub use laws::{loop_proves, rules_are_carried, steps_told};
