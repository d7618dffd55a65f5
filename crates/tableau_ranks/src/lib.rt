//! The closing of a branch and the twelve ranks of the written search, over one memo.
//!
//! To the layers above this crate promises [`search`], which ends as the written search does on an obligation and tells its
//! steps, and [`TableauRanks`], the ranks that it works with: the formulas by number, the closing of a branch, and what the
//! rule of each rank gives on it, each as the search's definition has it. Where a rank takes the oldest entry that its rule
//! fits, it begins at a position before which none fits, and moves that on.
#![tactic(auto)]

mod by_entry;
mod by_value;
mod closing;
mod instances;
mod outcome;
mod ranks;
mod rewriting;
mod starts;
mod state;

pub use outcome::search;
pub use state::TableauRanks;
