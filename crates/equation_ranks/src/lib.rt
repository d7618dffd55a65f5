//! The closing of a branch, and the ranks replace and rewrite of the written search, over shared nodes.
//!
//! To the layers above this crate promises functions of a branch and the bank of its formulas, each equal to what the
//! search's definition does with that branch. A partner of a formula is looked up by its index: no entry is compared with the
//! older ones. Each walk over the entries may start at a position before which nothing fits.
#![tactic(auto)]

mod closing;
mod found;
mod partners;
mod replacing;
mod rewriting;

pub use closing::{close, close_from, closes_at};
pub use replacing::{Replacement, Sides, replace_from, replace_rank};
pub use rewriting::{rewrite_from, rewrite_rank};
