//! The ranks of the written search that look at values of formulas on the branch.
//!
//! To the layers above this crate promises the rank settle, and the search for the oldest live entry that settle, take up or
//! term split fits, each as the search's definition has it. The search begins at a position before which no entry fits, and
//! tells such a position for the next time.
#![tactic(auto)]

mod oldest_entry;
mod settling;
mod side;

pub use oldest_entry::{ValueRank, position, rank_from};
pub use settling::settle;
