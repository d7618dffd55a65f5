//! The ranks of the written search, on the branch that is worked on.
//!
//! To the layers above this crate promises functions of a branch by numbers, each equal to the rank of the search's
//! definition on the branch that the numbers stand for. A search for the oldest entry that a rule fits begins at a position
//! before which none fits, and tells such a position for the next time.
#![tactic(auto)]

mod derivation;
mod entry_rank;
mod oldest_entry;
mod standing;

pub use derivation::derive;
pub use entry_rank::{EntryRank, answer};
pub use oldest_entry::{Fitting, oldest};
pub use standing::stands;
