//! One job for each different canonical form.
//!
//! To the layers above this crate promises the jobs of a run in order of their first leaf, and for each leaf its job and its own names.
#![tactic(auto)]

mod jobs;
mod numbering;

pub use jobs::Plan;
pub use numbering::plan;
