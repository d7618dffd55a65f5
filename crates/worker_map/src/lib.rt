//! The verdicts of all jobs, by so many workers.
//!
//! To the layers above this crate promises that [`run_jobs`] gives each job a verdict that is right for its canonical form, or Memory, and
//! with `stop` leaves out only jobs behind the least failed one, whatever the number of workers; that each job was drawn from the board
//! once; and that what the workers did is what the pool machine accepts. The room for all verdicts is made before the first job is drawn.
#![tactic(auto)]

mod collect;
mod desk;
mod prover;
mod run;
mod table;
mod work;

pub use prover::{Answers, Gate, Jobs, Through};
pub use run::{Done, run_jobs};
pub use work::Worker;
