//! Steps of proofs in code: what a step does to the context, and which leaves it gives.
//!
//! To the layers above this crate promises that a step changes the [`known_facts::Context`] and gives leaves exactly as the
//! definitions of proof contexts say, and that a step's own proof is answered in the context inside of that step: [`make`] for a step
//! without a proof of its own; [`enter`], [`leave`] and [`conclude`] around the proof of one that has it; [`missing`], [`omitted`],
//! [`obvious`] and [`by_facts`] for a proof without steps.
#![tactic(auto)]

mod entering;
mod goal;
mod making;
mod proof;
mod step;

pub use entering::{Entered, conclude, enter, leave};
pub use making::make;
pub use proof::{by_facts, missing, obvious, omitted};
pub use step::{Claim, Move};
