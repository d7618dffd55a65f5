//! Theorems with the leaves of their proofs, from the syntax of the modules.
//!
//! Each expression is read as its core, and each name as the number that it means ([`Home`]); so a written step is a step over cores,
//! and a proof is walked step by step, in the context of what is known where a step stands. To the layers above this crate promises
//! that [`chapters`] gives each theorem of the modules with its leaves and with the theorems that its proof cites, exactly those that
//! the definitions of usable facts and of proof contexts say; and that these are told of the theorems of the modules, one after
//! another ([`chapters_report`]). Want of memory is the only free answer.
#![tactic(auto)]

mod chapter;
mod citations;
mod definition;
mod fact;
mod home;
mod key;
mod keys;
mod laws;
mod modules;
mod number;
mod statement;
mod step;
mod unit;
mod units;
mod walk;

pub use chapter::{Chapter, TheoremLeaves};
pub use laws::chapters_report;
pub use modules::chapters;
