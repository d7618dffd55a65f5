//! The top call: from the words of the command and the modules to the report.
//!
//! To the program this crate promises [`run`], whose clauses are the product's claims for all words, all modules that are read and every
//! number of workers, and the number and the text of each status.
#![tactic(auto)]

mod jobs;
mod kept;
mod laws;
mod load;
mod status;
mod steps;
mod top;

pub use status::Status;
pub use tla_ast::{Kind, Place};
pub use top::run;
pub use worker_map::{Gate, Through};
