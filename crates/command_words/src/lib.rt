//! The words of the command.
//!
//! To the program this crate promises that [`asked`] reads the words as the command of `specs/Words.antt` has them, by `clap`: the
//! module's name, the limit of turns, the number of workers, the number of theorems of a demonstration, whether the first failed leaf ends
//! the run, whether the report is JSON, and the file of a cache; and that it refuses words exactly where they are unlawful. Want of memory is an answer of its own. Words ask for one
//! thing at most ([`asked_once`]).
#![tactic(auto)]

mod command;
mod fault;
mod laws;
mod matched;
mod number;
mod request;

pub use fault::WordsFault;
pub use laws::asked_once;
pub use request::{Request, asked};
