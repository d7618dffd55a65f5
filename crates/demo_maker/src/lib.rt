//! The text of a demonstration: a module of so many theorems about chains of implications.
//!
//! To the program this crate promises that [`demo`] gives the text that `specs/Demo.antt` defines. The theorem with the number i is
//! about a chain of i mod 50 + 1 implications; where 10 divides i it asks for the wrong direction, so that it has no proof.
#![tactic(auto)]

mod parts;
mod whole;

pub use whole::demo;
