//! The level of an expression, and which parameters a definition primes.
//!
//! [`Levels`] keeps what each declared number has: a level, or a function of the levels of its arguments. Name resolution fills it
//! as it goes and asks it for the level of each expression with the places of its faults. What a definition has is worked out
//! once, from its body, as a weight that is linear in its parameters; no body is looked into again.
#![tactic(auto)]

mod form;
mod known;
mod levels;
mod names;
mod walk;
mod weight;

pub use levels::{Defined, Judged, Levels};
