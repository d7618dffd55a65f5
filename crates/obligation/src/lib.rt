//! Proof obligations: facts, a goal, and the definitions that may be unfolded.
//!
//! To the layers above this crate promises that [`unfold`] puts the bodies of definitions in for their symbols, the last
//! definition first, so that none of the symbols is left where each body mentions earlier definitions alone (the contract of
//! [`none_is_left`]), and that [`Obligation::copy`] gives an equal obligation.
#![tactic(auto)]

mod law;
mod obligation;
mod unfolding;

pub use law::none_is_left;
pub use obligation::{Definition, Obligation};
pub use unfolding::unfold;
