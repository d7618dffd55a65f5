//! The steps of a search as code keeps them: formulas and terms by their numbers in a bank of shared nodes.
//!
//! To the layers above this crate promises a list of turns that contracts read, over the trees of the bank, as the list of
//! steps of the search's definition. The search writes it, and the translation into sequent proofs reads it.
#![tactic(auto)]

mod turn;

pub use turn::{Added, Turn, Used};
