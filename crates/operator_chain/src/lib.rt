//! Chains of operands and operators.
//!
//! To the layers above this crate promises the reading of a chain: it is the one right tree of the chain, and where there is
//! none the place of the first operator up to which there is none.
#![tactic(auto)]

mod chain;
mod stack;

pub use chain::{Ending, Operator, Piece, Suffix, first_fault, one_right_tree};
pub use stack::{plain, tree};
