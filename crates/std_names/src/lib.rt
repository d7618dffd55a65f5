//! The tables of the language that are fixed: the precedences of the operators and the names of the library modules.
//!
//! To the layers above this crate promises that each look-up gives exactly the row of the table, and None exactly where
//! the table has no such row. Nothing here takes memory.
#![tactic(auto)]

mod libraries;
mod operators;

pub use libraries::{is_library, library};
pub use operators::{Fix, operator};

#[cfg(test)]
mod tests;
