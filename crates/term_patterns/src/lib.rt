//! Patterns of replacements over shared nodes.
//!
//! To the layers above this crate promises [`pattern`]: a term with one loose variable for each occurrence of another, as
//! `specs/Abstracted.antt` has it. Each node is looked at once for each number of binders above it, and no walk recurses.
#![tactic(auto)]

mod abstracting;
mod images;
mod spots;
mod tasks;

pub use abstracting::pattern;
