//! The proof trees of the rules that replace terms or rest on values, and the choice of a writer by rule.
//!
//! To the layers above this crate promises [`Rules`], which writes the proof tree of whichever rule a step names over those of its
//! sides, the latest open proofs of a writer, and the proof trees of closings. A replacement goes by a pattern: the formula
//! with one loose variable for a term.
#![tactic(auto)]

mod by_rule;
mod firsts;
mod kinds;
mod replacing;
mod rules;
mod settle;
mod sides;
mod term_split;
mod told;

pub use rules::Rules;
