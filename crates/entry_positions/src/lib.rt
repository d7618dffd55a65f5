//! How far the entries of a branch have been looked at: positions, put off and taken up with the branches.
//!
//! To the layers above this crate promises [`Positions`], numbers for the branch at hand and for those that wait, and the laws
//! of two facts about such a number: no live entry before it is one that a rule fits (`IsPassed`), and no entry before it
//! closes the branch (`IsOpen`). Both stay when formulas are added and entries are used, so each entry is looked at once on
//! each path: the next entry either is passed or is the first answer. The laws are the contracts of functions that do nothing.
#![tactic(auto)]

mod laws;
mod positions;

pub use laws::{
    formula_positional, open_added, open_end, open_found, open_kept, open_next, open_start,
    open_used, passed_added, passed_found, passed_kept, passed_next, passed_none, passed_start,
    passed_used, take_up_positional, term_split_positional,
};
pub use positions::Positions;
