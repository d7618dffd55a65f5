//! The branch that is worked on, and branches that wait: entries with their needs over a book, without a copy of a branch.
//!
//! To the layers above this crate promises that [`Parts`] can be seen as lists (`specs/Shown`): the entries of the branch by
//! age, each with its set of needs; the branches that wait; and the sets. Each change says what the lists are after it.
//! Formulas are numbers, and a class is a number below 68. Putting a branch off and coming back to it cost what was added
//! since.
#![tactic(auto)]

mod parts;
mod reads;

pub use parts::{
    New, Parts, Waiting, add, add_all, empty, keep_set, kill, put_off, raise, reopen, use_entry,
};
pub use reads::{entry, find, first, has, length, needs_of, next, waits};
