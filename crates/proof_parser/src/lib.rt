//! The reader of modules.
//!
//! To the layers above this crate promises that [`read_module`] gives exactly the module that the tokens are read as by the
//! definition of `specs/Modules.antt`, or exactly its fault; and, as laws on that definition, that what is read is what the tokens
//! spell, in order, up to the end token, and that a fault stands at a token of the list. Recursion is bounded by the nestings;
//! lists of units, steps, facts and names are loops.
#![tactic(auto)]

mod clause;
mod fact;
mod kind;
mod laws;
mod name;
mod proof;
mod reader;
mod unit;

pub use laws::{faults_stand_in_the_list, read_in_order};
pub use reader::read_module;
