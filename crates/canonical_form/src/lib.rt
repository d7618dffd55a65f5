//! Canonical forms of obligations.
//!
//! To the layers above this crate promises that [`canon`] gives the canonical form of an obligation: its different facts and its
//! goal, where the definitions are unfolded and the symbols are numbered by first occurrence in prefix order over the facts and
//! then the goal, with the symbol of each number. So two leaves that differ in names alone have one canonical form. [`symbols_from_goal`]
//! gives the different symbols of a canonical form, those of its goal first.
#![tactic(auto)]

mod form;
mod gather;
mod pairs;

pub use form::{Named, canon};
pub use gather::symbols_from_goal;
