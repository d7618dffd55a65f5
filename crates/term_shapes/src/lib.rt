//! The forms of terms, over shared nodes.
//!
//! To the layers above this crate promises a typed view of the nodes of a bank: [`shape_at`] says of which form the tree at an
//! index is, with the indices of its parts, [`make`] gives the index of the tree of a form over indices, and [`seek`] finds it
//! where it is there, in near constant time. What a form says is the tree of its constructor over the trees of its parts, so a
//! definition by cases on trees computes in each arm of a match. [`build`] puts a whole term in, written as a table of forms.
#![tactic(auto)]

mod cell;
mod form;
mod read;
mod shape;
mod table;

pub use form::{make, seek};
pub use read::{head_at, parts_at, shape_at};
pub use shape::Shape;
pub use table::{build, grow};
