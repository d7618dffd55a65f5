//! Flat lists of numbers of obligations and proofs, written.
//!
//! To the layers above this crate promises:
//!
//! - [`write_canon`] gives the list of the obligation that stands for a canonical form, over a table that has each different node of
//!   its facts and then its goal once, in order of completion from left to right (`specs/Tables.antt`). [`canon_is_shown`] says that
//!   what is written is read back.
//! - [`write_proof`] gives the list of a proof's tree: its steps in order of completion from left to right, over a table that has each
//!   different node of their expressions once, in the order in which the steps have them (`specs/Proofs.antt`). So it is a matter of
//!   the tree alone ([`alike_if_same`]), and [`proof_is_shown`] says that it is read back as a proof with that tree.
//!
//! Writing a canonical form takes expected linear time in the nodes of its expressions, writing a proof in its nodes and steps with
//! the numbers that they have, and neither takes a stack.
#![tactic(auto)]

mod canon;
mod laws;
mod node;
mod proof;
mod shared;
mod step;
mod table;
mod task;

pub use canon::write_canon;
pub use laws::{alike_if_same, canon_is_shown, proof_is_shown};
pub use proof::write_proof;
