//! Flat sequent proofs, written step by step.
//!
//! To the layers above this crate promises a [`Writer`] that contracts see as its expressions by number and the proof trees
//! of its open steps, the latest first. [`Writer::infer`] puts a rule over the latest of them, so no layer above knows the
//! numbers of steps; [`Writer::finish`] gives the proof, whose proof tree is the latest open one.
#![tactic(auto)]

mod fields;
mod inference;
mod table;
mod writer;

pub use inference::Inference;
pub use writer::Writer;
