//! Flat lists of numbers for obligations and proofs.
//!
//! To the layers above this crate promises: [`read_canon`] and [`read_proof`] read exactly the lists that are how an obligation
//! or a proof is written (`specs/Texts.antt`, `written` of the calculus), and give what the list stands for; any other list is
//! refused at the first index such that no such list goes on with the numbers up to and with it, at the length where it only
//! ends early. [`key`] is the key of a list. Different values are written differently, a law of `laws`.
//! A format is a reader that is made of readers of its parts (`specs/Readers.antt`); what is proved once of how readers follow
//! one another (`proofs/Good.antt`) gives the first bad index of each. A list is read in one pass over its numbers, and a
//! count takes no memory before what it counts is there.
#![tactic(auto)]

mod cursor;
mod digest;
mod fault;
mod frames;
mod free;
mod laws;
mod operands;
mod parts;
mod read;
mod shape;
mod steps;
mod table;

pub use digest::key;
pub use fault::TextFault;
pub use laws::{obligations_differ, proofs_differ};
pub use read::{read_canon, read_proof};
