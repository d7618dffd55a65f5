//! Proof contexts, the leaves of proofs, and their derivations joined.
//!
//! A proof by steps is plain data here, over core formulas. The definitions say what is known where a step stands, which leaves a
//! proof has, each with its obligation and its canonical form, and what a theorem is reported as. To the layers above this crate
//! promises that a theorem that is reported proved has a derivation of its fully expanded fact from the fully expanded assumptions
//! before it alone ([`reported_derives`]), and what that rests on: the other laws.
#![tactic(auto)]

mod laws;
mod leaf;

pub use laws::{canon_goes_back, expansion_is_final, reported_derives};
pub use leaf::{Leaf, LeafKind};
