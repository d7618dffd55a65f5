//! The sequent calculus: what a derivation is, proofs as flat lists, and the instances of the schemas.
//!
//! A sequent is two lists of closed expressions. To the layers above this crate promises
//! - the definitions of the 22 rules and 22 schemas, of a correct proof tree for a sequent, and of derivable sequents;
//! - that a derivable sequent stays so with more formulas on either side, and under every map from symbols to expressions,
//!   and that what a correct step brings in by a schema is the schema's closed instance;
//! - `SeqProof`, a proof kept as its table of expressions and its steps, which contracts see as these two lists; the proof
//!   tree that they stand for is a definition over them;
//! - `instance_of`, the closed instance of a schema, or None exactly where there is none.
#![tactic(auto)]

mod instance;
mod laws;
mod lists;
mod literal;
mod proof;
mod row;
mod schema;
mod tuple;

pub use instance::instance_of;
pub use laws::{closed_instances, closedness, flat_example, substitution, weakening};
pub use lists::{ProofNode, ProofStep};
pub use proof::SeqProof;
