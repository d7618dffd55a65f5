//! What jobs come to, what proves them, and the proofs that an earlier run kept.
//!
//! To the layers above this crate promises the verdict of a job, which a proved one has with its proof, the trait of what proves jobs,
//! [`Prover`], and a cache, of which a contract sees for each canonical form the proofs of its records in order. A cache that has kept
//! records one after another has for each form exactly the proofs of its records (`Keeps` of `specs/Records.antt`).
#![tactic(auto)]

mod cache;
mod limit;
mod prover;
mod record;
mod verdict;

pub use cache::Cache;
pub use limit::Limit;
pub use prover::Prover;
pub use record::Record;
pub use verdict::Verdict;
