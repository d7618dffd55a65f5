//! What a cache gives for a canonical form.
//!
//! To the layers above this crate promises [`hit`], which gives the first proof that is kept for a canonical form and is correct for it,
//! and none exactly where no kept proof is. Nothing that a cache holds is believed: each proof is checked. What it is to be correct is said by a
//! test that computes (`specs/Correctness.antt`), which says the same as the calculus ([`correct_is_tested`]).
#![tactic(auto)]

mod copies;
mod laws;
mod lookup;

pub use copies::copy;
pub use laws::{correct_is_tested, hit_is_correct};
pub use lookup::hit;
