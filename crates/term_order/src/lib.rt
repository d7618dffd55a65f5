//! Orders of shared terms: the closed subterms of a term in prefix order, and which of two terms is less.
//!
//! To the layers above this crate promises the closed subterms each at its first place in prefix order, which is enough to find
//! the first for which a test answers; and the order of terms by size and then by prefix code, along one path. No walk recurses.
#![tactic(auto)]

mod codes;
mod lesser;
mod marks;
mod sizes;
mod subterms;

pub use lesser::less;
pub use sizes::Sizes;
pub use subterms::closed_subterms;
