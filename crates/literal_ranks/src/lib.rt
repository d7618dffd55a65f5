//! The ranks of the written search that look into literals.
//!
//! To the layers above this crate promises the ranks take up and term split, each as the search's definition has it: the first
//! closed subterm of a literal, in prefix order, that a rank fits decides what the literal gives. A shared subterm is looked
//! at once, and no walk recurses.
#![tactic(auto)]

mod choosing;
mod division;
mod sought;
mod splitting;
mod standing;
mod untaken;

pub use choosing::take_up;
pub use splitting::term_split;
