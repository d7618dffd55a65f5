//! Walks over shared terms: whether a term occurs in another, and putting terms in for others.
//!
//! To the layers above this crate promises that each walk answers what the definition says of the trees, takes each shared
//! node once, and recurses nowhere: a term may be as deep as memory holds.
#![tactic(auto)]

mod marks;
mod places;
mod putting_in;
mod replacing;
mod seeking;
mod touched;

pub use marks::keep;
pub use places::first_apart;
pub use putting_in::moved;
pub use replacing::replace;
pub use seeking::occurs;
