//! The ranks instance and spare of the written search, on the branch that is worked on.
//!
//! To the layers above this crate promises the instance that each of the two ranks adds to a branch by numbers, equal to the
//! rank of the search's definition on the branch that the numbers stand for: by the partners of the atoms of a universal, kind
//! by kind, and by the spare term. The atoms of a universal are listed once, and the live entries are walked by index.
#![tactic(auto)]

mod atoms;
mod entries;
mod fresh_terms;
mod live;
mod partners;
mod ranks;

pub use ranks::{instance_rank, spare_rank};
