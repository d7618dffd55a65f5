//! Tests of the proofs of forms that the search proves, by the checker. They are kept in a crate of their own since each test is
//! proved too. It has no public items.
#![tactic(auto)]

#[cfg(test)]
mod proved;
