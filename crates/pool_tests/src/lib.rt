//! Tests of the pool machine and of the claim board with ample memory. They are kept in a crate of their own since each test is
//! proved too. It has no public items.
#![tactic(auto)]

#[cfg(test)]
mod board;
#[cfg(test)]
mod machine;
