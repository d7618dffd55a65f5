//! Tests of expressions as shared nodes, of obligations and of truth values with ample memory. They are kept in a crate of their
//! own since each test is proved too. It has no public items.
#![tactic(auto)]

#[cfg(test)]
mod banks;
#[cfg(test)]
mod formulas;
#[cfg(test)]
mod unfolding;
