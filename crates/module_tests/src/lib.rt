//! Tests of the reader of modules with ample memory, as tables of texts with the tree or the refusal. They are kept in a crate of
//! their own since each test is proved too. It has no public items.
#![tactic(auto)]

#[cfg(test)]
mod dump;
#[cfg(test)]
mod modules;
