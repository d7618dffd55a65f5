//! Tests of the loading of modules with ample memory, as a table of shelves with the modules in their order, or why the loading
//! stops. They are kept in a crate of their own since each test is proved too. It has no public items.
#![tactic(auto)]

#[cfg(test)]
mod shelves;
