//! Expressions as shared nodes (hash consing): equal expressions have one index.
//!
//! To the layers above this crate promises a bank of nodes that contracts see as the list of their trees, in which equal trees
//! have one index and no later call changes what an index means, on Ok and on Err alike. [`Bank::intern`] gives the index of an
//! expression, [`Bank::make`] that of a node over indices, [`Bank::inst`] that of a body with a closed term put in for its one
//! loose variable. A node is found along the chain of its bucket, and the buckets double, so a look-up is near constant time;
//! putting in visits only the nodes that have the variable. No walk recurses: a term may be as deep as memory holds.
#![tactic(auto)]

mod bank;
mod find;
mod grow;
mod inst;
mod intern;
mod marks;
mod needs;
mod node;
mod reach;
mod touched;

pub use bank::Bank;
pub use node::BankNode;
