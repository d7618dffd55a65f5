//! The syntax of modules as plain data, on which definitions recurse and evaluate.
//!
//! The trees of the source are read into it by the folds of `specs/Syntax.antt`; the lemmas of `proofs/Forms.antt` say what a
//! node, a group, a definition and a path are, form by form, and are what code above this crate is proved with. A walk over an
//! expression must not recurse from operator to operator, since operators nest as deep as a text is long: [`operator_order`]
//! gives the nodes that operators join, each operator behind its operands, so that a walk is a loop over them.
#![tactic(auto)]

mod order;

pub use order::{is_operator, operator_order};
