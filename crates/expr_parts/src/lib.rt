//! Expressions taken apart, symbols bound, and arguments put into bodies.
//!
//! To the layers above this crate promises that [`part`] and [`parts`] give the parts of the root, [`abstracted`] the body of a binder whose
//! variable stands for a symbol, and [`over_arguments`] a body with arguments for its loose variables. The walks are loops over tasks
//! that wait on a list, so a deep expression takes no stack.
#![tactic(auto)]

mod change;
mod rebuild;
mod task;

pub use change::Change;
pub use rebuild::{abstracted, over_arguments, part, parts};
