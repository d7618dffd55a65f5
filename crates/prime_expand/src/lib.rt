//! Core forms and priming: the core of an expression and of its prime, made together.
//!
//! To the layers above this crate promises that [`to_core`] gives the core of an expression of a module that `specs/Core.antt`
//! defines, or that of the expression primed, and [`body_of`] the symbol and the body of a definition; only want of memory is free.
//! The walk (`walk`) is a loop over tasks that wait on a list, each of which takes the last cores that were made and puts one in
//! their place (`specs/Walk.antt`): nothing recurses on the depth of the text, nor on how definitions of a LET use one another.
//! Names stand for what is bound where they stand (`env`); nodes are made of the cores of their parts (`both`, `parts`, `forms`,
//! `operators`, `symbols`). Laws of the definition are in `laws`.
#![tactic(auto)]

mod both;
mod env;
mod expand;
mod forms;
mod laws;
mod operators;
mod parts;
mod symbols;
mod task;
mod walk;

pub use both::Both;
pub use expand::{body_of, to_core};
pub use laws::{constants_are_own_primes, cores_are_scoped};
