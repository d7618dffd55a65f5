//! What each name of the modules means.
//!
//! To the layers above this crate promises that [`resolve`] gives exactly the table that the definition of
//! `specs/Resolution.antt` gives for the loaded modules, or exactly the fault that it tells; only want of memory is free. The
//! definition is a walk over the units of a module in the order of the text (`specs/Names.antt`), which keeps what is in scope as a
//! list, numbers what is declared, and notes what each name means and each fault; the fault of the least place is told. In the code
//! the scope is a table from names to their newest numbers, so that a name is found, entered and left in near constant time.
//! Operators nest as deep as a text is long and are walked by a loop; the other forms, and proofs, are as deep as the readers let
//! them nest.
#![tactic(auto)]

mod extend;
mod library;
mod modules;
mod names;
mod proof;
mod scope;
mod statement;
mod unit;
mod walker;

pub use modules::resolve;
