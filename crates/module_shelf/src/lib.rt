//! The modules of a run, from a shelf.
//!
//! To the layers above this crate promises that [`load`] gives exactly the modules that the definition of `specs/Loading.antt`
//! loads from the folder that the shelf tells, or says exactly why the loading stops; that each module stands behind all that it
//! extends, no two with one name and the root last; and that a read fault comes only where the shelf failed. Recursion is at most
//! 64 deep; lists of extended modules are loops.
#![tactic(auto)]

mod fault;
mod loader;
mod read;
mod walk;

pub use fault::LoadFault;
pub use loader::load;
