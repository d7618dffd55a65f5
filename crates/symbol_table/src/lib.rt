//! The table of names: what was declared, by number, and for each module which declaration a name in it means.
//!
//! Name resolution fills the table and everything above reads it. An [`Entry`] is a declaration, with its sort, arity, level and
//! primed parameters. A [`Symbols`] belongs to one module and gives the number that the name at a place means: the first that was
//! noted there. A [`Scoped`] is the whole table.
#![tactic(auto)]

mod entry;
mod scoped;
mod symbols;

pub use entry::{Entry, EntrySort};
pub use scoped::Scoped;
pub use symbols::Symbols;
