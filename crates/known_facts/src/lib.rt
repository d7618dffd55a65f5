//! Contexts of proofs: the known facts, which of them are usable, the usable definitions and the goal.
//!
//! To the layers above this crate promises that a [`Context`] changes as the definition of contexts says: facts of steps and of
//! statements are told, USE and HIDE make them usable or not, and a subproof's are taken off again; that [`fact_of`] and [`picked`]
//! are the fact of a statement and what PICK shows; and that a [`Table`] unfolds the definitions of the modules, and says which
//! formulas are temporal once they are unfolded; and that [`implication`], [`membership`] and the readers of [`Quantifier`] give the
//! parts of a formula that has such a form.
#![tactic(auto)]

mod context;
mod fact;
mod form;
mod item;
mod known;
mod table;

pub use context::{Context, Saved};
pub use fact::Fact;
pub use form::{implication, membership};
pub use item::{Item, NewSymbol, Quantifier, Statement, fact_of, picked};
pub use table::Table;
