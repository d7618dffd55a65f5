//! What is declared.

use core_expr::Text;
use sqlite_items::Items;

/// What a declared name is.
#[derive(Clone, Copy, Debug, PartialEq, Eq)]
pub enum EntrySort {
    /// A declared constant, or a NEW CONSTANT of a statement.
    Constant,
    /// A variable, or a NEW VARIABLE or NEW STATE of a statement.
    State,
    /// A name or sign of a library other than TLAPS.
    Library,
    /// A definition of a module, of a LET or of a proof.
    Definition,
    /// A bound name or a parameter.
    Bound,
    /// The name of an assumption.
    Assume,
    /// The name of a theorem.
    Theorem,
    /// A name of the library TLAPS.
    Pragma,
}

/// What a name means.
#[derive(Debug, Drop)]
pub struct Entry {
    pub name: Text,
    pub sort: EntrySort,
    /// The number of its parameters.
    pub arity: u64,
    /// 0 for a constant, 1 for a state function, 2 for an action, 3 for a temporal formula.
    pub level: u64,
    /// For each parameter, whether the definition primes it.
    pub primed: Items<bool>,
}
