//! Plans.
use core_expr::{Canon, Sym};
use indexmap::IndexSet;
use sqlite_items::Items;

/// The jobs of a run, and each leaf's job and names.
#[derive(Drop)]
pub struct Plan {
    /// The different canonical forms, in order of their first leaf.
    pub jobs: Vec<Canon>,
    /// The number of each leaf's job.
    pub of_leaf: Vec<u64>,
    /// Each leaf's own symbol for each number of its canonical form.
    pub names: Vec<Items<Sym>>,
}

/// A plan whose jobs stand in a set.
#[derive(Drop)]
pub struct Numbered {
    pub jobs: IndexSet<Canon>,
    pub of_leaf: Vec<u64>,
    pub names: Vec<Items<Sym>>,
}
