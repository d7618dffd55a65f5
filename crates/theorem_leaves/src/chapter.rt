//! Theorems with the leaves of their proofs.

use core_expr::Text;
use proof_contexts::Leaf;
use sqlite_items::Items;
use tla_ast::Place;

/// A theorem with the leaves of its proof.
#[derive(Debug, Drop)]
pub struct TheoremLeaves {
    /// The number by which the theorem is cited; of a theorem without a name a number that nothing cites.
    pub key: u64,
    /// Its name, if it has one.
    pub name: Option<Text>,
    /// The place of its word THEOREM.
    pub place: Place,
    /// The keys of the theorems that its proof cites in BY and USE, in the order of the text.
    pub cited: Items<u64>,
    /// The leaves of its proof, in the order of the report.
    pub leaves: Items<Leaf>,
}

/// A module with its theorems.
#[derive(Debug, Drop)]
pub struct Chapter {
    /// The module's name.
    pub name: Text,
    /// Its theorems, in the order of the text.
    pub theorems: Items<TheoremLeaves>,
}
