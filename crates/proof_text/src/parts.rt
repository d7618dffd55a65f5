//! The numbers and indices of a node or a step.
use sqlite_items::Items;

/// The numbers of a node or a step, and its indices in the table.
#[derive(Debug, Drop)]
pub struct Operands {
    pub numbers: Items<u64>,
    pub indices: Items<u64>,
}
