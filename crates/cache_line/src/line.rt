//! The parts of a line.
use core_expr::Text;
use sqlite_items::Items;

/// The parts of a line: the values of its keys `k`, `o` and `p`.
#[derive(Drop)]
pub struct Line {
    /// A text.
    pub key: Text,
    /// Whole numbers below 2^64.
    pub obligation: Items<u64>,
    /// Whole numbers below 2^64.
    pub proof: Items<u64>,
}
