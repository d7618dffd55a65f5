//! The nodes and the steps of a proof that is kept as lists.
use sqlite_items::Items;

/// A node of a proof's table of expressions.
#[derive(Debug, Drop)]
pub struct ProofNode {
    /// The number of its head, from 0 to 32.
    pub head: u64,
    /// Its numbers: a Num's high and low 64 bits, a Str's length and bytes, a bound variable's index, a symbol's number and
    /// arity, an Enum's or a Tuple's count.
    pub numbers: Items<u64>,
    /// The indices of its parts in the table, each below its own.
    pub parts: Items<u64>,
}

/// A step of a proof.
#[derive(Debug, Drop)]
pub struct ProofStep {
    /// The number of its rule, from 0 to 21.
    pub rule: u64,
    /// For weakening the lengths of its two lists; for a schema its row, its number and how many parameters it has; else none.
    pub numbers: Items<u64>,
    /// The indices of its expressions in the table.
    pub exprs: Items<u64>,
    /// The indices of the steps that prove its premises, each below its own.
    pub premises: Items<u64>,
}
