//! One node of an expression.
use crate::head::{Binder, Head, Sym};
use sqlite_items::Items;

/// What a node of an expression is, but for its numbers and its parts.
#[derive(Clone, Copy, Debug, PartialEq, Eq, Hash)]
pub enum RowKind {
    /// A bound variable; its index is the node's only number.
    Bound,
    /// A symbol applied to the parts.
    Symbol(Sym),
    /// A head that binds nothing.
    Plain(Head),
    /// A head whose last part stands under one binder.
    Binding(Binder),
}

/// One node of an expression. The nodes of its parts stand before it.
#[derive(Debug, Drop)]
pub struct Row {
    /// What the node is.
    pub kind: RowKind,
    /// Its numbers, as the table of heads has them: an index, two halves of a number, a length and bytes, a count.
    pub numbers: Items<u64>,
    /// How many parts it has.
    pub parts: u64,
    /// How many binders of the whole expression it stands under.
    pub depth: u64,
}
