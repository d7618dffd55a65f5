//! What is left to do.

/// A task of the walk that rebuilds an expression.
#[derive(Clone, Copy, Debug)]
pub enum Task {
    /// To rebuild the subtree at a node, under so many binders.
    Visit { node: u64, depth: u64 },
    /// To put a node over its parts, which were built last.
    Join { node: u64 },
}
