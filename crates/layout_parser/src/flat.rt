//! What was read of a chain.

use operator_chain::Piece;
use std::collections::VecDeque;
use tla_ast::Fault;

/// A chain of operands and operators as far as it was read.
#[derive(Debug, Drop)]
pub struct Flat {
    pub pieces: VecDeque<Piece>,
    /// The fault at which it breaks off; none where it ends before a token that doesn't go on with it.
    pub fault: Option<Fault>,
}

/// The next step of a chain.
#[derive(Debug, Drop)]
pub enum Step {
    /// A piece, and whether an operand must come after it.
    More(Piece, bool),
    /// The chain ends.
    Ended,
    /// A fault; behind a postfix operator that is not finished, or without one.
    Broken(Option<Piece>, Fault),
}
