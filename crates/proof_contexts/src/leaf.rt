//! The leaves of proofs.

use obligation::Obligation;
use tla_ast::Place;

/// What a leaf comes to before any search.
#[derive(Debug, Drop)]
pub enum LeafKind {
    /// Its obligation is to be proved.
    Search(Obligation),
    /// The proof is missing.
    Missing,
    /// The proof is omitted.
    Omitted,
    /// A formula of its obligation is temporal.
    Temporal,
    /// The goal has not the form that the step asks for.
    Shape,
}

/// A leaf of a theorem's proof: what has no proof by steps.
#[derive(Debug, Drop)]
pub struct Leaf {
    /// Where it stands: at OBVIOUS, OMITTED or BY, at the first token of an expression among facts, or at the step.
    pub place: Place,
    /// What it comes to.
    pub kind: LeafKind,
}
