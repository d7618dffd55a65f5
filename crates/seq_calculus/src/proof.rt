//! A proof that is kept as lists.
ghost use Rattle.std.specs.Prelude.{◌≡◌};
ghost use Rattle.seq_calculus.specs.Lists.{AreLists};

use crate::lists::{ProofNode, ProofStep};
use std::marker::Model;

/// A proof, kept as its table of expressions and its steps. The last step is the root.
#[derive(Drop)]
pub struct SeqProof {
    nodes: Vec<ProofNode>,
    steps: Vec<ProofStep>,
}

impl Model for SeqProof {
    ghost use Rattle.seq_calculus.specs.Lists.{Lists, AreLists, lists_code};

    ghost Value = { Lists };

    ghost coded = { lists_code };

    ghost view = { λ p. record { nodes = p.nodes.items; steps = p.steps.items } };

    ghost invariant = { λ p. AreLists (record { nodes = p.nodes.items; steps = p.steps.items }) };
}

impl SeqProof {
    /// The proof of this table and these steps. They are such that a proof may have them: each node and each step has the
    /// numbers and parts that its head or rule has, each index is below its own, and no step is a premise of two places.
    pub fn of(nodes: Vec<ProofNode>, steps: Vec<ProofStep>) -> SeqProof
        requires { AreLists (record { nodes = nodes.items; steps = steps.items }) }
        ensures { result ≡ record { nodes = nodes.items; steps = steps.items } }
    {
        SeqProof { nodes, steps }
    }

    /// The table of expressions.
    pub fn nodes(&self) -> &[ProofNode]
        ensures nodes { result.now ≡ self.now.nodes }
        ensures lists { AreLists self.now }
    {
        self.nodes.as_slice()
    }

    /// The steps, the root last.
    pub fn steps(&self) -> &[ProofStep]
        ensures steps { result.now ≡ self.now.steps }
        ensures lists { AreLists self.now }
    {
        self.steps.as_slice()
    }
}
