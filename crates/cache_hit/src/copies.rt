//! Copies of proofs.
ghost use Rattle.std.specs.Prelude.{◌≡◌, IfOk};

use core_expr::Memory;
use seq_calculus::{ProofNode, ProofStep, SeqProof};
use sqlite_items::Items;
use std::alloc::Global;

/// A copy of the numbers.
fn numbers(alloc: Global, of: &Items<u64>) -> Result<Items<u64>, Memory>
    ensures { IfOk result (λ r. r ≡ of.now) }
{
    Ok(Items::from_slice(alloc, of.as_slice())?)
}

/// A copy of a table.
fn table(alloc: Global, nodes: &[ProofNode]) -> Result<Vec<ProofNode>, Memory>
    ensures { IfOk result (λ v. v.items ≡ nodes.now) }
{
    let mut copied = Vec::new(alloc);
    for node in nodes {
        copied.push(ProofNode {
            head: node.head,
            numbers: numbers(alloc, &node.numbers)?,
            parts: numbers(alloc, &node.parts)?,
        })?;
    }
    Ok(copied)
}

/// A copy of steps.
fn steps(alloc: Global, of: &[ProofStep]) -> Result<Vec<ProofStep>, Memory>
    ensures { IfOk result (λ v. v.items ≡ of.now) }
{
    let mut copied = Vec::new(alloc);
    for step in of {
        copied.push(ProofStep {
            rule: step.rule,
            numbers: numbers(alloc, &step.numbers)?,
            exprs: numbers(alloc, &step.exprs)?,
            premises: numbers(alloc, &step.premises)?,
        })?;
    }
    Ok(copied)
}

/// A copy of a proof. Takes time linear in its lists.
pub fn copy(alloc: Global, proof: &SeqProof) -> Result<SeqProof, Memory>
    ensures { IfOk result (λ p. p ≡ proof.now) }
{
    let nodes = table(alloc, proof.nodes())?;
    let steps = steps(alloc, proof.steps())?;
    Ok(SeqProof::of(nodes, steps))
}
