//! Tests of proofs as flat lists.
ghost use Rattle.std.specs.Prelude.{◌≡◌, [], IfOk};
ghost use Rattle.seq_calculus.specs.Example.{two_steps};

use core_expr::Memory;
use seq_calculus::{ProofNode, ProofStep, SeqProof, flat_example};
use sqlite_items::Items;
use std::alloc::Global;
use std::test::Fail;

/// The table with A alone, the first symbol of a canonical form.
fn table(alloc: Global) -> Result<Vec<ProofNode>, Memory>
    ensures { IfOk result (λ v. v.items ≡ (two_steps 12).nodes) }
{
    let node = ProofNode {
        head: 6,
        numbers: Items::from_slice(alloc, &[0, 0])?,
        parts: Items::new(alloc),
    };
    let nodes = vec![in alloc; node]?;
    Ok(nodes)
}

/// A step with this rule, these expressions and these premises, and no numbers.
fn step(alloc: Global, rule: u64, exprs: &[u64], premises: &[u64]) -> Result<ProofStep, Memory>
    ensures { IfOk result (λ s. s ≡ record { rule = rule; numbers = []; exprs = exprs.now; premises = premises.now }) }
{
    let exprs = Items::from_slice(alloc, exprs)?;
    let premises = Items::from_slice(alloc, premises)?;
    Ok(ProofStep {
        rule,
        numbers: Items::new(alloc),
        exprs,
        premises,
    })
}

/// The axiom with A, and over it the rule for `=>` on the right with A twice.
fn steps(alloc: Global) -> Result<Vec<ProofStep>, Memory>
    ensures { IfOk result (λ v. v.items ≡ (two_steps 12).steps) }
{
    let axiom = step(alloc, 0, &[0], &[])?;
    let root = step(alloc, 12, &[0, 0], &[0])?;
    let steps = vec![in alloc; axiom, root]?;
    Ok(steps)
}

/// The proof of `A => A`.
fn proof(alloc: Global) -> Result<SeqProof, Memory>
    ensures { IfOk result (λ p. p ≡ two_steps 12) }
{
    let nodes = table(alloc)?;
    let steps = steps(alloc)?;
    flat_example();
    Ok(SeqProof::of(nodes, steps))
}

#[test]
fn a_proof_shows_its_nodes(rt: HostRuntime) -> Result<(), Fail> {
    let proof = proof(rt.alloc())?;
    let [node] = proof.nodes() else {
        assert!(rt; false, "one node");
        return Ok(());
    };
    assert_eq!(rt; node.head, 6);
    assert_eq!(rt; node.numbers.as_slice(), [0, 0].as_slice());
    assert!(rt; node.parts.is_empty());
    Ok(())
}

#[test]
fn a_proof_shows_its_steps(rt: HostRuntime) -> Result<(), Fail> {
    let proof = proof(rt.alloc())?;
    let [axiom, root] = proof.steps() else {
        assert!(rt; false, "two steps");
        return Ok(());
    };
    assert_eq!(rt; [axiom.rule, root.rule], [0, 12]);
    assert_eq!(rt; root.exprs.as_slice(), [0, 0].as_slice());
    assert_eq!(rt; root.premises.as_slice(), [0].as_slice());
    assert!(rt; axiom.premises.is_empty());
    Ok(())
}
