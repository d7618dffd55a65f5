//! The nodes of a bank as the table of a proof.
ghost use Rattle.std.specs.Prelude.{◌≡◌, map, IfOk};
ghost use Rattle.core_expr.specs.Nodes.{AreNodes, trees_of};
ghost use Rattle.seq_calculus.specs.Lists.{node_of};

use core_expr::Memory;
use seq_calculus::ProofNode;
use sqlite_items::Items;
use std::alloc::Global;
use term_bank::{Bank, BankNode};

/// The same node in the form of a proof.
fn proof_node(alloc: Global, node: &BankNode) -> Result<ProofNode, Memory>
    ensures { IfOk result (λ n. n ≡ record { head = node.now.head; numbers = node.now.numbers.items; parts = node.now.parts.items }) }
{
    Ok(ProofNode {
        head: node.head,
        numbers: Items::from_slice(alloc, node.numbers.as_slice())?,
        parts: Items::from_slice(alloc, node.parts.as_slice())?,
    })
}

/// All nodes of the bank in order.
pub fn table(alloc: Global, bank: &Bank) -> Result<Vec<ProofNode>, Memory>
    ensures nodes { IfOk result (λ v. AreNodes 0 (map node_of v.items)) }
    ensures trees { IfOk result (λ v. trees_of (map node_of v.items) ≡ bank.now) }
{
    let mut nodes = Vec::new(alloc);
    for i in 0..bank.count() {
        nodes.push(proof_node(alloc, bank.node(i).unwrap())?)?;
    }
    Ok(nodes)
}
