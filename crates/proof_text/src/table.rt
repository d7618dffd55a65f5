//! Readers of tables of expressions.
ghost use Rattle.std.specs.Prelude.{◌≡◌, ◌&&◌, ◌||◌};
ghost use Rattle.proof_text.specs.Reading.{Reads, ReadsAs, number};
ghost use Rattle.proof_text.specs.Readers.{has_room, head_test, node, nodes, table};

use crate::cursor::{Cursor, Fault, Test};
use crate::operands::operands;
use crate::parts::Operands;
use crate::shape::{Tail, node_shape};
use seq_calculus::ProofNode;
use std::alloc::Global;

/// Whether a table of so many nodes has room for a fixed number of parts.
pub fn has_room(tail: Tail, nodes: u64) -> bool
    ensures { result ≡ has_room tail nodes }
{
    match tail {
        Tail::Fixed(count) => count == 0 || nodes > 0,
        Tail::Counted | Tail::Bytes => true,
    }
}

/// Whether a node behind so many may have this head number.
#[tactic(auto, unfolding(crate::specs::Readers::head_test))]
fn is_head(nodes: u64, head: u64) -> bool
    ensures { result ≡ head_test nodes head }
{
    head < 33 && has_room(node_shape(head).tail, nodes)
}

/// The head number of a node behind so many.
fn head(cursor: &mut Cursor, nodes: u64) -> Result<u64, Fault>
    ensures { Reads result (number (head_test nodes) cursor.old) cursor.new }
{
    match cursor.first() {
        None => Err(Fault::Bad(0)),
        Some(head) => cursor.tested(head, is_head(nodes, head)),
    }
}

/// A node behind so many.
#[tactic(auto, unfolding(crate::specs::Readers::node))]
fn node(cursor: &mut Cursor, alloc: Global, nodes: u64) -> Result<ProofNode, Fault>
    ensures { Reads result (node nodes cursor.old) cursor.new }
{
    let head = head(cursor, nodes)?;
    let Operands { numbers, indices } = operands(cursor, alloc, node_shape(head), nodes)?;
    Ok(ProofNode {
        head,
        numbers,
        parts: indices,
    })
}

/// So many nodes.
#[tactic(auto, unfolding(crate::specs::Readers::nodes))]
fn nodes(cursor: &mut Cursor, alloc: Global, count: u64) -> Result<Vec<ProofNode>, Fault>
    ensures { ReadsAs result (λ v. v.items) (nodes count cursor.old) cursor.new }
{
    let mut items = Vec::new(alloc);
    for i in 0..count {
        let item = node(cursor, alloc, i)?;
        items.push(item)?;
    }
    Ok(items)
}

/// A table behind the number of its nodes, which passes the test.
#[tactic(auto, unfolding(crate::specs::Readers::table))]
pub fn table(cursor: &mut Cursor, alloc: Global, test: Test) -> Result<Vec<ProofNode>, Fault>
    ensures { ReadsAs result (λ v. v.items) (table test cursor.old) cursor.new }
{
    let count = cursor.number(test)?;
    nodes(cursor, alloc, count)
}
