//! Nodes of a table, as keys of a set.
ghost use Rattle.std.specs.Prelude.{◌≡◌, ◌++◌, IfOk, OnOk};
ghost use Rattle.core_expr.specs.Nodes.{node_numbers};
ghost use Rattle.seq_calculus.specs.Lists.{written_node};
ghost use Rattle.text_writer.specs.Keys.{same_node, node_fed, node_laws, node_equal, node_alike};
ghost use Rattle.text_writer.specs.Tables.{node_over};

use core_expr::{Memory, RowKind, kind_number};
use seq_calculus::ProofNode;
use sqlite_items::Items;
use std::alloc::Global;
use std::hash::{Hash, Hasher};
use std::marker::Model;

/// A node of a table. Contracts see it as the node.
#[derive(Debug, Drop)]
pub struct Node {
    node: ProofNode,
}

impl Model for Node {
    ghost use Rattle.seq_calculus.specs.declared.lists.ProofNode.{ProofNode};
    ghost use Rattle.text_writer.specs.Keys.{node_code};

    ghost Value = { ProofNode };

    ghost coded = { node_code };

    ghost view = { λ n. n.node };
}

/// Two nodes are equal where their heads, their numbers and their parts are.
impl PartialEq for Node {
    ghost eq = { same_node };

    ghost laws = { node_laws };

    fn eq(&self, other: &Node) -> bool {
        self.node.head == other.node.head
            && self.node.numbers.as_slice() == other.node.numbers.as_slice()
            && self.node.parts.as_slice() == other.node.parts.as_slice()
    }
}

impl Eq for Node {
    ghost laws = { node_equal };
}

impl Hash for Node {
    ghost hash_input = { node_fed };

    ghost respects_eq = { node_alike };

    fn hash<H: Hasher>(&self, state: &mut H) {
        self.node.head.hash(state);
        self.node.numbers.as_slice().hash(state);
        self.node.parts.as_slice().hash(state);
    }
}

/// The numbers of a node of a table: of a symbol's node the symbol's number and arity.
fn node_numbers(alloc: Global, kind: RowKind, numbers: &[u64]) -> Result<Items<u64>, Memory>
    ensures { IfOk result (λ ns. ns ≡ node_numbers kind numbers.now) }
{
    let found = match kind {
        RowKind::Symbol(symbol) => Items::from_slice(alloc, &[symbol.number, symbol.arity])?,
        _ => Items::from_slice(alloc, numbers)?,
    };
    Ok(found)
}

impl Node {
    /// The node of this kind with these numbers over these places.
    pub fn over(
        alloc: Global,
        kind: RowKind,
        numbers: &[u64],
        parts: &[u64],
    ) -> Result<Node, Memory>
        ensures { IfOk result (λ n. n ≡ node_over kind numbers.now parts.now) }
    {
        Ok(Node {
            node: ProofNode {
                head: kind_number(kind),
                numbers: node_numbers(alloc, kind, numbers)?,
                parts: Items::from_slice(alloc, parts)?,
            },
        })
    }

    /// The node with the head and the numbers of another, over these places.
    pub fn with_parts(alloc: Global, node: &ProofNode, parts: Items<u64>) -> Result<Node, Memory>
        ensures { IfOk result (λ n. n
            ≡ record { head = node.now.head; numbers = node.now.numbers; parts = parts }) }
    {
        Ok(Node {
            node: ProofNode {
                head: node.head,
                numbers: Items::from_slice(alloc, node.numbers.as_slice())?,
                parts,
            },
        })
    }

    /// Writes the node: its head, its numbers and its parts.
    pub fn write(&self, list: &mut Vec<u64>) -> Result<(), Memory>
        ensures { OnOk result (list.new.items ≡ list.old.items ++ written_node self.now) }
    {
        list.push(self.node.head)?;
        list.extend_from_slice(self.node.numbers.as_slice())?;
        list.extend_from_slice(self.node.parts.as_slice())?;
        Ok(())
    }
}
