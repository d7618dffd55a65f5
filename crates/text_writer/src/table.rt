//! Expressions entered into a table.
ghost use Rattle.std.specs.Prelude.{◌≡◌, ◌<◌, length, IfOk, OnOk};
ghost use Rattle.core_expr.specs.Flat.{rows_of, row_at};
ghost use Rattle.text_writer.specs.Tables.{put, enter, enter_all};
ghost use Rattle.text_writer.specs.Rows.{next};

use crate::node::Node;
use core_expr::{Expr, Memory};
use indexmap::IndexSet;
use sqlite_items::Items;
use std::alloc::Global;

/// The place of a node in the table, where it goes last unless it is there.
pub fn put(nodes: &mut IndexSet<Node>, node: Node) -> Result<u64, Memory>
    ensures nodes { OnOk result (nodes.new.keys ≡ (put node nodes.old.keys).nodes) }
    ensures place { IfOk result (λ p. p ≡ (put node nodes.old.keys).place) }
{
    let (place, _) = nodes.insert_full(node)?;
    Ok(place as u64)
}

/// Enters the node `i`, which stands for its parts, the last places.
fn enter_node(
    alloc: Global,
    nodes: &mut IndexSet<Node>,
    places: &mut Vec<u64>,
    e: &Expr,
    i: u64,
) -> Result<(), Memory>
    requires { i < length (rows_of e.now) }
    ensures nodes { OnOk result (nodes.new.keys
        ≡ (next (row_at e.now i) (record { nodes = nodes.old.keys; places = places.old.items })).nodes) }
    ensures places { OnOk result (places.new.items
        ≡ (next (row_at e.now i) (record { nodes = nodes.old.keys; places = places.old.items })).places) }
{
    let below = places.len().saturating_sub(e.parts(i) as usize);
    let node = Node::over(alloc, e.kind(i), e.numbers(i), &places[below..])?;
    places.truncate(below);
    places.push(put(nodes, node)?)?;
    Ok(())
}

/// Enters the nodes of an expression, and gives its place.
pub fn enter(alloc: Global, nodes: &mut IndexSet<Node>, e: &Expr) -> Result<u64, Memory>
    ensures nodes { OnOk result (nodes.new.keys ≡ (enter e.now nodes.old.keys).nodes) }
    ensures place { IfOk result (λ p. p ≡ (enter e.now nodes.old.keys).place) }
{
    let mut places = Vec::new(alloc);
    for i in 0..e.length() {
        enter_node(alloc, nodes, &mut places, e, i)?;
    }
    Ok(places.pop().unwrap())
}

/// Enters the nodes of expressions, one after another, and gives their places.
pub fn enter_all(
    alloc: Global,
    nodes: &mut IndexSet<Node>,
    es: &[Expr],
) -> Result<Items<u64>, Memory>
    ensures nodes { OnOk result (nodes.new.keys ≡ (enter_all es.now nodes.old.keys).nodes) }
    ensures places { IfOk result (λ ps. ps ≡ (enter_all es.now nodes.old.keys).places) }
{
    let mut places = Items::new(alloc);
    for e in es {
        places.push(enter(alloc, nodes, e)?)?;
    }
    Ok(places)
}
