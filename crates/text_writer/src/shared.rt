//! Nodes that share their parts, entered into another table.
ghost use Rattle.std.specs.Prelude.{◌≡◌, ◌++◌, ◌<◌, [], length, map, IfOk, OnOk, IfSome};
ghost use Rattle.core_expr.specs.Nodes.{AreBelow, AreNodes, picked};
ghost use Rattle.seq_calculus.specs.Lists.{node_of};
ghost use Rattle.proof_text.specs.Texts.{tree_in, trees_in};
ghost use Rattle.proof_text.specs.Frames.{parts_at};
ghost use Rattle.text_writer.specs.Tables.{enter, enter_all};
ghost use Rattle.text_writer.specs.Shared.{here, enter_last_first, last_first, AreNoted, ArePlaces};

use crate::node::Node;
use crate::table::put;
use core_expr::Memory;
use core_expr::theorems::node_shows;
use indexmap::IndexSet;
use seq_calculus::ProofNode;
use sqlite_items::Items;
use std::alloc::Global;

/// A table that grows, and the places in it where the trees of another table's nodes stand, as far as they are known.
#[derive(Drop)]
pub struct Growing {
    pub table: IndexSet<Node>,
    pub places: Vec<Option<u64>>,
}

/// A table in which nothing stands yet, for the trees of these nodes.
pub fn empty(alloc: Global, nodes: &[ProofNode]) -> Result<Growing, Memory>
    requires { AreNodes 0 (map node_of nodes.now) }
    ensures table { IfOk result (λ g. g.table.keys ≡ []) }
    ensures noted { IfOk result (λ g. AreNoted nodes.now g.table.keys g.places.items) }
{
    Ok(Growing {
        table: IndexSet::new(alloc),
        places: vec![in alloc; None; nodes.len()]?,
    })
}

/// The places of these nodes, if all are known.
fn known(alloc: Global, places: &[Option<u64>], parts: &[u64]) -> Result<Option<Items<u64>>, Memory>
    requires { AreBelow (length places.now) parts.now }
    ensures { IfOk result (λ found. IfSome found (ArePlaces places.now parts.now)) }
{
    let mut found = Items::new(alloc);
    for part in parts {
        let Some(place) = places[*part as usize] else {
            return Ok(None);
        };
        found.push(place)?;
    }
    Ok(Some(found))
}

/// Puts nodes behind those that wait, the first of them last.
fn wait_for(waiting: &mut Vec<u64>, parts: &[u64]) -> Result<(), Memory>
    ensures { OnOk result (waiting.new.items ≡ waiting.old.items ++ last_first parts.now) }
{
    for k in (0..parts.len()).rev() {
        waiting.push(parts[k])?;
    }
    Ok(())
}

/// Puts the node `i` over the places of its parts, and notes its place.
fn put_over(
    alloc: Global,
    nodes: &[ProofNode],
    growing: &mut Growing,
    i: u64,
    parts: Items<u64>,
) -> Result<u64, Memory>
    requires noted { AreNoted nodes.now growing.old.table.keys growing.old.places.items }
    requires node { i < length nodes.now }
    requires parts { ArePlaces growing.old.places.items (parts_at nodes.now i) parts }
    ensures entered { IfOk result (λ p. here growing.new.table.keys p
        ≡ enter (tree_in nodes.now i) growing.old.table.keys) }
    ensures noted { OnOk result (AreNoted nodes.now growing.new.table.keys growing.new.places.items) }
{
    node_shows();
    let node = Node::with_parts(alloc, &nodes[i as usize], parts)?;
    let place = put(&mut growing.table, node)?;
    growing.places[i as usize] = Some(place);
    Ok(place)
}

/// Enters the node `i` if its place or those of its parts are known, and gives its place; or else lets it wait for its parts.
fn go_on(
    alloc: Global,
    nodes: &[ProofNode],
    growing: &mut Growing,
    waiting: &mut Vec<u64>,
    i: u64,
) -> Result<u64, Memory>
    requires noted { AreNoted nodes.now growing.old.table.keys growing.old.places.items }
    requires waiting { AreBelow (length nodes.now) waiting.old.items }
    requires node { i < length nodes.now }
    ensures entered { IfOk result (λ p.
        enter_last_first nodes.now waiting.new.items (here growing.new.table.keys p)
        ≡ enter_last_first nodes.now waiting.old.items (enter (tree_in nodes.now i) growing.old.table.keys)) }
    ensures noted { OnOk result (AreNoted nodes.now growing.new.table.keys growing.new.places.items) }
    ensures waiting { OnOk result (AreBelow (length nodes.now) waiting.new.items) }
{
    node_shows();
    if let Some(place) = growing.places[i as usize] {
        return Ok(place);
    }
    let parts = nodes[i as usize].parts.as_slice();
    match known(alloc, growing.places.as_slice(), parts)? {
        Some(found) => put_over(alloc, nodes, growing, i, found),
        None => {
            waiting.push(i)?;
            wait_for(waiting, parts)?;
            Ok(0)
        }
    }
}

/// Enters the tree of the node `root`, and gives its place. A node whose place is known costs nothing, so that all nodes together
/// cost linear time.
pub fn enter_at(
    alloc: Global,
    nodes: &[ProofNode],
    growing: &mut Growing,
    root: u64,
) -> Result<u64, Memory>
    requires noted { AreNoted nodes.now growing.old.table.keys growing.old.places.items }
    requires root { root < length nodes.now }
    ensures entered { IfOk result (λ p. here growing.new.table.keys p
        ≡ enter (tree_in nodes.now root) growing.old.table.keys) }
    ensures noted { OnOk result (AreNoted nodes.now growing.new.table.keys growing.new.places.items) }
{
    let mut waiting = vec![in alloc; root]?;
    let mut place = 0;
    for _ in 0..u64::MAX {
        let Some(i) = waiting.pop() else {
            return Ok(place);
        };
        place = go_on(alloc, nodes, growing, &mut waiting, i)?;
    }
    Err(Memory)
}

/// Enters the trees of these nodes, one after another, and gives their places.
pub fn enter_each(
    alloc: Global,
    nodes: &[ProofNode],
    growing: &mut Growing,
    roots: &[u64],
) -> Result<Items<u64>, Memory>
    requires noted { AreNoted nodes.now growing.old.table.keys growing.old.places.items }
    requires roots { AreBelow (length nodes.now) roots.now }
    ensures table { OnOk result (growing.new.table.keys
        ≡ (enter_all (picked (trees_in nodes.now) roots.now) growing.old.table.keys).nodes) }
    ensures places { IfOk result (λ ps. ps
        ≡ (enter_all (picked (trees_in nodes.now) roots.now) growing.old.table.keys).places) }
    ensures noted { OnOk result (AreNoted nodes.now growing.new.table.keys growing.new.places.items) }
{
    let mut places = Items::new(alloc);
    for root in roots {
        places.push(enter_at(alloc, nodes, growing, *root)?)?;
    }
    Ok(places)
}
