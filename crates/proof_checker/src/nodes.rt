//! Tables of nodes, put into a bank.
ghost use Rattle.std.specs.Prelude.{◌≡◌, ◌<◌, [], length, map, IfOk, OnOk};
ghost use Rattle.std.proofs.Common.{get_or};
ghost use Rattle.core_expr.specs.Nodes.{AreBelow, AreNodes, IsNode, picked, tree_over, trees_from, trees_of};
ghost use Rattle.term_bank.specs.Banks.{Extends, HasTree, node_over};
ghost use Rattle.seq_calculus.specs.Lists.{node_of};
ghost use Rattle.proof_checker.specs.Tables.{gathered, node_in, cells_of, ArePlaced};

use core_expr::Memory;
use seq_calculus::ProofNode;
use std::alloc::Global;
use term_bank::Bank;

/// A node without numbers: its head number, and the places of its parts.
#[derive(Clone, Copy, Debug)]
pub enum Cell {
    Leaf(u64),
    One(u64, u64),
    Two(u64, u64, u64),
    Three(u64, u64, u64, u64),
}

/// The index at a place of a table.
fn place_at(places: &[u64], i: u64) -> u64
    requires { i < length places.now }
    ensures { result ≡ get_or places.now i 0 }
{
    places[i as usize]
}

/// The indices of the bank at these places of a table.
pub fn fetch(indices: &mut Vec<u64>, places: &[u64], items: &[u64]) -> Result<(), Memory>
    requires { AreBelow (length places.now) items.now }
    ensures { OnOk result (indices.new.items ≡ gathered places.now items.now) }
{
    indices.clear();
    for item in items {
        indices.push(place_at(places, *item))?;
    }
    Ok(())
}

/// The index of a node over the trees at these places.
fn add_node(
    bank: &mut Bank,
    alloc: Global,
    places: &[u64],
    head: u64,
    numbers: &[u64],
    parts: &[u64],
) -> Result<u64, Memory>
    requires node { IsNode (node_over head numbers.now parts.now) (length places.now) }
    requires places { AreBelow (length bank.old) places.now }
    ensures extends { Extends bank.old bank.new }
    ensures ok { IfOk result (λ k. HasTree bank.new k
        (tree_over (picked bank.old places.now) (node_over head numbers.now parts.now))) }
{
    let mut indices = Vec::new(alloc);
    fetch(&mut indices, places, parts)?;
    let index = bank.make(alloc, head, numbers, indices.as_slice())?;
    Ok(index)
}

/// The index of a node without numbers over the trees at these places.
fn add_cell(bank: &mut Bank, alloc: Global, places: &[u64], cell: Cell) -> Result<u64, Memory>
    requires node { IsNode (node_in cell) (length places.now) }
    requires places { AreBelow (length bank.old) places.now }
    ensures extends { Extends bank.old bank.new }
    ensures ok { IfOk result (λ k. HasTree bank.new k
        (tree_over (picked bank.old places.now) (node_in cell))) }
{
    match cell {
        Cell::Leaf(head) => add_node(bank, alloc, places, head, &[], &[]),
        Cell::One(head, a) => add_node(bank, alloc, places, head, &[], &[a]),
        Cell::Two(head, a, b) => add_node(bank, alloc, places, head, &[], &[a, b]),
        Cell::Three(head, a, b, c) => add_node(bank, alloc, places, head, &[], &[a, b, c]),
    }
}

/// The node at this place.
fn cell_at(cells: &[Cell], i: u64) -> Cell
    requires { i < length cells.now }
    ensures { result ≡ get_or cells.now i result }
{
    cells[i as usize]
}

/// Adds the trees of nodes, each over those before it.
pub fn add_cells(
    bank: &mut Bank,
    alloc: Global,
    places: &mut Vec<u64>,
    cells: &[Cell],
) -> Result<(), Memory>
    requires cells { AreNodes (length places.old.items) (cells_of cells.now) }
    requires places { AreBelow (length bank.old) places.old.items }
    ensures extends { Extends bank.old bank.new }
    ensures ok { OnOk result (ArePlaced bank.new
        (trees_from (picked bank.old places.old.items) (cells_of cells.now)) places.new.items) }
{
    for i in 0..cells.len() {
        let cell = cell_at(cells, i as u64);
        let place = add_cell(bank, alloc, places.as_slice(), cell)?;
        places.push(place)?;
    }
    Ok(())
}

/// The indices of the trees of a proof's table.
pub fn add_table(bank: &mut Bank, alloc: Global, nodes: &[ProofNode]) -> Result<Vec<u64>, Memory>
    requires { AreNodes 0 (map node_of nodes.now) }
    ensures extends { Extends bank.old bank.new }
    ensures ok { IfOk result (λ places.
        ArePlaced bank.new (trees_of (map node_of nodes.now)) places.items) }
{
    let mut places = Vec::new(alloc);
    for node in nodes {
        let (numbers, parts) = (node.numbers.as_slice(), node.parts.as_slice());
        let place = add_node(bank, alloc, places.as_slice(), node.head, numbers, parts)?;
        places.push(place)?;
    }
    Ok(places)
}
