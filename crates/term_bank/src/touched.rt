ghost use Rattle.std.specs.Prelude.{◌<◌, ◌+◌, [], ℕ, List, length, OnOk, IfOk};
ghost use Rattle.core_expr.specs.Nodes.{AreBelow};
ghost use Rattle.term_bank.specs.Images.{IsAdded, IsStep, IsTouched, IsOnWay};
ghost use Rattle.term_bank.specs.Slots.{node_of, reach_count};

use crate::bank::Bank;
use crate::marks::put;
use crate::needs::needs_image;
use crate::node::BankNode;
use crate::reach::Reach;
use core_expr::Memory;
use std::alloc::Global;
use std::collections::BTreeSet;

/// Adds the part where it has the node's outermost loose variable.
fn add_part(
    bank: &Bank,
    node: &BankNode,
    k: u64,
    reach: Reach,
    todo: &mut BTreeSet<u64>,
) -> Result<(), Memory>
    requires part { k < length node.now.parts.items }
    requires below { AreBelow (length bank.now) node.now.parts.items }
    ensures { OnOk result ((old : List ℕ)
        → IsAdded bank.now (node_of node.now) (reach_count reach) k old todo.old.keys
        → IsAdded bank.now (node_of node.now) (reach_count reach) (k + 1) old todo.new.keys) }
{
    if needs_image(bank, node, k, reach) {
        put(todo, node.parts[k as usize])?;
    }
    Ok(())
}

/// Adds the parts that have the node's outermost loose variable.
fn add_parts(
    bank: &Bank,
    node: &BankNode,
    reach: Reach,
    todo: &mut BTreeSet<u64>,
) -> Result<(), Memory>
    requires below { AreBelow (length bank.now) node.now.parts.items }
    ensures { OnOk result (IsAdded bank.now (node_of node.now) (reach_count reach)
        (length node.now.parts.items) todo.old.keys todo.new.keys) }
{
    for k in 0..node.parts.len() {
        add_part(bank, node, k as u64, reach, todo)?;
    }
    Ok(())
}

/// Adds the parts of a node that have its outermost loose variable.
fn add_needed(bank: &Bank, i: u64, todo: &mut BTreeSet<u64>) -> Result<(), Memory>
    requires { i < length bank.now }
    ensures { OnOk result (IsStep bank.now i todo.old.keys todo.new.keys) }
{
    bank.distinct();
    let node = bank.node(i).unwrap();
    add_parts(bank, node, bank.reach(i), todo)
}

/// The nodes that have the outermost loose variable of `body`, each before its parts.
pub fn touched(bank: &Bank, alloc: Global, body: u64) -> Result<Vec<u64>, Memory>
    requires { IsTouched bank.now body }
    ensures { IfOk result (λ done. IsOnWay bank.now body done.items []) }
{
    let mut todo: BTreeSet<u64> = BTreeSet::new(alloc);
    put(&mut todo, body)?;
    let mut done = Vec::new(alloc);
    while let Some(i) = todo.pop_last() {
        add_needed(bank, i, &mut todo)?;
        done.push(i)?;
    }
    Ok(done)
}
