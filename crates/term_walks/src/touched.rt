//! The nodes below a node, each once.
ghost use Rattle.std.specs.Prelude.{◌↔◌, ◌⊎◌, ◌<◌, [], ℕ, length, OnOk, IfOk};
ghost use Rattle.term_bank.specs.Images.{In};
ghost use Rattle.term_walks.specs.Walks.{IsAdded, IsTurn, IsWalk};

use crate::marks::{has_image, put};
use core_expr::Memory;
use std::alloc::Global;
use std::collections::{BTreeMap, BTreeSet};
use term_bank::Bank;

/// Adds the parts.
fn add_parts(parts: &[u64], todo: &mut BTreeSet<u64>) -> Result<(), Memory>
    ensures { OnOk result ((q : ℕ) → In q todo.new.keys ↔ (In q parts.now ⊎ In q todo.old.keys)) }
{
    for part in parts {
        put(todo, *part)?;
    }
    Ok(())
}

/// Adds the parts of the node at `i`.
pub fn add_node(bank: &Bank, i: u64, todo: &mut BTreeSet<u64>) -> Result<(), Memory>
    requires { i < length bank.now }
    ensures { OnOk result (IsAdded bank.now i todo.old.keys todo.new.keys) }
{
    add_parts(bank.node(i).unwrap().parts.as_slice(), todo)
}

/// Adds the parts of the node at `i`, unless it has an image already.
fn add_open(
    bank: &Bank,
    images: &BTreeMap<u64, u64>,
    i: u64,
    todo: &mut BTreeSet<u64>,
) -> Result<(), Memory>
    requires { i < length bank.now }
    ensures { OnOk result (IsTurn bank.now images.now.entries i todo.old.keys todo.new.keys) }
{
    if has_image(images, i) {
        return Ok(());
    }
    add_node(bank, i, todo)
}

/// The nodes from `e` down to those that have an image, each before its parts.
pub fn touched(
    bank: &Bank,
    alloc: Global,
    images: &BTreeMap<u64, u64>,
    e: u64,
) -> Result<Vec<u64>, Memory>
    requires { e < length bank.now }
    ensures { IfOk result (λ done. IsWalk bank.now images.now.entries e done.items []) }
{
    let mut todo: BTreeSet<u64> = BTreeSet::new(alloc);
    put(&mut todo, e)?;
    let mut done = Vec::new(alloc);
    while let Some(i) = todo.pop_last() {
        add_open(bank, images, i, &mut todo)?;
        done.push(i)?;
    }
    Ok(done)
}
