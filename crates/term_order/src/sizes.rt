//! How many nodes terms have, counted as trees.
ghost use Rattle.std.specs.Prelude.{◌≡◌, ◌<◌, ℕ, [], suc, length, IfOk, OnOk, slice_index};
ghost use Rattle.core_expr.specs.Nodes.{AreBelow};
ghost use Rattle.term_order.specs.Sizes.{AreSizes, sizes_all};

use core_expr::Memory;
use std::alloc::Global;
use std::marker::Model;
use term_bank::Bank;

/// The size at an index.
fn size_at(sizes: &[u128], i: u64) -> u128
    requires { i < length sizes.now }
    ensures { result ≡ slice_index sizes.now i }
{
    sizes[i as usize]
}

/// The size of a node over parts with these sizes. A size of 2^128 or more is a want of memory.
fn size_over(sizes: &[u128], parts: &[u64]) -> Result<u128, Memory>
    requires { AreBelow (length sizes.now) parts.now }
    ensures { IfOk result (λ n. n ≡ suc (sizes_all sizes.now parts.now)) }
{
    let mut size: u128 = 1;
    for part in parts {
        let Some(more) = size.checked_add(size_at(sizes, *part)) else {
            return Err(Memory);
        };
        size = more;
    }
    Ok(size)
}

/// Adds the size of the next node.
fn add_size(sizes: &mut Vec<u128>, bank: &Bank, i: u64) -> Result<(), Memory>
    requires node { i < length bank.now }
    requires next { i ≡ length sizes.old.items }
    requires sizes { AreSizes bank.now sizes.old.items }
    ensures sizes { AreSizes bank.now sizes.new.items }
    ensures one { OnOk result (length sizes.new.items ≡ suc i) }
{
    let size = size_over(sizes.as_slice(), bank.node(i).unwrap().parts.as_slice())?;
    sizes.push(size)?;
    Ok(())
}

/// Adds the sizes of the nodes that are new.
fn add_sizes(sizes: &mut Vec<u128>, bank: &Bank) -> Result<(), Memory>
    requires { AreSizes bank.now sizes.old.items }
    ensures sizes { AreSizes bank.now sizes.new.items }
    ensures all { OnOk result (length sizes.new.items ≡ length bank.now) }
{
    for i in sizes.len() as u64..bank.count() {
        add_size(sizes, bank, i)?;
    }
    Ok(())
}

/// The sizes of the first nodes of a bank: how many nodes each has as a tree.
#[derive(Drop)]
pub struct Sizes {
    sizes: Vec<u128>,
}

impl Model for Sizes {
    ghost use Rattle.std.specs.Prelude.{List, ℕ};

    ghost Value = { List ℕ };

    ghost view = { λ s. s.sizes.items };
}

impl Sizes {
    /// No sizes yet.
    pub fn new(alloc: Global) -> Sizes
        ensures { result ≡ [] }
    {
        Sizes {
            sizes: Vec::new(alloc),
        }
    }

    /// Adds the sizes of the nodes that the bank has got since.
    pub fn grow(&mut self, bank: &Bank) -> Result<(), Memory>
        requires { AreSizes bank.now self.old }
        ensures sizes { AreSizes bank.now self.new }
        ensures all { OnOk result (length self.new ≡ length bank.now) }
    {
        add_sizes(&mut self.sizes, bank)
    }

    /// The size of the node at an index.
    pub fn size(&self, i: u64) -> u128
        requires { i < length self.now }
        ensures { result ≡ slice_index self.now i }
    {
        self.sizes[i as usize]
    }
}
