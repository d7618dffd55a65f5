//! The indices of the trees of forms.
ghost use Rattle.std.specs.Prelude.{◌<◌, ℕ, length, IfOk, IfSome, IfNone};
ghost use Rattle.core_expr.specs.Nodes.{AreBelow, IsNode, tree_over};
ghost use Rattle.term_bank.specs.Banks.{IsDistinct, Extends, HasNode, HasTree};
ghost use Rattle.term_shapes.specs.Shapes.{tree_of, named_parts, node_in, IsWhole};

use crate::cell::{Cell, cell_for};
use crate::shape::Shape;
use core_expr::Memory;
use std::alloc::Global;
use term_bank::Bank;

/// The index of a node over the trees at its parts.
pub fn make_cell(bank: &mut Bank, alloc: Global, cell: Cell) -> Result<u64, Memory>
    requires { IsNode (node_in cell) (length bank.old) }
    ensures extends { Extends bank.old bank.new }
    ensures distinct { IsDistinct bank.new }
    ensures ok { IfOk result (λ k. HasTree bank.new k (tree_over bank.old (node_in cell))) }
{
    match cell {
        Cell::Leaf(head) => bank.make(alloc, head, &[], &[]),
        Cell::Numbered(head, i) => bank.make(alloc, head, &[i], &[]),
        Cell::Paired(head, i, j) => bank.make(alloc, head, &[i, j], &[]),
        Cell::One(head, a) => bank.make(alloc, head, &[], &[a]),
        Cell::Two(head, a, b) => bank.make(alloc, head, &[], &[a, b]),
        Cell::Three(head, a, b, c) => bank.make(alloc, head, &[], &[a, b, c]),
    }
}

/// The index of a node, where it is there.
fn seek_cell(bank: &Bank, cell: Cell) -> Option<u64>
    ensures some { IfSome result (λ k. HasNode bank.now k (node_in cell)) }
    ensures none { IfNone result ((k : ℕ) → HasNode bank.now k (node_in cell) → ⊥) }
{
    match cell {
        Cell::Leaf(head) => bank.seek(head, &[], &[]),
        Cell::Numbered(head, i) => bank.seek(head, &[i], &[]),
        Cell::Paired(head, i, j) => bank.seek(head, &[i, j], &[]),
        Cell::One(head, a) => bank.seek(head, &[], &[a]),
        Cell::Two(head, a, b) => bank.seek(head, &[], &[a, b]),
        Cell::Three(head, a, b, c) => bank.seek(head, &[], &[a, b, c]),
    }
}

/// The index of the tree of a form over the trees at its parts. The node is new or was there.
pub fn make(bank: &mut Bank, alloc: Global, shape: Shape) -> Result<u64, Memory>
    requires below { AreBelow (length bank.old) (named_parts shape) }
    requires whole { IsWhole shape }
    ensures extends { Extends bank.old bank.new }
    ensures distinct { IsDistinct bank.new }
    ensures ok { IfOk result (λ k. HasTree bank.new k (tree_of bank.old shape)) }
{
    make_cell(bank, alloc, cell_for(shape))
}

/// The index of the tree of a form over the trees at its parts: None exactly where it is not there. Takes no memory.
pub fn seek(bank: &Bank, shape: Shape) -> Option<u64>
    requires below { AreBelow (length bank.now) (named_parts shape) }
    requires whole { IsWhole shape }
    ensures some { IfSome result (λ k. HasTree bank.now k (tree_of bank.now shape)) }
    ensures none { IfNone result ((k : ℕ) → HasTree bank.now k (tree_of bank.now shape) → ⊥) }
{
    seek_cell(bank, cell_for(shape))
}
