ghost use Rattle.std.specs.Prelude.{◌≡◌, ◌<◌, ◌+◌, length, drop, IfOk, IsTrue};
ghost use Rattle.core_expr.specs.Flat.{rows_of, row_at};
ghost use Rattle.core_expr.specs.Nodes.{AreBelow, tree_over};
ghost use Rattle.term_bank.specs.Banks.{IsDistinct, Extends, HasTree};
ghost use Rattle.core_expr.specs.Heads.{IsCanonical};
ghost use Rattle.term_bank.specs.Canonical.{row_node, row_fits, IsRun};

use crate::bank::Bank;
use core_expr::{Expr, Memory, RowKind};
use std::alloc::Global;

/// The index of the node `i` of the expression over these parts.
fn make_row(bank: &mut Bank, alloc: Global, e: &Expr, i: u64, parts: &[u64]) -> Result<u64, Memory>
    requires row { i < length (rows_of e.now) }
    requires form { IsTrue (row_fits (row_at e.now i)) }
    requires count { length parts.now ≡ (row_at e.now i).parts }
    requires below { AreBelow (length bank.old) parts.now }
    ensures extends { Extends bank.old bank.new }
    ensures distinct { IsDistinct bank.new }
    ensures ok { IfOk result (λ k.
        HasTree bank.new k (tree_over bank.old (row_node (row_at e.now i) parts.now))) }
{
    match e.kind(i) {
        RowKind::Symbol(sym) => bank.make(alloc, 6, &[sym.number, sym.arity], parts),
        _ => bank.make(alloc, e.head(i), e.numbers(i), parts),
    }
}

/// Puts the index of the node `i` in the place of those of its parts.
fn add_row(
    bank: &mut Bank,
    alloc: Global,
    e: &Expr,
    i: u64,
    stack: &mut Vec<u64>,
) -> Result<(), Memory>
    requires row { i < length (rows_of e.now) }
    requires run { IsRun bank.old stack.old.items (drop i (rows_of e.now)) e.now }
    ensures extends { Extends bank.old bank.new }
    ensures distinct { IsDistinct bank.new }
    ensures ok { IfOk result (λ _.
        IsRun bank.new stack.new.items (drop (i + 1) (rows_of e.now)) e.now) }
{
    let start = stack.len() - e.parts(i) as usize;
    let index = make_row(bank, alloc, e, i, &stack[start..])?;
    stack.truncate(start);
    stack.push(index)?;
    Ok(())
}

/// The index of the expression.
pub fn intern(bank: &mut Bank, alloc: Global, e: &Expr) -> Result<u64, Memory>
    requires canonical { IsCanonical e.now }
    ensures extends { Extends bank.old bank.new }
    ensures distinct { IsDistinct bank.new }
    ensures ok { IfOk result (λ k. HasTree bank.new k e.now) }
{
    bank.distinct();
    let mut stack = Vec::new(alloc);
    for i in 0..e.length() {
        add_row(bank, alloc, e, i, &mut stack)?;
    }
    Ok(stack[0])
}
