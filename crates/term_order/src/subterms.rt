//! The closed subterms of a term.
ghost use Rattle.std.specs.Prelude.{◌≡◌, ◌<◌, length, IfOk, OnOk};
ghost use Rattle.core_expr.specs.Nodes.{AreBelow, picked};
ghost use Rattle.search_definition.specs.Terms.{closed_subterms};
ghost use Rattle.term_bank.specs.Banks.{tree_at};
ghost use Rattle.term_order.specs.Firsts.{firsts};
ghost use Rattle.term_order.specs.Walks.{IsVisit, IsTaken};

use crate::marks::{enter, push_parts};
use core_expr::Memory;
use std::alloc::Global;
use std::collections::BTreeSet;
use term_bank::Bank;

/// Adds the node at `i`, where it is closed, and pushes its parts.
fn visit(bank: &Bank, i: u64, found: &mut Vec<u64>, stack: &mut Vec<u64>) -> Result<(), Memory>
    requires { i < length bank.now }
    ensures { OnOk result (IsVisit bank.now i found.old.items found.new.items
        stack.old.items stack.new.items) }
{
    if bank.is_closed(i) {
        found.push(i)?;
    }
    push_parts(stack, bank.node(i).unwrap().parts.as_slice())
}

/// Visits the node at `i`, unless it was seen.
fn take(
    bank: &Bank,
    i: u64,
    seen: &mut BTreeSet<u64>,
    found: &mut Vec<u64>,
    stack: &mut Vec<u64>,
) -> Result<(), Memory>
    requires { i < length bank.now }
    ensures { OnOk result (IsTaken bank.now i seen.old.keys seen.new.keys
        found.old.items found.new.items stack.old.items stack.new.items) }
{
    if !enter(seen, i)? {
        return Ok(());
    }
    visit(bank, i, found, stack)
}

/// The closed subterms of the term at `e` in prefix order, each at its first place.
pub fn closed_subterms(bank: &Bank, alloc: Global, e: u64) -> Result<Vec<u64>, Memory>
    requires { e < length bank.now }
    ensures below { IfOk result (λ v. AreBelow (length bank.now) v.items) }
    ensures ok { IfOk result (λ v.
        picked bank.now v.items ≡ firsts (closed_subterms (tree_at bank.now e))) }
{
    bank.count();
    let mut seen: BTreeSet<u64> = BTreeSet::new(alloc);
    let mut found = Vec::new(alloc);
    let mut stack = Vec::new(alloc);
    stack.push(e)?;
    while let Some(i) = stack.pop() {
        take(bank, i, &mut seen, &mut found, &mut stack)?;
    }
    Ok(found)
}
