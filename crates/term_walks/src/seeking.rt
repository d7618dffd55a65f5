//! Whether a term occurs in another.
ghost use Rattle.std.specs.Prelude.{◌≡◌, ◌<◌, length, IfOk};
ghost use Rattle.term_bank.specs.Banks.{tree_at};
ghost use Rattle.search_definition.specs.Terms.{occurs};

use crate::marks::put;
use crate::touched::add_node;
use core_expr::Memory;
use std::alloc::Global;
use std::collections::BTreeSet;
use term_bank::Bank;

/// Whether the term at `s` occurs in the one at `e`: the node `e` itself or one below it is `s`.
pub fn occurs(bank: &Bank, alloc: Global, s: u64, e: u64) -> Result<bool, Memory>
    requires term { s < length bank.now }
    requires start { e < length bank.now }
    ensures { IfOk result (λ b. b ≡ occurs (tree_at bank.now s) (tree_at bank.now e)) }
{
    bank.count();
    let mut todo: BTreeSet<u64> = BTreeSet::new(alloc);
    put(&mut todo, e)?;
    while let Some(i) = todo.pop_last() {
        if i == s {
            return Ok(true);
        }
        add_node(bank, i, &mut todo)?;
    }
    Ok(false)
}
