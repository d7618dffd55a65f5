//! A set of indices, and a stack of them.
ghost use Rattle.std.specs.Prelude.{◌≡◌, IfOk, OnOk};
ghost use Rattle.term_order.specs.Walks.{IsEntered, pushed};

use core_expr::Memory;
use std::collections::BTreeSet;

/// Enters an index: whether it is new.
pub fn enter(seen: &mut BTreeSet<u64>, index: u64) -> Result<bool, Memory>
    ensures { IfOk result (λ b. IsEntered seen.old.keys seen.new.keys index b) }
{
    let is_new = seen.insert(index)?;
    Ok(is_new)
}

/// Pushes the parts, the first uppermost.
pub fn push_parts(stack: &mut Vec<u64>, parts: &[u64]) -> Result<(), Memory>
    ensures { OnOk result (stack.new.items ≡ pushed stack.old.items parts.now) }
{
    for k in 0..parts.len() {
        stack.push(parts[parts.len() - 1 - k])?;
    }
    Ok(())
}
