//! Replacing a term by another.
ghost use Rattle.std.specs.Prelude.{◌<◌, length, IfOk};
ghost use Rattle.core_expr.specs.Put.{IsScoped};
ghost use Rattle.term_bank.specs.Banks.{IsDistinct, Extends, HasTree, tree_at};
ghost use Rattle.search_definition.specs.Terms.{replace};

use crate::putting_in::moved;
use core_expr::Memory;
use std::alloc::Global;
use std::collections::BTreeMap;
use term_bank::Bank;

/// The index of the term at `e` with the term at `t` for each occurrence of the closed term at `s`.
pub fn replace(bank: &mut Bank, alloc: Global, s: u64, t: u64, e: u64) -> Result<u64, Memory>
    requires term { s < length bank.old }
    requires closed { IsScoped 0 (tree_at bank.old s) }
    requires image { t < length bank.old }
    requires start { e < length bank.old }
    ensures extends { Extends bank.old bank.new }
    ensures distinct { IsDistinct bank.new }
    ensures ok { IfOk result (λ k.
        HasTree bank.new k (replace (tree_at bank.old s) (tree_at bank.old t) (tree_at bank.old e))) }
{
    bank.count();
    let mut images: BTreeMap<u64, u64> = BTreeMap::new(alloc);
    images.insert(s, t)?;
    moved(bank, alloc, images, e)
}
