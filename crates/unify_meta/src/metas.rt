//! Metavariables: constants whose numbers are listed.
ghost use Rattle.std.specs.Prelude.{◌≡◌, ℕ, List, IfOk};
ghost use Rattle.core_expr.specs.Tree.{Tree};
ghost use Rattle.core_expr.specs.Nodes.{canon_sym};
ghost use Rattle.unifier_definition.specs.Metas.{listed, without};
ghost use Rattle.term_bank.specs.Banks.{HasNode, tree_at};
ghost use Rattle.term_bank.specs.Slots.{node_of};
ghost use Rattle.unify_meta.specs.Metas.{symbols, IsMeta};

use core_expr::Memory;
use std::alloc::Global;
use term_bank::BankNode;

/// The head number of the nodes of symbols.
pub const SYMBOL: u64 = 6;

/// Whether the constant with this number is a metavariable.
fn is_listed(metas: &[u64], number: u64) -> bool
    ensures { result ≡ listed (symbols metas.now) (canon_sym number 0) }
{
    metas.contains(&number)
}

/// The number of the metavariable that the node is.
pub fn meta_number(metas: &[u64], node: &BankNode) -> Option<u64>
    ensures { (ts : List Tree) (i : ℕ) → HasNode ts i (node_of node.now)
        → IsMeta (symbols metas.now) (tree_at ts i) result }
{
    if node.head != SYMBOL {
        return None;
    }
    if !node.parts.is_empty() {
        return None;
    }
    let Some(number) = node.numbers.first() else {
        return None;
    };
    if is_listed(metas, *number) {
        Some(*number)
    } else {
        None
    }
}

/// The metavariables but the one with this number.
pub fn without(alloc: Global, metas: &[u64], number: u64) -> Result<Vec<u64>, Memory>
    ensures { IfOk result (λ v.
        symbols v.items ≡ without (canon_sym number 0) (symbols metas.now)) }
{
    let mut others = Vec::new(alloc);
    for meta in metas {
        if *meta != number {
            others.push(*meta)?;
        }
    }
    Ok(others)
}
