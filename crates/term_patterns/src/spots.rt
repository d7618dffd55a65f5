//! Nodes at depths.
ghost use Rattle.std.specs.Prelude.{◌≡◌, ◌<◌, IfOk};
ghost use Rattle.term_bank.specs.Loose.{is_binder};
ghost use Rattle.term_patterns.specs.Depths.{deeper, spots_under};

use core_expr::{Memory, RowKind, kind_for};
use std::alloc::Global;

/// A node that stands under so many binders.
#[derive(Clone, Copy, Debug)]
pub struct Spot {
    pub node: u64,
    pub depth: u64,
}

/// Whether a head binds a variable in its last part.
pub fn is_binder(head: u64) -> bool
    ensures { result ≡ is_binder head }
{
    match kind_for(head, None) {
        RowKind::Binding(_) => true,
        _ => false,
    }
}

/// One deeper, or as deep.
fn deeper(is_deeper: bool, depth: u64) -> u64
    requires { depth < 18446744073709551615 }
    ensures { result ≡ deeper is_deeper depth }
{
    if is_deeper { depth + 1 } else { depth }
}

/// The parts of a node at a depth: the last part of a binder is one deeper.
#[tactic(auto, using(crate::proofs::DepthLaws::last_deeper))]
pub fn spots_under(
    alloc: Global,
    is_binder: bool,
    depth: u64,
    parts: &[u64],
) -> Result<Vec<Spot>, Memory>
    requires { depth < 18446744073709551615 }
    ensures { IfOk result (λ v. v.items ≡ spots_under is_binder depth parts.now) }
{
    let mut spots = Vec::new(alloc);
    for k in 0..parts.len() {
        let is_deeper = is_binder && k + 1 == parts.len();
        spots.push(Spot {
            node: parts[k],
            depth: deeper(is_deeper, depth),
        })?;
    }
    Ok(spots)
}
