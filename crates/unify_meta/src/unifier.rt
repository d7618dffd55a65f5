//! The most general unifier.
ghost use Rattle.std.specs.Prelude.{◌<◌, length, IfOk};
ghost use Rattle.term_bank.specs.Banks.{IsDistinct, Extends, tree_at};
ghost use Rattle.unifier_definition.specs.Unify.{mgu};
ghost use Rattle.unify_meta.specs.Metas.{symbols};
ghost use Rattle.unify_meta.specs.Rounds.{IsAnswer};

use crate::binding::BoundMeta;
use crate::disagreement::{Disagreement, first_disagreement};
use crate::round::{Outcome, Pending, round};
use core_expr::Memory;
use std::alloc::Global;
use term_bank::Bank;

/// The bindings that make the terms at `s` and `t` equal, for the metavariables with these numbers: None exactly where there are
/// none. The term of each is fully applied.
pub fn unify(
    bank: &mut Bank,
    alloc: Global,
    metas: &[u64],
    s: u64,
    t: u64,
) -> Result<Option<Vec<BoundMeta>>, Memory>
    requires left { s < length bank.old }
    requires right { t < length bank.old }
    ensures extends { Extends bank.old bank.new }
    ensures distinct { IsDistinct bank.new }
    ensures ok { IfOk result (λ o. IsAnswer bank.new
        (mgu (symbols metas.now) (tree_at bank.old s) (tree_at bank.old t)) o) }
{
    bank.count();
    let mut room = metas.len();
    let mut pending = Pending {
        free: Vec::from_slice(alloc, metas)?,
        bound: Vec::new(alloc),
        left: s,
        right: t,
    };
    while room > 0 {
        match round(bank, alloc, &pending)? {
            Outcome::Unified => return Ok(Some(pending.bound)),
            Outcome::Failed => return Ok(None),
            Outcome::More(next) => pending = next,
        }
        room -= 1;
    }
    match first_disagreement(bank, pending.free.as_slice(), pending.left, pending.right) {
        Disagreement::Nowhere => Ok(Some(pending.bound)),
        _ => Ok(None),
    }
}
