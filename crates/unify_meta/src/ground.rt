//! One term for each metavariable.
ghost use Rattle.std.specs.Prelude.{◌<◌, length, IfOk};
ghost use Rattle.unifier_definition.specs.Metas.{assign};
ghost use Rattle.term_bank.specs.Banks.{IsDistinct, Extends, HasTree, tree_at};
ghost use Rattle.unify_meta.specs.Metas.{symbols};
ghost use Rattle.unify_meta.specs.Grounds.{AreGround};

use crate::metas::SYMBOL;
use core_expr::Memory;
use std::alloc::Global;
use std::collections::BTreeMap;
use term_bank::Bank;
use term_walks::{keep, moved};

/// The node of each metavariable, with the term for it.
fn ground_images(
    bank: &mut Bank,
    alloc: Global,
    metas: &[u64],
    spare: u64,
) -> Result<BTreeMap<u64, u64>, Memory>
    requires { spare < length bank.old }
    ensures extends { Extends bank.old bank.new }
    ensures distinct { IsDistinct bank.new }
    ensures ok { IfOk result (λ images. AreGround bank.new metas.now spare images.entries) }
{
    bank.count();
    let mut images: BTreeMap<u64, u64> = BTreeMap::new(alloc);
    for meta in metas {
        let node = bank.make(alloc, SYMBOL, &[*meta, 0], &[])?;
        keep(&mut images, node, spare)?;
    }
    Ok(images)
}

/// The index of the term at `e` with the term at `spare` for each metavariable.
pub fn grounded(
    bank: &mut Bank,
    alloc: Global,
    metas: &[u64],
    spare: u64,
    e: u64,
) -> Result<u64, Memory>
    requires spare { spare < length bank.old }
    requires term { e < length bank.old }
    ensures extends { Extends bank.old bank.new }
    ensures distinct { IsDistinct bank.new }
    ensures ok { IfOk result (λ k. HasTree bank.new k
        (assign (symbols metas.now) (λ f. tree_at bank.old spare) (tree_at bank.old e))) }
{
    let images = ground_images(bank, alloc, metas, spare)?;
    moved(bank, alloc, images, e)
}
