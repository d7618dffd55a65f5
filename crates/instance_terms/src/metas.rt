//! The numbers of the metavariables of atoms.
ghost use Rattle.std.specs.Prelude.{◌≡◌, ◌+◌, ◌*◌, ◌++◌, IfOk, OnOk};
ghost use Rattle.search_definition.specs.Instances.{own_meta, first_metas};
ghost use Rattle.unify_meta.specs.Metas.{symbols};
ghost use Rattle.instance_terms.specs.Fresh.{fresh_of, both_of, meta_from};

use crate::fresh::FreshNumbers;
use core_expr::Memory;
use std::alloc::Global;

/// The number of the metavariable with this index, where those of its universal begin at `first` and every other number is
/// theirs. There is a want of memory where the numbers run out.
pub fn meta_at(first: u64, index: u64) -> Result<u64, Memory>
    ensures { IfOk result (λ n. n ≡ first + 2 * index) }
{
    let Some(twice) = index.checked_mul(2) else {
        return Err(Memory);
    };
    let Some(number) = first.checked_add(twice) else {
        return Err(Memory);
    };
    Ok(number)
}

/// Adds the metavariables with an index below `count`, the greatest first.
fn add_metas(metas: &mut Vec<u64>, first: u64, count: u64) -> Result<(), Memory>
    ensures { OnOk result (symbols metas.new.items
        ≡ symbols metas.old.items ++ first_metas (meta_from first) count) }
{
    let mut left = count;
    while left > 0 {
        left -= 1;
        metas.push(meta_at(first, left)?)?;
    }
    Ok(())
}

/// The metavariables of an atom of the universal that is instantiated, which has so many.
pub fn own_metas(alloc: Global, w: FreshNumbers, count: u64) -> Result<Vec<u64>, Memory>
    ensures { IfOk result (λ v. symbols v.items ≡ first_metas (own_meta (fresh_of w)) count) }
{
    let mut metas = Vec::new(alloc);
    add_metas(&mut metas, w.metas, count)?;
    Ok(metas)
}

/// The metavariables of an atom of the universal that is instantiated, and those of its partner's.
pub fn both_metas(
    alloc: Global,
    w: FreshNumbers,
    own: u64,
    partner: u64,
) -> Result<Vec<u64>, Memory>
    ensures { IfOk result (λ v. symbols v.items ≡ both_of (fresh_of w) own partner) }
{
    let Some(first) = w.metas.checked_add(1) else {
        return Err(Memory);
    };
    let mut metas = Vec::new(alloc);
    add_metas(&mut metas, w.metas, own)?;
    add_metas(&mut metas, first, partner)?;
    Ok(metas)
}
