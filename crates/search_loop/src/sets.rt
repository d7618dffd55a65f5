//! Sets of the numbers of splits, as falling lists.
ghost use Rattle.std.specs.Prelude.{◌≡◌, ◌<◌, ◌≤◌, ◌+◌, ◌∷◌, ◌++◌, [], ℕ, List, drop, IfOk, OnOk};
ghost use Rattle.search_definition.specs.Needs.{contains, union, without};
ghost use Rattle.search_loop.specs.Stacks.{Falls};

use std::alloc::{AllocError, Global};

/// Whether the number is in the set.
pub fn contains(set: &[u64], number: u64) -> bool
    requires { Falls set.now }
    ensures { result ≡ contains set.now number }
{
    for member in set {
        if *member <= number {
            return *member == number;
        }
    }
    false
}

/// The member comes to the end, where it is not the number.
fn push_other(others: &mut Vec<u64>, member: u64, number: u64) -> Result<(), AllocError>
    ensures { OnOk result (others.new.items ≡ others.old.items ++ without (member ∷ []) number) }
{
    if member == number {
        return Ok(());
    }
    others.push(member)?;
    Ok(())
}

/// The set without the number.
pub fn without(alloc: Global, set: &[u64], number: u64) -> Result<Vec<u64>, AllocError>
    ensures { IfOk result (λ r. r.items ≡ without set.now number) }
{
    let mut others = Vec::new(alloc);
    for member in set {
        push_other(&mut others, *member, number)?;
    }
    Ok(others)
}

/// The greater of two first numbers, and how many of the left and of the right set it stands for.
#[derive(Clone, Copy, Debug)]
pub struct Taken {
    pub number: u64,
    pub lefts: usize,
    pub rights: usize,
}

/// What two sets with these first numbers have first.
fn greater(left: u64, right: u64) -> Taken
    ensures first { (ns ks : List ℕ) → union (left ∷ ns) (right ∷ ks)
        ≡ result.number ∷ union (drop result.lefts (left ∷ ns)) (drop result.rights (right ∷ ks)) }
    ensures lefts { result.lefts ≤ 1 }
    ensures rights { result.rights ≤ 1 }
    ensures some { 0 < result.lefts + result.rights }
{
    if left < right {
        Taken {
            number: right,
            lefts: 0,
            rights: 1,
        }
    } else if left == right {
        Taken {
            number: left,
            lefts: 1,
            rights: 1,
        }
    } else {
        Taken {
            number: left,
            lefts: 1,
            rights: 0,
        }
    }
}

/// The union of two sets: they are merged.
pub fn union(alloc: Global, left: &[u64], right: &[u64]) -> Result<Vec<u64>, AllocError>
    ensures { IfOk result (λ r. r.items ≡ union left.now right.now) }
{
    let mut both = Vec::with_capacity(alloc, left.len())?;
    let mut i = 0;
    let mut j = 0;
    while i < left.len() && j < right.len() {
        let taken = greater(left[i], right[j]);
        both.push(taken.number)?;
        i += taken.lefts;
        j += taken.rights;
    }
    both.extend_from_slice(&left[i..])?;
    both.extend_from_slice(&right[j..])?;
    Ok(both)
}
