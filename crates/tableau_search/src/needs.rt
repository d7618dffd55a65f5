//! The needs of what a rule names.
ghost use Rattle.std.specs.Prelude.{◌≡◌, ◌∷◌, [], IfOk};
ghost use Rattle.search_definition.specs.Needs.{union};
ghost use Rattle.branch_state.specs.Parts.{Holds, shown};
ghost use Rattle.branch_state.specs.Shown.{Falls};
ghost use Rattle.tableau_search.specs.Entries.{needs_of_all};

use branch_state::{Parts, needs_of};
use search_loop::union;
use std::alloc::{AllocError, Global};

/// The needs of all these formulas.
pub fn needs_of_all(alloc: Global, parts: &Parts, named: &[u64]) -> Result<Vec<u64>, AllocError>
    requires { Holds parts.now }
    ensures needs { IfOk result (λ v. v.items ≡ needs_of_all (shown parts.now).now named.now) }
    ensures falls { IfOk result (λ v. Falls v.items) }
{
    let mut needs = Vec::new(alloc);
    let mut left = named.len();
    while left > 0 {
        left -= 1;
        needs = union(alloc, needs_of(parts, named[left]), &needs)?;
    }
    Ok(needs)
}

/// The needs of all these formulas, and the number of a split.
pub fn needs_of_split(
    alloc: Global,
    parts: &Parts,
    named: &[u64],
    number: u64,
) -> Result<Vec<u64>, AllocError>
    requires { Holds parts.now }
    ensures needs { IfOk result (λ v.
        v.items ≡ union (number ∷ []) (needs_of_all (shown parts.now).now named.now)) }
    ensures falls { IfOk result (λ v. Falls v.items) }
{
    let needs = needs_of_all(alloc, parts, named)?;
    let both = union(alloc, &[number], &needs)?;
    Ok(both)
}
