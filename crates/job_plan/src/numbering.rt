//! Leaves with equal canonical forms are one job.
ghost use Rattle.std.specs.Prelude.{◌≡◌, IfOk, []};
ghost use Rattle.indexmap.specs.IndexSet.{insert_all};
ghost use Rattle.core_expr.specs.Equality.{same_canon};
ghost use Rattle.job_plan.specs.Plan.{ArePlaces, canons_of, names_of};

use crate::jobs::{Numbered, Plan};
use canonical_form::Named;
use core_expr::{Canon, Memory};
use indexmap::IndexSet;
use std::alloc::Global;

/// The jobs in a set, and each leaf's job.
fn number(alloc: Global, leaves: Vec<Named>) -> Result<Numbered, Memory>
    ensures jobs { IfOk result (λ p.
        p.jobs.keys ≡ insert_all same_canon [] (canons_of leaves.items)) }
    ensures places { IfOk result (λ p.
        ArePlaces p.jobs.keys (canons_of leaves.items) p.of_leaf.items) }
    ensures names { IfOk result (λ p. p.names.items ≡ names_of leaves.items) }
{
    let mut jobs = IndexSet::new(alloc);
    let mut of_leaf = Vec::new(alloc);
    let mut names = Vec::new(alloc);
    for leaf in leaves {
        let Named {
            canon,
            names: of_it,
        } = leaf;
        let (place, _) = jobs.insert_full(canon)?;
        of_leaf.push(place as u64)?;
        names.push(of_it)?;
    }
    Ok(Numbered {
        jobs,
        of_leaf,
        names,
    })
}

/// The jobs in a list.
fn listed(alloc: Global, jobs: IndexSet<Canon>) -> Result<Vec<Canon>, Memory>
    ensures { IfOk result (λ v. v.items ≡ jobs.keys) }
{
    let mut list = Vec::new(alloc);
    for job in jobs {
        list.push(job)?;
    }
    Ok(list)
}

/// One job for each different canonical form, in order of the first leaf, and for each leaf its job and its names. Expected time is
/// linear in the forms.
pub fn plan(alloc: Global, leaves: Vec<Named>) -> Result<Plan, Memory>
    ensures jobs { IfOk result (λ p.
        p.jobs.items ≡ insert_all same_canon [] (canons_of leaves.items)) }
    ensures places { IfOk result (λ p.
        ArePlaces p.jobs.items (canons_of leaves.items) p.of_leaf.items) }
    ensures names { IfOk result (λ p. p.names.items ≡ names_of leaves.items) }
{
    let Numbered {
        jobs,
        of_leaf,
        names,
    } = number(alloc, leaves)?;
    let jobs = listed(alloc, jobs)?;
    Ok(Plan {
        jobs,
        of_leaf,
        names,
    })
}
