//! What the values of the formulas of a plan rest on.
ghost use Rattle.std.specs.Prelude.{◌≡◌, [], ℕ, List, cond, Some, IfOk, OnOk};
ghost use Rattle.std.specs.Ordering.{nat_cmp};
ghost use Rattle.std.specs.BTreeMap.{is_at};
ghost use Rattle.core_expr.specs.Tree.{Tree};
ghost use Rattle.term_bank.specs.Banks.{IsDistinct};
ghost use Rattle.search_definition.specs.Branches.{Branch};
ghost use Rattle.branch_values.specs.Judging.{truth_of};
ghost use Rattle.branch_values.specs.Reasons.{basis_list};
ghost use Rattle.branch_values.specs.Plans.{ArePlanned, indices};
ghost use Rattle.branch_values.specs.Memos.{at_index, kept_truth, kept_grounds, in_numbers, merged_numbers, numbers_known, link_grounds, work_grounds, HaveValues, HaveGrounds};

use crate::link::Link;
use crate::value::Value;
use crate::values::link_value;
use crate::work::{Task, Work};
use core_expr::Memory;
use std::alloc::Global;
use std::collections::BTreeMap;

/// Keeps the grounds of an index.
fn keep_grounds(
    grounds: &mut BTreeMap<u64, Vec<u64>>,
    index: u64,
    list: Vec<u64>,
) -> Result<(), Memory>
    ensures { OnOk result ((q : ℕ) → at_index q grounds.new.entries
        ≡ cond (is_at (nat_cmp index) q) (Some list) (at_index q grounds.old.entries)) }
{
    grounds.insert(index, list)?;
    Ok(())
}

/// The grounds that are kept at an index, none where none are.
pub fn grounds_at(grounds: &BTreeMap<u64, Vec<u64>>, i: u64) -> &[u64]
    ensures { result.now ≡ kept_grounds grounds.entry.now.entries i }
{
    match grounds.get(&i) {
        Some(list) => list.as_slice(),
        None => &[],
    }
}

/// Whether the number is in the list.
fn contains(list: &[u64], number: u64) -> bool
    ensures { result ≡ in_numbers list.now number }
{
    for x in list {
        if *x == number {
            return true;
        }
    }
    false
}

/// The first list, and what the second has more.
fn merge(alloc: Global, first: &[u64], second: &[u64]) -> Result<Vec<u64>, Memory>
    ensures { IfOk result (λ v. v.items ≡ merged_numbers first.now second.now) }
{
    let mut list = Vec::from_slice(alloc, first)?;
    for number in second {
        if !contains(list.as_slice(), *number) {
            list.push(*number)?;
        }
    }
    Ok(list)
}

/// The grounds of two formulas joined, where the value is known.
fn join_grounds(
    alloc: Global,
    value: Value,
    first: &[u64],
    second: &[u64],
) -> Result<Vec<u64>, Memory>
    ensures { IfOk result (λ v.
        v.items ≡ numbers_known (truth_of value) (merged_numbers first.now second.now)) }
{
    match value {
        Value::Unknown => Ok(Vec::new(alloc)),
        _ => merge(alloc, first, second),
    }
}

/// The grounds by the connective.
fn link_grounds(
    alloc: Global,
    values: &BTreeMap<u64, Value>,
    grounds: &BTreeMap<u64, Vec<u64>>,
    link: Link,
) -> Result<Vec<u64>, Memory>
    ensures { IfOk result (λ v. v.items ≡ link_grounds (kept_truth values.now.entries)
        (kept_grounds grounds.now.entries) link) }
{
    let value = link_value(values, link);
    match link {
        Link::Alone => Ok(Vec::new(alloc)),
        Link::Denied(a) => Ok(Vec::from_slice(alloc, grounds_at(grounds, a))?),
        Link::Joined(_, a, b) => {
            join_grounds(alloc, value, grounds_at(grounds, a), grounds_at(grounds, b))
        }
    }
}

/// The formula that a reason rests on, if it rests on one.
fn reason_grounds(alloc: Global, basis: Option<u64>) -> Result<Vec<u64>, Memory>
    ensures { IfOk result (λ v. v.items ≡ basis_list basis) }
{
    match basis {
        Some(k) => Ok(Vec::from_slice(alloc, &[k])?),
        None => Ok(Vec::new(alloc)),
    }
}

/// The grounds over those that are kept.
fn work_grounds(
    alloc: Global,
    values: &BTreeMap<u64, Value>,
    grounds: &BTreeMap<u64, Vec<u64>>,
    work: Work,
) -> Result<Vec<u64>, Memory>
    ensures { IfOk result (λ v. v.items ≡ work_grounds (kept_truth values.now.entries)
        (kept_grounds grounds.now.entries) work) }
{
    match work {
        Work::Known(reason) => reason_grounds(alloc, reason.basis),
        Work::Linked(link) => link_grounds(alloc, values, grounds, link),
    }
}

/// The grounds of all formulas of a plan, the last first.
pub fn grounds_of(
    alloc: Global,
    tasks: &[Task],
    values: &BTreeMap<u64, Value>,
) -> Result<BTreeMap<u64, Vec<u64>>, Memory>
    ensures { IfOk result (λ grounds. (ts : List Tree) → (b : Branch) → IsDistinct ts
        → ArePlanned ts b tasks.now [] → HaveValues ts b values.now.entries (indices tasks.now)
        → HaveGrounds ts b grounds.entries (indices tasks.now)) }
{
    let mut grounds: BTreeMap<u64, Vec<u64>> = BTreeMap::new(alloc);
    for k in 0..tasks.len() {
        let task = tasks[tasks.len() - 1 - k];
        let list = work_grounds(alloc, values, &grounds, task.work)?;
        keep_grounds(&mut grounds, task.index, list)?;
    }
    Ok(grounds)
}
