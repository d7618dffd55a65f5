//! The values of the formulas of a plan.
ghost use Rattle.std.specs.Prelude.{◌≡◌, [], ℕ, List, cond, Some, IfOk, OnOk};
ghost use Rattle.std.specs.Ordering.{nat_cmp};
ghost use Rattle.std.specs.BTreeMap.{is_at};
ghost use Rattle.core_expr.specs.Tree.{Tree};
ghost use Rattle.search_definition.specs.Branches.{Branch};
ghost use Rattle.branch_values.specs.Judging.{truth_of};
ghost use Rattle.branch_values.specs.Plans.{ArePlanned, indices};
ghost use Rattle.branch_values.specs.Memos.{at_index, kept_value, kept_truth, link_truth, work_truth, HaveValues};

use crate::link::Link;
use crate::value::{Value, joined, opposite};
use crate::work::{Task, Work};
use core_expr::Memory;
use std::alloc::Global;
use std::collections::BTreeMap;

/// The value that is kept at an index, not known where none is.
pub fn value_at(values: &BTreeMap<u64, Value>, i: u64) -> Value
    ensures { result ≡ kept_value values.now.entries i }
{
    match values.get(&i) {
        Some(value) => *value,
        None => Value::Unknown,
    }
}

/// Keeps the value of an index.
fn keep_value(values: &mut BTreeMap<u64, Value>, index: u64, value: Value) -> Result<(), Memory>
    ensures { OnOk result ((q : ℕ) → at_index q values.new.entries
        ≡ cond (is_at (nat_cmp index) q) (Some value) (at_index q values.old.entries)) }
{
    values.insert(index, value)?;
    Ok(())
}

/// The value by the connective.
pub fn link_value(values: &BTreeMap<u64, Value>, link: Link) -> Value
    ensures { truth_of result ≡ link_truth (kept_truth values.now.entries) link }
{
    match link {
        Link::Alone => Value::Unknown,
        Link::Denied(a) => opposite(value_at(values, a)),
        Link::Joined(connective, a, b) => {
            joined(connective, value_at(values, a), value_at(values, b))
        }
    }
}

/// The value over those that are kept.
fn work_value(values: &BTreeMap<u64, Value>, work: Work) -> Value
    ensures { truth_of result ≡ work_truth (kept_truth values.now.entries) work }
{
    match work {
        Work::Known(reason) => reason.value,
        Work::Linked(link) => link_value(values, link),
    }
}

/// The values of all formulas of a plan, the last first.
pub fn values_of(alloc: Global, tasks: &[Task]) -> Result<BTreeMap<u64, Value>, Memory>
    ensures { IfOk result (λ values. (ts : List Tree) → (b : Branch) → ArePlanned ts b tasks.now []
        → HaveValues ts b values.entries (indices tasks.now)) }
{
    let mut values: BTreeMap<u64, Value> = BTreeMap::new(alloc);
    for k in 0..tasks.len() {
        let task = tasks[tasks.len() - 1 - k];
        let value = work_value(&values, task.work);
        keep_value(&mut values, task.index, value)?;
    }
    Ok(values)
}
