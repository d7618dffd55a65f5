//! The value of a formula on the branch, and what it rests on.
ghost use Rattle.std.specs.Prelude.{◌≡◌, ◌<◌, length, IfOk};
ghost use Rattle.core_expr.specs.Nodes.{AreBelow};
ghost use Rattle.term_bank.specs.Banks.{IsDistinct, Extends, tree_at};
ghost use Rattle.search_definition.specs.Values.{truth, grounds};
ghost use Rattle.branch_state.specs.Parts.{Holds, shown};
ghost use Rattle.tableau_search.specs.Entries.{AreKnown, branch_of};
ghost use Rattle.formula_rules.specs.Answers.{trees_at};
ghost use Rattle.branch_values.specs.Judging.{truth_of};

use crate::grounds::{grounds_at, grounds_of};
use crate::plan::plan;
use crate::value::Value;
use crate::values::{value_at, values_of};
use branch_state::Parts;
use core_expr::Memory;
use std::alloc::Global;
use term_bank::Bank;

/// The value of the formula at an index on the branch.
pub fn value_on(bank: &mut Bank, alloc: Global, parts: &Parts, f: u64) -> Result<Value, Memory>
    requires within { f < length bank.old }
    requires held { Holds parts.now }
    requires known { AreKnown (length bank.old) (shown parts.now).now }
    ensures extends { Extends bank.old bank.new }
    ensures distinct { IsDistinct bank.new }
    ensures value { IfOk result (λ v.
        truth_of v ≡ truth (branch_of bank.old (shown parts.now).now) (tree_at bank.old f)) }
{
    let _count = bank.count();
    let tasks = plan(bank, alloc, parts, f)?;
    let values = values_of(alloc, tasks.as_slice())?;
    Ok(value_at(&values, f))
}

/// The formulas on the branch that the value of the formula at an index rests on, each once, in the order in which they are
/// found: none where the value is not known.
pub fn grounds_on(bank: &mut Bank, alloc: Global, parts: &Parts, f: u64) -> Result<Vec<u64>, Memory>
    requires within { f < length bank.old }
    requires held { Holds parts.now }
    requires known { AreKnown (length bank.old) (shown parts.now).now }
    ensures extends { Extends bank.old bank.new }
    ensures distinct { IsDistinct bank.new }
    ensures below { IfOk result (λ v. AreBelow (length bank.new) v.items) }
    ensures grounds { IfOk result (λ v. trees_at bank.new v.items
        ≡ grounds (branch_of bank.old (shown parts.now).now) (tree_at bank.old f)) }
{
    let _count = bank.count();
    let tasks = plan(bank, alloc, parts, f)?;
    let values = values_of(alloc, tasks.as_slice())?;
    let grounds = grounds_of(alloc, tasks.as_slice(), &values)?;
    Ok(Vec::from_slice(alloc, grounds_at(&grounds, f))?)
}
