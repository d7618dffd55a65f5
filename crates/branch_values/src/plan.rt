//! Plans: the formulas below a formula through connectives, each once and before its parts.
ghost use Rattle.std.specs.Prelude.{◌≡◌, ◌↔◌, ◌⊎◌, ◌<◌, [], ℕ, length, OnOk, IfOk};
ghost use Rattle.term_bank.specs.Banks.{IsDistinct, Extends};
ghost use Rattle.term_bank.specs.Images.{In};
ghost use Rattle.branch_state.specs.Parts.{Holds, shown};
ghost use Rattle.tableau_search.specs.Entries.{AreKnown, branch_of};
ghost use Rattle.branch_values.specs.Judging.{link_parts};
ghost use Rattle.branch_values.specs.Plans.{needed, IsPlan};

use crate::link::Link;
use crate::work::{Task, Work, work_at};
use branch_state::Parts;
use core_expr::Memory;
use std::alloc::Global;
use std::collections::BTreeSet;
use term_bank::Bank;

/// Adds an index.
fn put(todo: &mut BTreeSet<u64>, index: u64) -> Result<(), Memory>
    ensures { OnOk result ((q : ℕ) → In q todo.new.keys ↔ ((q ≡ index) ⊎ In q todo.old.keys)) }
{
    todo.insert(index)?;
    Ok(())
}

/// Adds the parts by a connective.
fn put_parts(todo: &mut BTreeSet<u64>, link: Link) -> Result<(), Memory>
    ensures { OnOk result ((q : ℕ)
        → In q todo.new.keys ↔ (In q (link_parts link) ⊎ In q todo.old.keys)) }
{
    match link {
        Link::Alone => Ok(()),
        Link::Denied(a) => put(todo, a),
        Link::Joined(_, a, b) => {
            put(todo, b)?;
            put(todo, a)
        }
    }
}

/// Adds the formulas whose values are needed first.
fn put_needed(todo: &mut BTreeSet<u64>, work: Work) -> Result<(), Memory>
    ensures { OnOk result ((q : ℕ)
        → In q todo.new.keys ↔ (In q (needed work) ⊎ In q todo.old.keys)) }
{
    match work {
        Work::Known(_) => Ok(()),
        Work::Linked(link) => put_parts(todo, link),
    }
}

/// The plan for the value of the formula at `e`.
pub fn plan(bank: &mut Bank, alloc: Global, parts: &Parts, e: u64) -> Result<Vec<Task>, Memory>
    requires start { e < length bank.old }
    requires held { Holds parts.now }
    requires known { AreKnown (length bank.old) (shown parts.now).now }
    ensures extends { Extends bank.old bank.new }
    ensures distinct { IsDistinct bank.new }
    ensures ok { IfOk result (λ tasks. IsPlan bank.new
        (branch_of bank.old (shown parts.now).now) e tasks.items []) }
{
    let _count = bank.count();
    let mut todo: BTreeSet<u64> = BTreeSet::new(alloc);
    put(&mut todo, e)?;
    let mut tasks = Vec::new(alloc);
    while let Some(index) = todo.pop_last() {
        let work = work_at(bank, alloc, parts, index)?;
        put_needed(&mut todo, work)?;
        tasks.push(Task { index, work })?;
    }
    Ok(tasks)
}
