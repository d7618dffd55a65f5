//! Readers of steps.
ghost use Rattle.std.specs.Prelude.{◌≡◌, IfOk};
ghost use Rattle.proof_text.specs.Reading.{Reads, ReadsAs, number};
ghost use Rattle.proof_text.specs.Readers.{is_free, premises, without, without_all, rule_test, step_operands, step_behind, step, next_free, steps, counted_steps};

use crate::cursor::{Cursor, Fault, Test};
use crate::free::Free;
use crate::operands::{operands, weak_operands};
use crate::parts::Operands;
use crate::shape::{premise_count, step_shape};
use crate::table::has_room;
use seq_calculus::ProofStep;
use sqlite_items::Items;
use std::alloc::Global;

/// A step that is free, which is free no longer.
fn premise(cursor: &mut Cursor, free: &mut Free) -> Result<u64, Fault>
    ensures reads { Reads result (number (is_free free.old) cursor.old) cursor.new }
    ensures free { IfOk result (λ p. free.new ≡ without free.old p) }
{
    let Some(step) = cursor.first() else {
        return Err(Fault::Bad(0));
    };
    let is_free = free.is_free(step);
    let step = cursor.tested(step, is_free)?;
    free.take(step);
    Ok(step)
}

/// So many steps that are free, each once.
#[tactic(auto, unfolding(crate::specs::Readers::premises))]
fn premises(
    cursor: &mut Cursor,
    alloc: Global,
    free: &mut Free,
    count: u64,
) -> Result<Items<u64>, Fault>
    ensures reads { Reads result (premises count free.old cursor.old) cursor.new }
    ensures free { IfOk result (λ ps. free.new ≡ without_all free.old ps) }
{
    let mut items = Items::new(alloc);
    for i in 0..count {
        let item = premise(cursor, free)?;
        items.push(item)?;
    }
    Ok(items)
}

/// Whether a step behind a table of so many nodes may have this rule.
#[tactic(auto, unfolding(crate::specs::Readers::rule_test))]
fn is_rule(nodes: u64, free: &Free, rule: u64) -> bool
    ensures { result ≡ rule_test nodes free.now rule }
{
    rule < 22 && has_room(step_shape(rule).tail, nodes) && premise_count(rule) <= free.count()
}

/// The rule of a step behind a table of so many nodes.
fn rule(cursor: &mut Cursor, nodes: u64, free: &Free) -> Result<u64, Fault>
    ensures { Reads result (number (rule_test nodes free.now) cursor.old) cursor.new }
{
    match cursor.first() {
        None => Err(Fault::Bad(0)),
        Some(rule) => cursor.tested(rule, is_rule(nodes, free, rule)),
    }
}

/// The operands of a step with this rule.
fn step_operands(
    cursor: &mut Cursor,
    alloc: Global,
    rule: u64,
    nodes: u64,
) -> Result<Operands, Fault>
    ensures { Reads result (step_operands rule nodes cursor.old) cursor.new }
{
    if rule == 3 {
        return weak_operands(cursor, alloc, nodes);
    }
    operands(cursor, alloc, step_shape(rule), nodes)
}

/// What follows the rule of a step.
#[tactic(auto, unfolding(crate::specs::Readers::step_behind))]
fn step_behind(
    cursor: &mut Cursor,
    alloc: Global,
    nodes: u64,
    free: &mut Free,
    rule: u64,
) -> Result<ProofStep, Fault>
    ensures reads { Reads result (step_behind nodes free.old rule cursor.old) cursor.new }
    ensures free { IfOk result (λ s. free.new ≡ without_all free.old s.premises) }
{
    let Operands { numbers, indices } = step_operands(cursor, alloc, rule, nodes)?;
    let premises = premises(cursor, alloc, free, premise_count(rule))?;
    Ok(ProofStep {
        rule,
        numbers,
        exprs: indices,
        premises,
    })
}

/// A step, which is then free for those behind it.
#[tactic(auto, unfolding(crate::specs::Readers::step))]
fn step(cursor: &mut Cursor, alloc: Global, nodes: u64, free: &mut Free) -> Result<ProofStep, Fault>
    ensures reads { Reads result (step nodes free.old cursor.old) cursor.new }
    ensures free { IfOk result (λ s. free.new ≡ next_free free.old s) }
{
    let rule = rule(cursor, nodes, free)?;
    let step = step_behind(cursor, alloc, nodes, free, rule)?;
    free.add()?;
    Ok(step)
}

/// So many steps behind a table of so many nodes.
#[tactic(auto, unfolding(crate::specs::Readers::steps))]
fn steps(
    cursor: &mut Cursor,
    alloc: Global,
    nodes: u64,
    count: u64,
) -> Result<Vec<ProofStep>, Fault>
    ensures { ReadsAs result (λ v. v.items) (steps nodes count cursor.old) cursor.new }
{
    let mut free = Free::new(alloc);
    let mut items = Vec::new(alloc);
    for i in 0..count {
        let item = step(cursor, alloc, nodes, &mut free)?;
        items.push(item)?;
    }
    Ok(items)
}

/// Steps behind their number.
#[tactic(auto, unfolding(crate::specs::Readers::counted_steps))]
pub fn counted_steps(
    cursor: &mut Cursor,
    alloc: Global,
    nodes: u64,
) -> Result<Vec<ProofStep>, Fault>
    ensures { ReadsAs result (λ v. v.items) (counted_steps nodes cursor.old) cursor.new }
{
    let count = cursor.number(Test::Positive)?;
    steps(cursor, alloc, nodes, count)
}
