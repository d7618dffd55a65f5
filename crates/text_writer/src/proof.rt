//! Proofs as they are written.
ghost use Rattle.std.specs.Prelude.{◌≡◌, ◌<◌, length, map, IfOk, OnOk};
ghost use Rattle.core_expr.specs.Nodes.{AreBelow};
ghost use Rattle.seq_calculus.specs.Steps.{proof_of};
ghost use Rattle.text_writer.specs.Rows.{below_last, last_places};
ghost use Rattle.text_writer.specs.Shared.{AreNoted};
ghost use Rattle.text_writer.specs.Proofs.{lists_of, proof_list};
ghost use Rattle.text_writer.specs.Tasks.{step_at, state, finished, act, acts, step_of};

use crate::canon::write_nodes;
use crate::shared::{Growing, empty, enter_each};
use crate::step::write_steps;
use crate::task::{Task, wait_for};
use core_expr::Memory;
use seq_calculus::{ProofStep, SeqProof};
use sqlite_items::Items;
use std::alloc::Global;

/// The lists of a proof as they grow, and the places of the steps that are still to be premises.
#[derive(Drop)]
struct Made {
    growing: Growing,
    steps: Vec<ProofStep>,
    places: Vec<u64>,
}

/// The last places, so many, which stand no more.
fn take_last(alloc: Global, places: &mut Vec<u64>, count: usize) -> Result<Items<u64>, Memory>
    ensures taken { IfOk result (λ ps. ps ≡ last_places count places.old.items) }
    ensures left { OnOk result (places.new.items ≡ below_last count places.old.items) }
{
    let below = places.len().saturating_sub(count);
    let last = Items::from_slice(alloc, &places[below..])?;
    places.truncate(below);
    Ok(last)
}

/// Enters the step `i`, which stands for its premises, the last places.
fn finish(alloc: Global, proof: &SeqProof, made: &mut Made, i: u64) -> Result<(), Memory>
    requires noted { AreNoted proof.now.nodes made.old.growing.table.keys made.old.growing.places.items }
    requires step { i < length proof.now.steps }
    ensures entered { OnOk result (
        state made.new.growing.table.keys made.new.steps.items made.new.places.items
        ≡ finished proof.now (step_at proof.now i)
        (state made.old.growing.table.keys made.old.steps.items made.old.places.items)) }
    ensures noted { OnOk result (
        AreNoted proof.now.nodes made.new.growing.table.keys made.new.growing.places.items) }
{
    let nodes = proof.nodes();
    let step = &proof.steps()[i as usize];
    let exprs = enter_each(alloc, nodes, &mut made.growing, step.exprs.as_slice())?;
    let premises = take_last(alloc, &mut made.places, step.premises.len())?;
    made.places.push(made.steps.len() as u64)?;
    made.steps.push(ProofStep {
        rule: step.rule,
        numbers: Items::from_slice(alloc, step.numbers.as_slice())?,
        exprs,
        premises,
    })?;
    Ok(())
}

/// Does a task: others may come behind those that are left.
fn turn(
    alloc: Global,
    proof: &SeqProof,
    made: &mut Made,
    tasks: &mut Vec<Task>,
    task: Task,
) -> Result<(), Memory>
    requires noted { AreNoted proof.now.nodes made.old.growing.table.keys made.old.growing.places.items }
    requires tasks { AreBelow (length proof.now.steps) (map step_of tasks.old.items) }
    requires task { step_of task < length proof.now.steps }
    ensures entered { OnOk result (
        acts proof.now tasks.new.items
        (state made.new.growing.table.keys made.new.steps.items made.new.places.items)
        ≡ acts proof.now tasks.old.items (act proof.now task
        (state made.old.growing.table.keys made.old.steps.items made.old.places.items))) }
    ensures noted { OnOk result (
        AreNoted proof.now.nodes made.new.growing.table.keys made.new.growing.places.items) }
    ensures tasks { OnOk result (AreBelow (length proof.now.steps) (map step_of tasks.new.items)) }
{
    match task {
        Task::Visit(i) => wait_for(tasks, proof.steps()[i as usize].premises.as_slice(), i),
        Task::Finish(i) => finish(alloc, proof, made, i),
    }
}

/// The lists of a proof's tree.
fn make(alloc: Global, proof: &SeqProof) -> Result<Made, Memory>
    ensures nodes { IfOk result (λ m. m.growing.table.keys ≡ (lists_of (proof_of proof.now)).nodes) }
    ensures steps { IfOk result (λ m. m.steps.items ≡ (lists_of (proof_of proof.now)).steps) }
{
    let mut made = Made {
        growing: empty(alloc, proof.nodes())?,
        steps: Vec::new(alloc),
        places: Vec::new(alloc),
    };
    let root = proof.steps().len() as u64 - 1;
    let mut tasks = vec![in alloc; Task::Visit(root)]?;
    for _ in 0..u64::MAX {
        let Some(task) = tasks.pop() else {
            return Ok(made);
        };
        turn(alloc, proof, &mut made, &mut tasks, task)?;
    }
    Err(Memory)
}

/// The list of a proof: that of its tree, so that steps and nodes that nothing uses are gone. Want of memory is the only other
/// answer.
#[tactic(auto, unfolding(crate::specs::Proofs::proof_list, seq_calculus::specs::Lists::written))]
pub fn write_proof(alloc: Global, proof: &SeqProof) -> Result<Items<u64>, Memory>
    ensures { IfOk result (λ l. l ≡ proof_list proof.now) }
{
    let made = make(alloc, proof)?;
    let nodes = made.growing.table.as_slice();
    let mut list = Vec::new(alloc);
    list.push(nodes.len() as u64)?;
    write_nodes(&mut list, nodes)?;
    list.push(made.steps.len() as u64)?;
    write_steps(&mut list, made.steps.as_slice())?;
    Ok(Items::from_vec(list))
}
