//! The jobs of a run.

ghost use Rattle.std.specs.Prelude.{◌≡◌, Bool, IfOk};
ghost use Rattle.core_expr.specs.declared.canon.Canon.{Canon};
ghost use Rattle.leaf_prover.specs.Provers.{IsAnswered};
ghost use Rattle.worker_map.specs.Answers.{IsVerdict};
ghost use Rattle.worker_map.specs.Stops.{AllGiven};
ghost use Rattle.leaf_jobs.specs.Plans.{AreVerdicts};
ghost use Rattle.command_words.specs.Requests.{asked_by};
ghost use Rattle.proof_cache.specs.Records.{kept_for};
ghost use Rattle.proof_manager.specs.Runs.{InRange, Proofs};
ghost use Rattle.proof_manager.specs.Causes.{IsFine, read_in};
ghost use Rattle.proof_manager.specs.Judging.{IsJudged};

use crate::kept::{is_wanted, next_cache};
use crate::load::Checked;
use claim_board::Board;
use command_words::Request;
use core_expr::Memory;
use job_plan::{Plan, plan};
use leaf_jobs::{Judged, forms, judge, whole_finds_memory, whole_is_given};
use leaf_prover::{Engine, right_is_answered};
use proof_cache::{Cache, Limit};
use std::alloc::Global;
use std::thread::Threads;
use worker_map::{Done, Gate, Jobs, run_jobs};

/// The verdicts of the jobs of a plan, by the workers that are asked for. There are never more than 2^32 jobs, since each has a leaf of
/// its own; more are refused as want of memory.
fn run_plan<R: Threads + Sync, G: Gate>(
    rt: &R,
    alloc: Global,
    plan: &Plan,
    request: Request,
    cache: &Cache,
    gate: &G,
) -> Result<Done, Memory>
    requires { InRange (asked_by request) }
    ensures given { IfOk result (λ d. AllGiven
        (IsVerdict (λ c. IsAnswered (kept_for cache.now c) request.entry.turns c)
        plan.now.jobs.items) d.verdicts.items) }
    ensures verdicts { IfOk result (λ d.
        AreVerdicts request.entry.stop d.least plan.now.jobs.items d.verdicts.items) }
{
    let count = plan.jobs.len() as u64;
    if count > 4294967296 {
        return Err(Memory);
    }
    let (board, mut seat) = Board::new(alloc, count)?;
    let engine = Engine::new(alloc);
    let Some(limit) = Limit::new(request.turns) else {
        unreachable!()
    };
    let jobs = Jobs {
        list: plan.jobs.as_slice(),
        prover: &engine,
        cache,
        limit,
    };
    let done = run_jobs(
        rt,
        alloc,
        &jobs,
        request.workers,
        &board,
        &mut seat,
        gate,
        request.stop,
    );
    board.close(seat);
    done
}

/// What the leaves of modules come to, and the new cache.
#[derive(Drop)]
pub struct Outcome {
    pub judged: Judged,
    /// The new cache, where one is to be left.
    pub next: Option<Vec<u8>>,
}

/// What the leaves of modules come to, by the workers that are asked for and by the proofs that are kept; with `stop` up to the first failed
/// leaf. With a file the new cache is made too, unless the report is stopped.
pub fn judge_all<R: Threads + Sync, G: Gate>(
    rt: &R,
    alloc: Global,
    checked: &Checked,
    request: Request,
    cache: &Cache,
    gate: &G,
) -> Result<Outcome, Memory>
    requires range { InRange (asked_by request) }
    requires fine { IsFine checked.now }
    ensures { IfOk result (IsJudged (kept_for cache.now) (asked_by request.entry)
        (read_in checked.now)) }
{
    right_is_answered();
    whole_is_given();
    whole_finds_memory();
    let chapters = checked.chapters.as_slice();
    let plan = plan(alloc, forms(alloc, chapters)?)?;
    let done = run_plan(rt, alloc, &plan, request, cache, gate)?;
    let judged = judge(
        alloc,
        &checked.scoped,
        chapters,
        &plan,
        done.verdicts.as_slice(),
        done.least,
        request.stop,
    )?;
    let wanted = is_wanted(request.cache, judged.stopped);
    let next = next_cache(
        alloc,
        wanted,
        plan.jobs.as_slice(),
        done.verdicts.as_slice(),
    )?;
    Ok(Outcome { judged, next })
}
