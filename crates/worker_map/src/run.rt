//! The whole call.
ghost use Rattle.std.specs.Prelude.{◌≡◌, ◌<◌, ◌≤◌, ◌^◌, length, true, false, IfOk, OnErr};
ghost use Rattle.std.specs.List.{AllByRecursion};
ghost use Rattle.claim_board.specs.Seats.{Belongs, view_of, jobs_of};
ghost use Rattle.claim_board.specs.Views.{first_view};
ghost use Rattle.proof_cache.specs.Records.{kept_for};
ghost use Rattle.worker_map.specs.Answers.{IsVerdict, has_failed};
ghost use Rattle.worker_map.specs.Desks.{IsNew};
ghost use Rattle.worker_map.specs.Collected.{IsDone, shown};
ghost use Rattle.worker_map.specs.Stops.{AllGiven, IsCut, IsCutAt, IsLeast, IsNoted, AllSkipBehind, SkipsBehindLeast, told, HasTaken};
ghost use Rattle.pool_core.specs.Schedule.{IsShared, IsAccepted};

use crate::collect::{Lists, collect};
use crate::desk::{desks, hire};
use crate::prover::{Answers, Gate, Jobs};
use crate::table::{blank, fill};
use crate::work::{Worker, work_all};
use claim_board::{Board, BoardSeat};
use core_expr::Memory;
use pool_core::shared_jobs_are_accepted;
use proof_cache::{Prover, Verdict};
use std::alloc::Global;
use std::thread::Threads;

/// The verdicts by the numbers of their jobs, and the jobs that each worker drew, in its order.
#[derive(Drop)]
struct Filled {
    verdicts: Vec<Option<Verdict>>,
    drawn: Vec<Vec<u64>>,
}

/// What comes of the jobs of a run.
#[derive(Drop)]
pub struct Done {
    /// The verdicts by the numbers of their jobs. One that was skipped has none.
    pub verdicts: Vec<Option<Verdict>>,
    /// The jobs that each worker drew from the board, in its order.
    pub drawn: Vec<Vec<u64>>,
    /// The least number of a job that failed.
    pub least: Option<u64>,
}

/// All workers work till no job is left.
fn run_all<R: Threads + Sync, G: Gate, A: Answers>(
    rt: &R,
    board: &Board,
    gate: &G,
    answers: &A,
    stop: bool,
    workers: &mut Vec<Worker>,
)
    requires new { AllByRecursion (IsNew board.now) workers.old.items }
    requires jobs { jobs_of board.now ≡ A.count answers.now }
    ensures each { AllByRecursion (IsDone stop (A.right answers.now) board.now) workers.new.items }
    ensures len { length workers.new.items ≡ length workers.old.items }
{
    work_all(rt, board, gate, answers, stop, workers.as_mut_slice());
}

/// The answers of the jobs below the given number, by so many workers, each in a thread of its own; with `stop` a job
/// behind a failed one may have none.
fn run_numbers<R: Threads + Sync, G: Gate, A: Answers>(
    rt: &R,
    alloc: Global,
    jobs: u64,
    workers: u64,
    board: &Board,
    seat: &mut BoardSeat,
    gate: &G,
    answers: &A,
    stop: bool,
) -> Result<Filled, Memory>
    requires jobs { (jobs ≡ jobs_of board.now) × (jobs ≤ 2 ^ 32) }
    requires count { jobs_of board.now ≡ A.count answers.now }
    requires workers { (0 < workers) × (workers ≤ 64) }
    requires seat { Belongs board.now seat.old × (view_of seat.old ≡ first_view jobs) }
    ensures seat { Belongs board.now seat.new }
    ensures err { OnErr result (view_of seat.new ≡ view_of seat.old) }
    ensures verdicts { IfOk result (λ d. (length d.verdicts.items ≡ jobs) × AllGiven (A.right answers.now) d.verdicts.items) }
    ensures cut { IfOk result (λ d. IsCut stop d.verdicts.items) }
    ensures noted { IfOk result (λ d. IsNoted stop (view_of seat.new).noted d.verdicts.items) }
    ensures alone { IfOk result (λ d. workers ≡ 1 → stop ≡ true → AllSkipBehind (view_of seat.new).noted d.verdicts.items) }
    ensures workers { IfOk result (λ d. length d.drawn.items ≡ workers) }
    ensures shared { IfOk result (λ d. IsShared (shown d.drawn.items) jobs) }
    ensures taken { IfOk result (λ d. HasTaken jobs (shown d.drawn.items) (view_of seat.new)) }
    ensures events { IfOk result (λ d. IsAccepted (told d.verdicts.items) (shown d.drawn.items) jobs) }
{
    shared_jobs_are_accepted();
    let mut table = blank(alloc, jobs)?;
    let drawn = Vec::with_capacity(alloc, workers as usize)?;
    let verdicts = Vec::with_capacity(alloc, workers as usize)?;
    let desks = desks(alloc, jobs, workers)?;
    let crew = Vec::with_capacity(alloc, workers as usize)?;
    let mut crew = hire(board, seat, desks, crew);
    run_all(rt, board, gate, answers, stop, &mut crew);
    let lists = Lists { drawn, verdicts };
    let Lists { drawn, verdicts } = collect(answers, stop, board, seat, crew, lists);
    fill(seat, answers, stop, &mut table, verdicts);
    Ok(Filled {
        verdicts: table,
        drawn,
    })
}

/// Whether the job has failed. A skipped one has not.
fn has_failed(verdict: &Option<Verdict>) -> bool
    ensures { result ≡ has_failed verdict.now }
{
    match verdict {
        None => false,
        Some(verdict) => verdict.is_failed(),
    }
}

/// The least number of a failed verdict.
fn least_failed(verdicts: &[Option<Verdict>]) -> Option<u64>
    ensures { IsLeast result verdicts.now }
{
    for number in 0..verdicts.len() {
        if has_failed(&verdicts[number]) {
            return Some(number as u64);
        }
    }
    None
}

/// The verdicts of the jobs of a run, by so many workers, each in a thread of its own. With `stop` a worker skips a job behind a failed
/// one that it has seen. All room is made before the first job is drawn; after Memory the seat is as it was.
pub fn run_jobs<R: Threads + Sync, G: Gate, P: Prover>(
    rt: &R,
    alloc: Global,
    jobs: &Jobs<P>,
    workers: u64,
    board: &Board,
    seat: &mut BoardSeat,
    gate: &G,
    stop: bool,
) -> Result<Done, Memory>
    requires jobs { (length jobs.now.list.now ≡ jobs_of board.now) × (length jobs.now.list.now ≤ 2 ^ 32) }
    requires workers { (0 < workers) × (workers ≤ 64) }
    requires seat { Belongs board.now seat.old × (view_of seat.old ≡ first_view (length jobs.now.list.now)) }
    ensures seat { Belongs board.now seat.new }
    ensures memory { OnErr result (view_of seat.new ≡ view_of seat.old) }
    ensures count { IfOk result (λ d. length d.verdicts.items ≡ length jobs.now.list.now) }
    ensures verdicts { IfOk result (λ d. AllGiven (IsVerdict (P.answers jobs.now.prover.now (kept_for jobs.now.cache.now) jobs.now.limit) jobs.now.list.now) d.verdicts.items) }
    ensures least { IfOk result (λ d. IsLeast d.least d.verdicts.items) }
    ensures skipped { IfOk result (λ d. IsCutAt stop d.least d.verdicts.items) }
    ensures alone { IfOk result (λ d. workers ≡ 1 → stop ≡ true → SkipsBehindLeast d.least d.verdicts.items) }
    ensures noted { IfOk result (λ d. IsNoted stop (view_of seat.new).noted d.verdicts.items) }
    ensures workers { IfOk result (λ d. length d.drawn.items ≡ workers) }
    ensures shared { IfOk result (λ d. IsShared (shown d.drawn.items) (length jobs.now.list.now)) }
    ensures taken { IfOk result (λ d. HasTaken (length jobs.now.list.now) (shown d.drawn.items) (view_of seat.new)) }
    ensures events { IfOk result (λ d. IsAccepted (told d.verdicts.items) (shown d.drawn.items) (length jobs.now.list.now)) }
{
    let filled = run_numbers(
        rt,
        alloc,
        jobs.list.len() as u64,
        workers,
        board,
        seat,
        gate,
        jobs,
        stop,
    )?;
    let Filled { verdicts, drawn } = filled;
    let least = least_failed(verdicts.as_slice());
    Ok(Done {
        verdicts,
        drawn,
        least,
    })
}
