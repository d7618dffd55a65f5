//! What each worker does, and all of them at once.
ghost use Rattle.std.specs.Prelude.{◌≡◌, ◌<◌, ◌≤◌, ◌+◌, length, true, false};
ghost use Rattle.std.specs.List.{AllByRecursion, AllZip};
ghost use Rattle.std.specs.Thread.{IsSync};
ghost use Rattle.claim_board.specs.Seats.{Belongs, view_of, jobs_of};
ghost use Rattle.claim_board.specs.Views.{times};
ghost use Rattle.worker_map.specs.Crew.{HasDone, GoesOn, Finishes, Judges, OnlySees, NoneUnder};

use crate::prover::{Answers, Gate};
use claim_board::{Board, BoardSeat};
use proof_cache::Verdict;
use std::thread::{Threads, join_mut};

/// A worker with its number, its seat, the jobs that it drew and their verdicts. There is room for all jobs.
pub struct Worker {
    pub number: u64,
    pub seat: BoardSeat,
    pub drawn: Vec<u64>,
    pub verdicts: Vec<(u64, Option<Verdict>)>,
}

/// Whether the job stands behind a failed one that is seen, where failures stop the run.
#[tactic(auto, using(crate::proofs::Skips::none_under))]
fn is_behind(board: &Board, stop: bool, seat: &mut BoardSeat, job: u64) -> bool
    requires { Belongs board.now seat.old }
    ensures seat { Belongs board.now seat.new }
    ensures same { OnlySees (view_of seat.old) (view_of seat.new) }
    ensures behind { result ≡ true → (stop ≡ true) × ((view_of seat.new).seen < job) }
    ensures apart { result ≡ false → stop ≡ true → NoneUnder job (view_of seat.old).noted }
{
    stop && board.look(seat) < job
}

/// Proves a drawn job, or skips it behind a failure that was seen.
fn judge<G: Gate, A: Answers>(
    board: &Board,
    gate: &G,
    answers: &A,
    stop: bool,
    number: u64,
    seat: &mut BoardSeat,
    job: u64,
) -> Option<Verdict>
    requires seat { Belongs board.now seat.old }
    requires mine { 0 < times job (view_of seat.old).mine }
    requires new { times job (view_of seat.old).noted ≡ 0 }
    requires within { job < A.count answers.now }
    ensures seat { Belongs board.now seat.new }
    ensures judges { Judges stop (A.right answers.now) job (view_of seat.old) (view_of seat.new) result }
{
    if is_behind(board, stop, seat, job) {
        return None;
    }
    gate.enter(number, job);
    let verdict = answers.answer(job);
    if stop && verdict.is_failed() {
        board.note(seat, job);
    }
    Some(verdict)
}

/// Draws a job and proves it. False where none is left.
fn step<G: Gate, A: Answers>(
    board: &Board,
    gate: &G,
    answers: &A,
    stop: bool,
    w: &mut Worker,
) -> bool
    requires done { HasDone stop (A.right answers.now) board.now w.old }
    requires jobs { jobs_of board.now ≡ A.count answers.now }
    ensures done { HasDone stop (A.right answers.now) board.now w.new }
    ensures same { GoesOn w.old w.new }
    ensures more { result ≡ true → length w.new.drawn.items ≡ length w.old.drawn.items + 1 }
    ensures bound { length w.new.drawn.items ≤ jobs_of board.now }
    ensures ended { result ≡ false → (view_of w.new.seat).ended ≡ true }
{
    let Some(job) = board.draw(&mut w.seat) else {
        return false;
    };
    let verdict = judge(board, gate, answers, stop, w.number, &mut w.seat, job);
    w.drawn.push_reserved(job);
    w.verdicts.push_reserved((job, verdict));
    true
}

fn work<G: Gate, A: Answers>(board: &Board, gate: &G, answers: &A, stop: bool, w: &mut Worker)
    requires done { HasDone stop (A.right answers.now) board.now w.old }
    requires jobs { jobs_of board.now ≡ A.count answers.now }
    ensures { Finishes stop (A.right answers.now) board.now w.old w.new }
{
    while step(board, gate, answers, stop, w) {}
}

/// All workers work at once.
pub(crate) fn work_all<R: Threads + Sync, G: Gate, A: Answers>(
    rt: &R,
    board: &Board,
    gate: &G,
    answers: &A,
    stop: bool,
    workers: &mut [Worker],
)
    requires done { AllByRecursion (HasDone stop (A.right answers.now) board.now) workers.old }
    requires jobs { jobs_of board.now ≡ A.count answers.now }
    ensures { AllZip (Finishes stop (A.right answers.now) board.now) workers.old workers.new }
{
    let Some((first, rest)) = workers.split_first_mut() else {
        return;
    };
    join_mut(
        rt,
        &mut ||
            requires { HasDone stop (A.right answers.now) board.now first.now × (jobs_of board.now ≡ A.count answers.now) }
            ensures { Finishes stop (A.right answers.entry.now) board.entry.now first.entry.now first.exit.now }
        { work(board, gate, answers, stop, first) },
        &mut ||
            requires { IsSync R.row × (jobs_of board.now ≡ A.count answers.now) × AllByRecursion (HasDone stop (A.right answers.now) board.now) rest.now }
            ensures { AllZip (Finishes stop (A.right answers.entry.now) board.entry.now) rest.entry.now rest.exit.now }
        { work_all(rt, board, gate, answers, stop, rest) },
    );
}
