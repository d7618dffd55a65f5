//! What is collected once all workers have ended.
ghost use Rattle.std.specs.Prelude.{◌≡◌, ◌<◌, ◌≤◌, ◌+◌, length, vec_capacity};
ghost use Rattle.std.specs.List.{AllByRecursion};
ghost use Rattle.worker_map.specs.Collected.{Collected, IsDone};

use crate::prover::Answers;
use crate::work::Worker;
use claim_board::{Board, BoardSeat};
use proof_cache::Verdict;

/// What each worker drew, and its verdicts.
#[derive(Drop)]
pub struct Lists {
    pub drawn: Vec<Vec<u64>>,
    pub verdicts: Vec<Vec<(u64, Option<Verdict>)>>,
}

/// Joins one worker's seat and takes its lists.
fn take_in<A: Answers>(
    _answers: &A,
    _stop: bool,
    board: &Board,
    seat: &mut BoardSeat,
    worker: Worker,
    left: u64,
    all: &mut Lists,
)
    requires all { Collected _stop (A.right _answers.now) board.now (left + 1) seat.old all.old }
    requires worker { IsDone _stop (A.right _answers.now) board.now worker }
    requires room { length all.old.drawn.items < vec_capacity all.old.drawn }
    requires verdict_room { length all.old.verdicts.items < vec_capacity all.old.verdicts }
    ensures all { Collected _stop (A.right _answers.now) board.now left seat.new all.new }
    ensures more { (length all.new.drawn.items ≡ length all.old.drawn.items + 1) × (length all.new.verdicts.items ≡ length all.old.verdicts.items + 1) }
    ensures room { (vec_capacity all.new.drawn ≡ vec_capacity all.old.drawn) × (vec_capacity all.new.verdicts ≡ vec_capacity all.old.verdicts) }
{
    let Worker {
        number: _,
        seat: other,
        drawn,
        verdicts,
    } = worker;
    board.join(seat, other);
    all.drawn.push_reserved(drawn);
    all.verdicts.push_reserved(verdicts);
}

/// Joins all seats and takes the workers' lists.
pub(crate) fn collect<A: Answers>(
    answers: &A,
    stop: bool,
    board: &Board,
    seat: &mut BoardSeat,
    mut workers: Vec<Worker>,
    mut all: Lists,
) -> Lists
    requires all { Collected stop (A.right answers.now) board.now (length workers.items) seat.old all }
    requires workers { AllByRecursion (IsDone stop (A.right answers.now) board.now) workers.items }
    requires room { length all.drawn.items + length workers.items ≤ vec_capacity all.drawn }
    requires verdict_room { length all.verdicts.items + length workers.items ≤ vec_capacity all.verdicts }
    ensures all { Collected stop (A.right answers.now) board.now 0 seat.new result }
    ensures len { length result.drawn.items ≡ length all.drawn.items + length workers.items }
{
    while let Some(worker) = workers.pop() {
        let left = workers.len() as u64;
        take_in(answers, stop, board, seat, worker, left, &mut all);
    }
    workers.destroy_empty();
    all
}
