//! Room for what a worker draws, and the workers that are hired on it.
ghost use Rattle.std.specs.Prelude.{◌≡◌, ◌<◌, ◌≤◌, ◌-◌, [], length, vec_capacity, false, IfOk};
ghost use Rattle.std.specs.List.{AllByRecursion};
ghost use Rattle.claim_board.specs.Seats.{Belongs, view_of, jobs_of};
ghost use Rattle.claim_board.specs.Views.{none_noted};
ghost use Rattle.worker_map.specs.Desks.{IsNew, IsEmpty};
ghost use Rattle.worker_map.specs.Crew.{with_room};

use crate::work::Worker;
use claim_board::{Board, BoardSeat};
use core_expr::Memory;
use proof_cache::Verdict;
use std::alloc::Global;

/// Room for all jobs and their verdicts.
#[derive(Drop)]
pub struct Desk {
    pub drawn: Vec<u64>,
    pub verdicts: Vec<(u64, Option<Verdict>)>,
}

/// Makes a desk for each worker.
pub(crate) fn desks(alloc: Global, jobs: u64, count: u64) -> Result<Vec<Desk>, Memory>
    ensures { IfOk result (λ v. (length v.items ≡ count) × AllByRecursion (IsEmpty jobs) v.items) }
{
    let mut all = Vec::with_capacity(alloc, count as usize)?;
    for _number in 0..count {
        let drawn = Vec::with_capacity(alloc, jobs as usize)?;
        let verdicts = Vec::with_capacity(alloc, jobs as usize)?;
        all.push_reserved(Desk { drawn, verdicts });
    }
    Ok(all)
}

/// One worker at a desk, with a seat cut off the given one.
fn seated(board: &Board, seat: &mut BoardSeat, desk: Desk, number: u64) -> Worker
    requires seat { Belongs board.now seat.old }
    requires fresh { (view_of seat.old).ended ≡ false }
    requires unseen { (view_of seat.old).seen ≡ none_noted }
    requires room { 2 ≤ (view_of seat.old).room }
    requires desk { IsEmpty (jobs_of board.now) desk }
    ensures seat { Belongs board.now seat.new }
    ensures kept { view_of seat.new ≡ with_room (view_of seat.old) ((view_of seat.old).room - 1) }
    ensures made { IsNew board.now result }
{
    let part = board.split(seat);
    let Desk { drawn, verdicts } = desk;
    Worker {
        number,
        seat: part,
        drawn,
        verdicts,
    }
}

/// A worker at each desk, each with a seat cut off the given one. It takes no memory.
pub(crate) fn hire(
    board: &Board,
    seat: &mut BoardSeat,
    mut desks: Vec<Desk>,
    mut workers: Vec<Worker>,
) -> Vec<Worker>
    requires seat { Belongs board.now seat.old }
    requires fresh { (view_of seat.old).ended ≡ false }
    requires unseen { (view_of seat.old).seen ≡ none_noted }
    requires room { length desks.items < (view_of seat.old).room }
    requires space { (workers.items ≡ []) × (length desks.items ≤ vec_capacity workers) }
    requires desks { AllByRecursion (IsEmpty (jobs_of board.now)) desks.items }
    ensures seat { Belongs board.now seat.new }
    ensures made { (length result.items ≡ length desks.items) × AllByRecursion (IsNew board.now) result.items }
    ensures kept { view_of seat.new ≡ with_room (view_of seat.old) ((view_of seat.old).room - length desks.items) }
{
    while let Some(desk) = desks.pop() {
        let number = desks.len() as u64;
        let worker = seated(board, seat, desk, number);
        workers.push_reserved(worker);
    }
    workers
}
