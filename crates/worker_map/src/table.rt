//! The verdicts by the numbers of their jobs.
ghost use Rattle.std.specs.Prelude.{◌≡◌, ◌<◌, ◌+◌, length, slice_set, IfOk};
ghost use Rattle.std.specs.List.{AllByRecursion};
ghost use Rattle.pool_core.specs.Numbers.{times, times_all};
ghost use Rattle.claim_board.specs.Seats.{view_of};
ghost use Rattle.worker_map.specs.Crew.{jobs_in};
ghost use Rattle.worker_map.specs.Settled.{Pending, Fits, FitsAll, lists_of};

use crate::prover::Answers;
use claim_board::BoardSeat;
use core_expr::Memory;
use proof_cache::Verdict;
use std::alloc::Global;

/// Puts a verdict in its place.
fn set(table: &mut Vec<Option<Verdict>>, job: u64, verdict: Option<Verdict>)
    requires { job < length table.old.items }
    ensures items { table.new.items ≡ slice_set table.old.items job verdict }
{
    table[job as usize] = verdict;
}

/// Puts one worker's verdicts in their places.
fn put_list<A: Answers>(
    seat: &BoardSeat,
    answers: &A,
    stop: bool,
    table: &mut Vec<Option<Verdict>>,
    list: Vec<(u64, Option<Verdict>)>,
    others: &Vec<Vec<(u64, Option<Verdict>)>>,
)
    requires fits { AllByRecursion (Fits stop (A.right answers.now) (view_of seat.now) (length table.old.items)) list.items }
    requires table { Pending stop (A.right answers.now) (view_of seat.now) (λ x. times x (jobs_in list.items) + times_all x (lists_of others.now.items)) table.old.items }
    ensures table { Pending stop (A.right answers.now) (view_of seat.now) (λ x. times_all x (lists_of others.now.items)) table.new.items }
    ensures len { length table.new.items ≡ length table.old.items }
{
    let mut rest = list;
    while let Some((job, verdict)) = rest.pop() {
        set(table, job, verdict);
    }
}

/// Puts all verdicts in their places: each table entry is then a settled one of its job.
pub(crate) fn fill<A: Answers>(
    seat: &BoardSeat,
    answers: &A,
    stop: bool,
    table: &mut Vec<Option<Verdict>>,
    lists: Vec<Vec<(u64, Option<Verdict>)>>,
)
    requires fits { AllByRecursion (FitsAll stop (A.right answers.now) (view_of seat.now) (length table.old.items)) lists.items }
    requires table { Pending stop (A.right answers.now) (view_of seat.now) (λ x. times_all x (lists_of lists.items)) table.old.items }
    ensures table { Pending stop (A.right answers.now) (view_of seat.now) (λ x. 0) table.new.items }
    ensures len { length table.new.items ≡ length table.old.items }
{
    let mut rest = lists;
    while let Some(list) = rest.pop() {
        put_list(seat, answers, stop, table, list, &rest);
    }
}

/// A table of so many places, in which nothing stands yet.
pub(crate) fn blank(alloc: Global, jobs: u64) -> Result<Vec<Option<Verdict>>, Memory>
    ensures { IfOk result (λ v. length v.items ≡ jobs) }
{
    let mut table = Vec::with_capacity(alloc, jobs as usize)?;
    for _job in 0..jobs {
        table.push_reserved(None);
    }
    Ok(table)
}
