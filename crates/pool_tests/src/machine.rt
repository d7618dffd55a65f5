//! The machine of events.

use pool_core::{Event, State, Stuck, step};
use std::test::Fail;

/// A move of a worker, with a job for an answer and a note.
#[derive(Clone, Copy)]
enum Move {
    Draw(u64),
    Answer(u64, u64),
    Note(u64, u64),
    Look(u64),
}

fn event(next: Move) -> Event {
    match next {
        Move::Draw(worker) => Event::Draw { worker },
        Move::Answer(worker, job) => Event::Answer { worker, job },
        Move::Note(worker, job) => Event::Note { worker, job },
        Move::Look(worker) => Event::Look { worker },
    }
}

/// The state after moves, or the number of the first that is refused and whether it is refused as one past the last job.
fn after(state: State, moves: &[Move]) -> Result<State, (usize, bool)> {
    let mut state = state;
    for (i, next) in moves.iter().enumerate() {
        match step(state, event(*next)) {
            Ok(moved) => state = moved,
            Err(Stuck::NotYours(_)) => return Err((i, false)),
            Err(Stuck::Ended(_)) => return Err((i, true)),
        }
    }
    Ok(state)
}

/// Two workers share two jobs; the last move is one past the last job.
const SHARED: [Move; 9] = [
    Move::Draw(1),
    Move::Draw(0),
    Move::Answer(1, 0),
    Move::Note(0, 1),
    Move::Look(1),
    Move::Answer(0, 1),
    Move::Draw(0),
    Move::Draw(1),
    Move::Draw(0),
];

#[test]
fn two_workers_share_two_jobs(rt: HostRuntime) -> Result<(), Fail> {
    let start = State::new(rt.alloc(), 2, 2)?;
    assert!(rt; after(start, &SHARED[..8]).is_ok());
    let start = State::new(rt.alloc(), 2, 2)?;
    assert!(rt; matches!(after(start, &SHARED), Err((8, true))));
    Ok(())
}

#[test]
fn no_worker_answers_what_it_did_not_draw(rt: HostRuntime) -> Result<(), Fail> {
    let start = State::new(rt.alloc(), 2, 2)?;
    let moves = [Move::Draw(0), Move::Answer(1, 0)];
    assert!(rt; matches!(after(start, &moves), Err((1, false))));
    let start = State::new(rt.alloc(), 2, 2)?;
    let moves = [Move::Draw(0), Move::Answer(0, 0), Move::Answer(0, 0)];
    assert!(rt; matches!(after(start, &moves), Err((2, false))));
    Ok(())
}
