//! A sink in memory.

ghost use Rattle.std.specs.Prelude.{◌≡◌, ◌<◌, ◌≤◌, ◌+◌, ◌↔◌, ◌⊎◌, Some, [], length, IfOk, IsErr};
ghost use Rattle.tla_io.specs.Causes.{HasCause};
ghost use Rattle.tla_io.specs.InMemory.{schedule, FailsNext, IsStuck, portion, after_write};
ghost use Rattle.tla_io.specs.Told.{Takes};

use crate::calls::Calls;
use crate::faults::Failed;
use crate::sink::Sink;
use core_expr::Memory;
use std::alloc::Global;
use std::marker::Model;

/// A sink with room for a number of bytes, which takes at most so many at a call, and fails where it can take nothing
/// and at the calls listed. Contracts see the bytes taken, the room, the most at a call, and its calls.
#[derive(Drop)]
pub struct MemSink {
    taken: Vec<u8>,
    room: u64,
    piece: u64,
    calls: Calls,
}

impl Model for MemSink {
    ghost use Rattle.std.specs.Prelude.{◌≤◌, length, vec_capacity};
    ghost use Rattle.tla_io.specs.InMemory.{Sunk};

    ghost Value = { Sunk };

    ghost view = { λ s. record { taken = s.taken.items; room = s.room; piece = s.piece; calls = s.calls } };

    ghost invariant = { λ s. (length s.taken.items ≤ s.room) × (s.room ≤ vec_capacity s.taken) };
}

impl MemSink {
    /// A sink that has taken nothing, with all its room reserved; `fails` lists the numbers, from 0, of the writes that
    /// fail.
    pub fn new(alloc: Global, room: u64, piece: u64, fails: Vec<u64>) -> Result<MemSink, Memory>
        ensures taken { IfOk result (λ s. s.taken ≡ []) }
        ensures room { IfOk result (λ s. s.room ≡ room) }
        ensures piece { IfOk result (λ s. s.piece ≡ piece) }
        ensures calls { IfOk result (λ s. s.calls ≡ schedule fails.items) }
        ensures told { IfOk result (λ s. ⟦<MemSink as Sink>⟧.taken s ≡ Some []) }
        ensures count { IfOk result (λ s. ⟦<MemSink as Sink>⟧.count s ≡ 0) }
    {
        let taken = Vec::with_capacity(alloc, room as usize)?;
        Ok(MemSink {
            taken,
            room,
            piece,
            calls: Calls::new(fails),
        })
    }

    /// The bytes taken so far, never more than the room.
    pub fn taken(&self) -> &[u8]
        ensures taken { result.now ≡ self.now.taken }
        ensures within { length result.now ≤ self.now.room }
        ensures told { ⟦<MemSink as Sink>⟧.taken self.now ≡ Some result.now }
    {
        self.taken.as_slice()
    }

    // How many bytes of a piece a call takes.
    fn portion(&self, piece: &[u8]) -> usize
        ensures count { result ≡ portion self.now piece.now }
        ensures within { length self.now.taken + result ≤ self.now.room }
    {
        let left = self.room - self.taken.len() as u64;
        piece.len().min(self.piece.min(left) as usize)
    }
}

impl Sink for MemSink {
    ghost taken = { λ s. Some s.taken };

    ghost count = { λ s. s.calls.faults };

    fn write(&mut self, piece: &[u8]) -> Result<u64, Failed>
        ensures within { IfOk result (λ n. n ≤ length piece.now) }
        ensures some { IfOk result (λ n. 0 < length piece.now → 0 < n) }
        ensures takes { Takes (Some self.old.taken) (Some self.new.taken) piece.now result }
        ensures cause { HasCause self.old.calls.faults self.new.calls.faults result }
        ensures failed { IsErr result ↔ (FailsNext self.old.calls ⊎ IsStuck self.old piece.now) }
        ensures portion { IfOk result (λ n. n ≡ portion self.old piece.now) }
        ensures after { self.new ≡ after_write self.old piece.now result }
    {
        let take = self.portion(piece);
        let is_listed = self.calls.begin();
        if is_listed || (take == 0 && !piece.is_empty()) {
            self.calls.fail();
            return Err(Failed);
        }
        self.taken.extend_from_slice(&piece[..take]).unwrap();
        Ok(take as u64)
    }

    fn faults(&self) -> u64 {
        self.calls.faults()
    }
}
