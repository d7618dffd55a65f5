//! Positions for the branch at hand and for those that wait.
ghost use Rattle.std.specs.Prelude.{◌≡◌, ◌<◌, ◌∷◌, [], length, replicate, slice_index, slice_set, take, IfOk, OnOk, OnErr};
ghost use Rattle.entry_positions.specs.Places.{put, place_at};

use std::alloc::{AllocError, Global};
use std::marker::Model;

/// Positions by number: those of the branch at hand, and those that were put off.
#[derive(Debug, Drop)]
pub struct Positions {
    current: Vec<u64>,
    saved: Vec<Vec<u64>>,
}

impl Model for Positions {
    ghost use Rattle.std.specs.Prelude.{map};
    ghost use Rattle.entry_positions.specs.Places.{Places};

    ghost Value = { Places };

    ghost view = { λ p.
        record { current = p.current.items; saved = map (λ v. v.items) p.saved.items } };
}

impl Positions {
    /// So many positions, all at the first entry.
    pub fn new(alloc: Global, count: usize) -> Result<Positions, AllocError>
        ensures { IfOk result (λ p. p ≡ record { current = replicate count 0; saved = [] }) }
    {
        let current: Vec<u64> = vec![in alloc; 0; count]?;
        Ok(Positions {
            current,
            saved: Vec::new(alloc),
        })
    }

    /// The position with this number.
    pub fn get(&self, number: usize) -> u64
        requires { number < length self.now.current }
        ensures { result ≡ slice_index self.now.current number }
    {
        self.current[number]
    }

    /// Moves the position with this number.
    pub fn set(&mut self, number: usize, position: u64)
        requires { number < length self.old.current }
        ensures { self.new ≡ record {
          current = slice_set self.old.current number position;
          saved = self.old.saved;
        } }
    {
        self.current[number] = position;
    }

    /// How often they were put off.
    pub fn count(&self) -> u64
        ensures { result ≡ length self.now.saved }
    {
        self.saved.len() as u64
    }

    /// Puts the positions off, and keeps them.
    pub fn put_off(&mut self, alloc: Global) -> Result<(), AllocError>
        ensures ok { OnOk result (self.new ≡ put self.old) }
        ensures err { OnErr result (self.new ≡ self.old) }
    {
        let copy = Vec::from_slice(alloc, &self.current)?;
        self.saved.push(copy)?;
        Ok(())
    }

    /// Takes up the positions that were put off at this place, and drops those put off after it.
    pub fn take_up(&mut self, at: u64)
        requires { at < length self.old.saved }
        ensures { self.new ≡ record {
          current = place_at self.old.saved at;
          saved = take at self.old.saved;
        } }
    {
        self.saved.truncate(at as usize + 1);
        if let Some(positions) = self.saved.pop() {
            self.current = positions;
        }
    }
}
