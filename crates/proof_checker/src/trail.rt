//! A list of numbers that is cut back, and tells at once what is on it.

ghost use Rattle.std.specs.Prelude.{◌≡◌, ◌↔◌, ◌<◌, ◌≤◌, ◌+◌, ◌++◌, ◌∷◌, [], take, length, ℕ, slice_index, OnOk, OnErr, IsTrue};
ghost use Rattle.proof_checker.specs.Latest.{HasFrom, items_of, befores_of, IsKept};

use std::alloc::{AllocError, Global};
use std::marker::Model;

/// A number, and one more than the place where it stood before, or 0.
#[derive(Clone, Copy)]
pub struct Kept {
    pub item: u64,
    pub before: u64,
}

#[derive(Drop)]
pub struct Trail {
    kept: Vec<Kept>,
    latest: Vec<u64>,
}

impl Model for Trail {
    ghost use Rattle.std.specs.Prelude.{List, ℕ};

    ghost Value = { List ℕ };

    ghost use Rattle.proof_checker.specs.Latest.{items_of, befores_of, IsKept};

    ghost view = { λ t. items_of t.kept.items };

    ghost invariant = { λ t. IsKept (items_of t.kept.items) (befores_of t.kept.items) t.latest.items };
}

/// Takes the last number off.
fn drop_last(kept: &mut Vec<Kept>, latest: &mut Vec<u64>)
    requires some { 0 < length kept.old.items }
    requires kept { IsKept (items_of kept.old.items) (befores_of kept.old.items) latest.old.items }
    ensures kept { IsKept (items_of kept.new.items) (befores_of kept.new.items) latest.new.items }
    ensures shorter { length kept.old.items ≡ length kept.new.items + 1 }
    ensures rest { kept.new.items ≡ take (length kept.new.items) kept.old.items }
{
    if let Some(Kept { item, before }) = kept.pop() {
        latest[item as usize] = before;
    }
}

/// Adds a number that has a place.
fn keep(kept: &mut Vec<Kept>, latest: &mut Vec<u64>, item: u64) -> Result<(), AllocError>
    requires room { item < length latest.old.items }
    requires kept { IsKept (items_of kept.old.items) (befores_of kept.old.items) latest.old.items }
    ensures kept { IsKept (items_of kept.new.items) (befores_of kept.new.items) latest.new.items }
    ensures ok { OnOk result (items_of kept.new.items ≡ items_of kept.old.items ++ item ∷ []) }
    ensures err { OnErr result (items_of kept.new.items ≡ items_of kept.old.items) }
{
    let before = latest[item as usize];
    let place = kept.len() as u64 + 1;
    kept.push(Kept { item, before })?;
    latest[item as usize] = place;
    Ok(())
}

/// Makes a place for the number.
fn widen(latest: &mut Vec<u64>, item: u64) -> Result<(), AllocError>
    ensures same { (x : ℕ) → slice_index latest.new.items x ≡ slice_index latest.old.items x }
    ensures more { length latest.old.items ≤ length latest.new.items }
    ensures ok { OnOk result (item < length latest.new.items) }
{
    while latest.len() as u64 <= item {
        latest.push(0)?;
    }
    Ok(())
}

impl Trail {
    pub fn new(alloc: Global) -> Trail
        ensures { result ≡ [] }
    {
        Trail {
            kept: Vec::new(alloc),
            latest: Vec::new(alloc),
        }
    }

    pub fn count(&self) -> u64
        ensures { result ≡ length self.now }
    {
        self.kept.len() as u64
    }

    /// Whether the number stands at a place from `base` on.
    pub fn has(&self, base: u64, item: u64) -> bool
        ensures { IsTrue result ↔ HasFrom self.now base item }
    {
        match self.latest.get(item as usize) {
            Some(place) => *place > base,
            None => false,
        }
    }

    /// Adds a number at the end.
    pub fn push(&mut self, item: u64) -> Result<(), AllocError>
        ensures ok { OnOk result (self.new ≡ self.old ++ item ∷ []) }
        ensures err { OnErr result (self.new ≡ self.old) }
    {
        widen(&mut self.latest, item)?;
        keep(&mut self.kept, &mut self.latest, item)
    }

    /// Keeps the first numbers alone.
    pub fn cut(&mut self, count: u64)
        requires { count ≤ length self.old }
        ensures { self.new ≡ take count self.old }
    {
        while self.kept.len() as u64 > count {
            drop_last(&mut self.kept, &mut self.latest);
        }
    }
}
