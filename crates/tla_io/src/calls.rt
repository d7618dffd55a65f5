//! Which calls of a device in memory fail.

ghost use Rattle.std.specs.Prelude.{◌≡◌, ◌≤◌, ◌↔◌, ◌+◌, ◌-◌, ◌^◌, min, IsTrue};
ghost use Rattle.tla_io.specs.InMemory.{schedule, FailsNext, number_after};

use std::marker::Model;

/// The calls of a device: the numbers of those that fail, from 0, the number of the next call, and how many failed.
#[derive(Drop)]
pub(crate) struct Calls {
    fails: Vec<u64>,
    next: Option<u64>,
    faults: u64,
}

impl Model for Calls {
    ghost use Rattle.tla_io.specs.InMemory.{Schedule};

    ghost Value = { Schedule };

    ghost view = { λ c. record { fails = c.fails.items; next = c.next; faults = c.faults } };
}

impl Calls {
    /// No call was made yet.
    pub(crate) fn new(fails: Vec<u64>) -> Calls
        ensures { result ≡ schedule fails.items }
    {
        Calls {
            fails,
            next: Some(0),
            faults: 0,
        }
    }

    /// Counts a call, and says whether it is listed as one that fails.
    pub(crate) fn begin(&mut self) -> bool
        ensures listed { IsTrue result ↔ FailsNext self.old }
        ensures counted { self.new ≡ record self.old { next = number_after self.old.next } }
    {
        let Some(number) = self.next else {
            return false;
        };
        self.next = number.checked_add(1);
        self.fails.contains(&number)
    }

    /// Counts a fault.
    pub(crate) fn fail(&mut self)
        ensures counted { self.new
            ≡ record self.old { faults = min (self.old.faults + 1) (2 ^ 64 - 1) } }
        ensures kept { self.old.faults ≤ self.new.faults }
    {
        self.faults = self.faults.saturating_add(1);
    }

    /// How many calls failed.
    pub(crate) fn faults(&self) -> u64
        ensures { result ≡ self.now.faults }
    {
        self.faults
    }
}
