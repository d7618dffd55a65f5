//! The steps that no step uses yet.
ghost use Rattle.std.specs.Prelude.{◌≡◌, [], ◌∷◌, ◌++◌, true, IsTrue, OnOk};
ghost use Rattle.proof_text.specs.Readers.{is_free, without, free_count};

use sqlite_items::Items;
use std::alloc::{AllocError, Global};
use std::marker::Model;

/// For each step, whether no step uses it. A step may be a premise of one place alone.
#[derive(Drop)]
pub struct Free {
    slots: Items<bool>,
    count: u64,
}

impl Model for Free {
    ghost use Rattle.std.specs.Prelude.{◌≡◌, List, Bool};
    ghost use Rattle.std.specs.Coded.{coded_list, coded_bool};
    ghost use Rattle.proof_text.specs.Readers.{free_count};

    ghost Value = { List Bool };

    ghost coded = { coded_list coded_bool };

    ghost view = { λ f. f.slots };

    ghost invariant = { λ f. f.count ≡ free_count f.slots };
}

impl Free {
    /// No steps.
    pub fn new(alloc: Global) -> Free
        ensures { result ≡ [] }
    {
        Free {
            slots: Items::new(alloc),
            count: 0,
        }
    }

    /// How many steps are free.
    pub fn count(&self) -> u64
        ensures { result ≡ free_count self.now }
    {
        self.count
    }

    /// Whether the step is there and free.
    pub fn is_free(&self, step: u64) -> bool
        ensures { result ≡ is_free self.now step }
    {
        match self.slots.get(step as usize) {
            Some(free) => *free,
            None => false,
        }
    }

    /// Uses the step.
    pub fn take(&mut self, step: u64)
        requires { IsTrue (is_free self.old step) }
        ensures { self.new ≡ without self.old step }
    {
        self.slots.set(step as usize, false);
        self.count -= 1;
    }

    /// A further step, which is free.
    pub fn add(&mut self) -> Result<(), AllocError>
        ensures { OnOk result (self.new ≡ self.old ++ true ∷ []) }
    {
        self.slots.push(true)?;
        let _steps = self.slots.len();
        self.count += 1;
        Ok(())
    }
}
