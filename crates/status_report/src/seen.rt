//! What is known of the theorems before one.

ghost use Rattle.std.specs.Prelude.{◌≡◌, OnOk};
ghost use Rattle.status_report.specs.Statuses.{nothing, status_in, with_theorem};
ghost use Rattle.status_report.specs.Telling.{seen_of, status_of};

use crate::judge::{Status, status_from};
use crate::table::TheoremIn;
use crate::text::name_of;
use core_expr::Memory;
use indexmap::{IndexMap, IndexSet};
use std::alloc::Global;

/// The keys of the proved theorems, and the name of each theorem by its key. A look-up takes near constant time.
#[derive(Drop)]
pub struct Seen<'a> {
    done: IndexSet<u64>,
    names: IndexMap<u64, &'a [u8]>,
}

impl<'a> Seen<'a> {
    /// No theorem.
    pub fn new(alloc: Global) -> Seen<'a>
        ensures { seen_of result ≡ nothing }
    {
        Seen {
            done: IndexSet::new(alloc),
            names: IndexMap::new(alloc),
        }
    }

    /// The status of a further theorem.
    pub fn status(&self, theorem: &TheoremIn) -> Status
        ensures { status_of result ≡ status_in (seen_of self.now) theorem.now }
    {
        status_from(
            theorem.leaves.as_slice(),
            theorem.cited.as_slice(),
            &self.done,
        )
    }

    /// The name of the theorem with a key; `-` where it has none.
    pub fn name(&self, key: u64) -> &[u8]
        ensures { result.now ≡ (seen_of self.now).name key }
    {
        match self.names.get(&key) {
            Some(name) => name,
            None => b"-",
        }
    }

    /// Notes a further theorem, which is proved or not.
    pub fn see(&mut self, theorem: &'a TheoremIn, proved: bool) -> Result<(), Memory>
        ensures { OnOk result (seen_of self.new
            ≡ with_theorem proved theorem.now (seen_of self.old)) }
    {
        if proved {
            self.done.insert_full(theorem.key)?;
        }
        self.names.insert(theorem.key, name_of(&theorem.name))?;
        Ok(())
    }
}
