//! Where modules come from.

ghost use Rattle.std.specs.Prelude.{◌≡◌, Option, List, ℕ};
ghost use Rattle.tla_io.specs.Causes.{HasShelfCause};
ghost use Rattle.tla_io.specs.Told.{Fetches};

use crate::faults::ShelfFault;
use std::alloc::Global;

/// A shelf of modules by name.
pub trait Shelf {
    /// The text of each name that the shelf has, where it tells them.
    ghost folder: { Self → Option (List ℕ → Option (List ℕ)) };

    /// How often the shelf has failed.
    ghost count: { Self → ℕ };

    /// The first bytes of a module's text, at most so many of them, or None exactly where the shelf has no such name.
    fn fetch(
        &mut self,
        alloc: Global,
        name: &str,
        at_most: u64,
    ) -> Result<Option<Vec<u8>>, ShelfFault>
        ensures told { Fetches (folder self.old) name.now at_most result }
        ensures same { folder self.new ≡ folder self.old }
        ensures cause { HasShelfCause (count self.old) (count self.new) result };

    /// How often the shelf has failed, up to 2^64 - 1.
    fn faults(&self) -> u64
        ensures { result ≡ count self.now };
}
