//! Where proofs are kept from run to run.

ghost use Rattle.std.specs.Prelude.{◌≡◌, Option, List, ℕ, OnOk};
ghost use Rattle.tla_io.specs.Causes.{HasCause, HasCacheCause};
ghost use Rattle.tla_io.specs.Told.{ReadsFront, with_content, SameElsewhere, SameNames};

use crate::faults::{CacheFault, Failed};
use std::alloc::Global;

/// Files by name, each read or replaced as a whole.
pub trait CacheFile {
    /// The content of each name of which the device tells.
    ghost content: { Self → List ℕ → Option (List ℕ) };

    /// How often the device has failed.
    ghost count: { Self → ℕ };

    /// The first bytes of a file's content, at most so many of them. What is held stays as it was.
    fn read(&mut self, alloc: Global, file: &str, at_most: u64) -> Result<Vec<u8>, CacheFault>
        ensures told { ReadsFront (content self.old file.now) at_most result }
        ensures same { content self.new ≡ content self.old }
        ensures cause { HasCacheCause (count self.old) (count self.new) result };

    /// Puts these bytes in the place of a file's content, and takes no memory. After a failure nothing is known of that
    /// content; that of all other names is as it was.
    fn replace(&mut self, file: &str, bytes: Vec<u8>) -> Result<(), Failed>
        ensures replaced { OnOk result (content self.new
            ≡ with_content (content self.old) file.now bytes.items) }
        ensures others { SameElsewhere (content self.old) (content self.new) file.now }
        ensures names { SameNames (content self.old) (content self.new) }
        ensures cause { HasCause (count self.old) (count self.new) result };

    /// How often the device has failed, up to 2^64 - 1.
    fn faults(&self) -> u64
        ensures { result ≡ count self.now };
}
