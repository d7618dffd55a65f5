//! A shelf in memory.

ghost use Rattle.std.specs.Prelude.{◌≡◌, ◌↔◌, Some, None, option_map, IsOk, IsErrOf};
ghost use Rattle.tla_io.specs.Causes.{HasShelfCause};
ghost use Rattle.tla_io.specs.InMemory.{schedule, FailsNext, entries_of, after_fetch};
ghost use Rattle.tla_io.specs.Told.{folder_of, Fetches};

use crate::calls::Calls;
use crate::faults::ShelfFault;
use crate::front::{front_of, is_same};
use crate::shelf::Shelf;
use core_expr::Text;
use std::alloc::Global;
use std::marker::Model;

/// A shelf that has these entries, the first of two with one name, and fails at the calls listed. Contracts see its
/// entries as bytes, and its calls.
#[derive(Drop)]
pub struct MemShelf {
    entries: Vec<(Text, Vec<u8>)>,
    calls: Calls,
}

impl Model for MemShelf {
    ghost use Rattle.tla_io.specs.InMemory.{Shelved, entries_of};

    ghost Value = { Shelved };

    ghost view = { λ s. record { entries = entries_of s.entries.items; calls = s.calls } };
}

impl MemShelf {
    /// A shelf of these entries; `fails` lists the numbers, from 0, of the fetches that fail.
    pub fn new(entries: Vec<(Text, Vec<u8>)>, fails: Vec<u64>) -> MemShelf
        ensures entries { result.entries ≡ entries_of entries.items }
        ensures calls { result.calls ≡ schedule fails.items }
        ensures told { ⟦<MemShelf as Shelf>⟧.folder result
            ≡ Some (folder_of (entries_of entries.items)) }
        ensures count { ⟦<MemShelf as Shelf>⟧.count result ≡ 0 }
    {
        MemShelf {
            entries,
            calls: Calls::new(fails),
        }
    }
}

/// The text of the first entry with a name.
fn entry<'a>(entries: &'a [(Text, Vec<u8>)], name: &str) -> Option<&'a Vec<u8>>
    ensures { option_map (λ v. v.now.items) result
        ≡ folder_of (entries_of entries.entry.now) name.now }
{
    for entry in entries {
        if is_same(entry.0.bytes(), name.as_bytes()) {
            return Some(&entry.1);
        }
    }
    None
}

/// The front of the text of the first entry with a name.
fn look_up(
    alloc: Global,
    entries: &[(Text, Vec<u8>)],
    name: &str,
    at_most: u64,
) -> Result<Option<Vec<u8>>, ShelfFault>
    ensures told { Fetches (Some (folder_of (entries_of entries.now))) name.now at_most result }
    ensures never { ¬ (IsErrOf result ShelfFault.Failed) }
    ensures absent { folder_of (entries_of entries.now) name.now ≡ None → IsOk result }
{
    let Some(text) = entry(entries, name) else {
        return Ok(None);
    };
    match front_of(alloc, text.as_slice(), at_most) {
        Ok(front) => Ok(Some(front)),
        Err(_) => Err(ShelfFault::Memory),
    }
}

impl Shelf for MemShelf {
    ghost folder = { λ s. Some (folder_of s.entries) };

    ghost count = { λ s. s.calls.faults };

    fn fetch(
        &mut self,
        alloc: Global,
        name: &str,
        at_most: u64,
    ) -> Result<Option<Vec<u8>>, ShelfFault>
        ensures told { Fetches (Some (folder_of self.old.entries)) name.now at_most result }
        ensures same { self.new.entries ≡ self.old.entries }
        ensures cause { HasShelfCause self.old.calls.faults self.new.calls.faults result }
        ensures failed { IsErrOf result ShelfFault.Failed ↔ FailsNext self.old.calls }
        ensures absent { folder_of self.old.entries name.now ≡ None
            → ¬ (IsErrOf result ShelfFault.Memory) }
        ensures after { self.new ≡ after_fetch self.old result }
    {
        if self.calls.begin() {
            self.calls.fail();
            return Err(ShelfFault::Failed);
        }
        look_up(alloc, self.entries.as_slice(), name, at_most)
    }

    fn faults(&self) -> u64 {
        self.calls.faults()
    }
}
