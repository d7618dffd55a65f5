//! The names that the library modules give.

ghost use Rattle.std.specs.Prelude.{◌≡◌, map, IfOk};
ghost use Rattle.module_scope.specs.Scope.{seen};
ghost use Rattle.module_scope.specs.Known.{row_entry};
ghost use Rattle.module_scope.specs.Resolution as spec;

use core_expr::{Memory, Text};
use sqlite_items::Items;
use std::alloc::Global;
use std_names::library;
use symbol_table::{Entry, EntrySort};

/// STRING, and then the names of the libraries, each once: the name, what it is, and the number of its parameters. Their numbers
/// are their places here.
const NAMES: [(&[u8], EntrySort, u64); 25] = [
    (b"STRING", EntrySort::Library, 0),
    (b"Nat", EntrySort::Library, 0),
    (b"+", EntrySort::Library, 2),
    (b"-", EntrySort::Library, 2),
    (b"*", EntrySort::Library, 2),
    (b"<", EntrySort::Library, 2),
    (b">", EntrySort::Library, 2),
    (b"<=", EntrySort::Library, 2),
    (b">=", EntrySort::Library, 2),
    (b"..", EntrySort::Library, 2),
    (b"Int", EntrySort::Library, 0),
    (b"-.", EntrySort::Library, 1),
    (b"Seq", EntrySort::Library, 1),
    (b"Len", EntrySort::Library, 1),
    (b"Append", EntrySort::Library, 2),
    (b"Head", EntrySort::Library, 1),
    (b"Tail", EntrySort::Library, 1),
    (b"SubSeq", EntrySort::Library, 3),
    (b"IsFiniteSet", EntrySort::Library, 1),
    (b"Cardinality", EntrySort::Library, 1),
    (b"Zenon", EntrySort::Pragma, 0),
    (b"SMT", EntrySort::Pragma, 0),
    (b"Isa", EntrySort::Pragma, 0),
    (b"Z3", EntrySort::Pragma, 0),
    (b"PTL", EntrySort::Pragma, 0),
];

/// An entry for each row.
fn entries_of(alloc: Global, table: &[(&[u8], EntrySort, u64)]) -> Result<Vec<Entry>, Memory>
    ensures { IfOk result (λ es. es.items ≡ map row_entry table.now) }
{
    let mut entries = Vec::new(alloc);
    for row in table {
        let name = Text::of(alloc, row.0)?;
        entries.push(Entry {
            name,
            sort: row.1,
            arity: row.2,
            level: 0,
            primed: Items::new(alloc),
        })?;
    }
    Ok(entries)
}

/// The entries that come before all others.
#[tactic(auto, unfolding(crate::specs::Resolution::library_entries, std_names::specs::Libraries::names))]
pub fn library_entries(alloc: Global) -> Result<Vec<Entry>, Memory>
    ensures { IfOk result (λ es. es.items ≡ spec.library_entries) }
{
    entries_of(alloc, &NAMES)
}

/// The names of a table that a library gives, with their places in it.
fn given<'a>(
    alloc: Global,
    owner: &[u8],
    table: &'a [(&'a [u8], EntrySort, u64)],
) -> Result<Vec<(&'a [u8], u64)>, Memory>
    ensures { IfOk result (λ names. map seen names.items
        ≡ spec.given 0 owner.now (map row_entry table.now)) }
{
    let mut names = Vec::new(alloc);
    for (at, row) in table.iter().enumerate() {
        if library(owner, row.0).is_some() {
            names.push((row.0, at as u64))?;
        }
    }
    Ok(names)
}

/// The names that a library gives, with their numbers.
#[tactic(auto, unfolding(crate::specs::Resolution::library_scope, crate::specs::Resolution::library_entries, std_names::specs::Libraries::names))]
pub fn library_names<'a>(alloc: Global, owner: &[u8]) -> Result<Vec<(&'a [u8], u64)>, Memory>
    ensures { IfOk result (λ names. map seen names.items ≡ spec.library_scope owner.now) }
{
    given(alloc, owner, &NAMES)
}
