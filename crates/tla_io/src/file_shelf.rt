//! Modules as files of the current folder.

ghost use Rattle.std.specs.Prelude.{◌≡◌, ◌≤◌, IfOk, IfSome, length, string_bytes};
ghost use Rattle.tla_io.specs.Causes.{HasShelfCause};
ghost use Rattle.tla_io.specs.Files.{module_path, modules_of};
ghost use Rattle.tla_io.specs.Told.{Fetches};

use crate::faults::ShelfFault;
use crate::folder::Folder;
use crate::front::{Front, read_path};
use crate::shelf::Shelf;
use std::alloc::{AllocError, Global};
use std::marker::Model;

/// A shelf that reads the module NAME from the file `NAME.tla` of a folder, and has no module where that file is not
/// there. Any other error is a fault. It tells the modules of a folder that tells its files; the files that a runtime
/// reaches tell nothing.
#[derive(Drop)]
pub struct FileShelf<'a, F: Folder> {
    folder: &'a F,
    faults: u64,
}

impl<'a, F: Folder> Model for FileShelf<'a, F> {
    ghost use Rattle.tla_io.specs.Files.{Counted};

    ghost Value = { Counted F };

    ghost view = { λ s. record { device = s.folder.now; faults = s.faults } };
}

impl<'a, F: Folder> FileShelf<'a, F> {
    /// A shelf over a folder, as the runtime is one.
    pub fn new(folder: &'a F) -> FileShelf<'a, F>
        ensures folder { result.device ≡ folder.entry.now }
        ensures count { ⟦<FileShelf<'a, F> as Shelf>⟧.count result ≡ 0 }
    {
        FileShelf { folder, faults: 0 }
    }
}

/// The path of a module's file.
fn path_of(alloc: Global, name: &str) -> Result<String, AllocError>
    ensures { IfOk result (λ path. string_bytes path ≡ module_path name.now) }
{
    let mut path = String::from_str(alloc, name)?;
    path.push_str(".tla")?;
    Ok(path)
}

impl<'a, F: Folder> Shelf for FileShelf<'a, F> {
    ghost folder = { λ s. modules_of (F.held s.device) };

    ghost count = { λ s. s.faults };

    fn fetch(
        &mut self,
        alloc: Global,
        name: &str,
        at_most: u64,
    ) -> Result<Option<Vec<u8>>, ShelfFault>
        ensures told { Fetches (modules_of (F.held self.old.device)) name.now at_most result }
        ensures same { self.new.device ≡ self.old.device }
        ensures cause { HasShelfCause self.old.faults self.new.faults result }
        ensures within { IfOk result (λ found. IfSome found (λ text. length text.items ≤ at_most)) }
    {
        let Ok(path) = path_of(alloc, name) else {
            return Err(ShelfFault::Memory);
        };
        match read_path(alloc, self.folder, path.as_str(), at_most) {
            Front::Bytes(text) => Ok(Some(text)),
            Front::Missing => Ok(None),
            Front::Memory => Err(ShelfFault::Memory),
            Front::Failed => {
                self.faults = self.faults.saturating_add(1);
                Err(ShelfFault::Failed)
            }
        }
    }

    fn faults(&self) -> u64 {
        self.faults
    }
}
