//! Files by path.

ghost use Rattle.std.specs.Prelude.{Option, List, ℕ, None, ⊤, OnOk};
ghost use Rattle.tla_io.specs.Files.{Opens};

use std::io::Read;
use std::rt::Files;
use std::{fs, io};

/// Files that can be opened, written and renamed by their paths. What a runtime reaches is such a folder, and tells nothing.
pub trait Folder {
    /// An open file.
    type File: Read + Drop;

    /// The content of each path that has a file, where the folder tells them.
    ghost held: { Self → Option (List ℕ → Option (List ℕ)) };

    /// These bytes were put at this path.
    ghost was_put: { Self → List ℕ → List ℕ → Type 0 };

    /// The file at the first path was given the second.
    ghost was_renamed: { Self → List ℕ → List ℕ → Type 0 };

    /// Opens the file at a path; the error's kind is `NotFound` only where there is none.
    fn open_path(&self, path: &str) -> io::Result<Self::File>
        ensures { Opens Self.File.remaining (held self.now) path.now result };

    /// Puts these bytes into the file at a path, in the place of what it held.
    fn put(&self, path: &str, bytes: &[u8]) -> io::Result<()>
        ensures { OnOk result (was_put self.now path.now bytes.now) };

    /// Gives a file another path, in the place of what was there.
    fn change_path(&self, from: &str, to: &str) -> io::Result<()>
        ensures { OnOk result (was_renamed self.now from.now to.now) };
}

impl<R: Files> Folder for R {
    type File = R::File;

    ghost held = { λ _. None };

    ghost was_put = { λ _ _ _. ⊤ };

    ghost was_renamed = { λ _ _ _. ⊤ };

    fn open_path(&self, path: &str) -> io::Result<R::File> {
        fs::open(self, path)
    }

    fn put(&self, path: &str, bytes: &[u8]) -> io::Result<()> {
        fs::write(self, path, bytes)
    }

    fn change_path(&self, from: &str, to: &str) -> io::Result<()> {
        fs::rename(self, from, to)
    }
}
