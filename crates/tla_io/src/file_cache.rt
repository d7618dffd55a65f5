//! Cache files of a folder.

ghost use Rattle.std.specs.Prelude.{◌≡◌, ◌≤◌, ◌<◌, ◌+◌, ◌++◌, ◌↔◌, OnOk, IfOk, IfSome, IsErr, IsNone, IsTrue, codes, length, take};
ghost use Rattle.tla_io.specs.Causes.{HasCause, HasCacheCause};
ghost use Rattle.tla_io.specs.Files.{IsReplaced, ReadsFile};
ghost use Rattle.tla_io.specs.Told.{untold, with_content, SameElsewhere, SameNames};

use crate::cache_file::CacheFile;
use crate::faults::{CacheFault, Failed};
use crate::folder::Folder;
use crate::front::{Front, read_path};
use std::alloc::Global;
use std::marker::Model;

/// A device over the files of a folder. A file that is not there reads as empty. A file is replaced by writing the one
/// beside it, which has `.new` behind its name, and renaming that; that longer name may have 4096 bytes at most. Any error
/// is a fault. It tells nothing to the trait's callers; its own clauses say what was read, and what the folder was asked to
/// put and to rename.
#[derive(Drop)]
pub struct FileCache<'a, F: Folder> {
    folder: &'a F,
    faults: u64,
}

impl<'a, F: Folder> Model for FileCache<'a, F> {
    ghost use Rattle.tla_io.specs.Files.{Counted};

    ghost Value = { Counted F };

    ghost view = { λ c. record { device = c.folder.now; faults = c.faults } };
}

impl<'a, F: Folder> FileCache<'a, F> {
    /// A device over a folder, as the runtime is one.
    pub fn new(folder: &'a F) -> FileCache<'a, F>
        ensures folder { result.device ≡ folder.entry.now }
        ensures count { ⟦<FileCache<'a, F> as CacheFile>⟧.count result ≡ 0 }
    {
        FileCache { folder, faults: 0 }
    }
}

/// The most bytes of the name of the file beside another.
const NAME: usize = 4096;

/// Writes the name of the file beside this one to the front of the buffer, and answers its length; None where the buffer
/// is too short for it.
fn write_name(file: &str, buf: &mut [u8]) -> Option<usize>
    ensures long { IsNone result ↔ (length buf.old < length file.now + 4) }
    ensures name { IfSome result (λ n. take n buf.new ≡ file.now ++ codes ".new") }
    ensures within { IfSome result (λ n. n ≤ length buf.old) }
{
    let length = file.len();
    if buf.len() < 4 || buf.len() - 4 < length {
        return None;
    }
    buf[..length].copy_from_slice(file.as_bytes());
    buf[length..length + 4].copy_from_slice(b".new");
    Some(length + 4)
}

/// Puts the bytes into the file by way of the one beside it.
fn is_replaced<F: Folder>(folder: &F, file: &str, bytes: &[u8]) -> bool
    ensures long { IsTrue result → length file.now + 4 ≤ 4096 }
    ensures replaced { IsTrue result
        → IsReplaced (F.was_put folder.now) (F.was_renamed folder.now) file.now bytes.now }
{
    let mut buf = [0u8; NAME];
    let Some(length) = write_name(file, &mut buf) else {
        return false;
    };
    let Ok(name) = str::from_utf8(&buf[..length]) else {
        return false;
    };
    folder.put(name, bytes).is_ok() && folder.change_path(name, file).is_ok()
}

impl<'a, F: Folder> CacheFile for FileCache<'a, F> {
    ghost content = { λ _. untold };

    ghost count = { λ c. c.faults };

    fn read(&mut self, alloc: Global, file: &str, at_most: u64) -> Result<Vec<u8>, CacheFault>
        ensures cause { HasCacheCause self.old.faults self.new.faults result }
        ensures within { IfOk result (λ bytes. length bytes.items ≤ at_most) }
        ensures front { ReadsFile (F.held self.old.device) file.now at_most result }
    {
        match read_path(alloc, self.folder, file, at_most) {
            Front::Bytes(bytes) => Ok(bytes),
            Front::Missing => Ok(Vec::new(alloc)),
            Front::Memory => Err(CacheFault::Memory),
            Front::Failed => {
                self.faults = self.faults.saturating_add(1);
                Err(CacheFault::Failed)
            }
        }
    }

    fn replace(&mut self, file: &str, bytes: Vec<u8>) -> Result<(), Failed>
        ensures replaced { OnOk result (untold ≡ with_content untold file.now bytes.items) }
        ensures others { SameElsewhere untold untold file.now }
        ensures names { SameNames untold untold }
        ensures cause { HasCause self.old.faults self.new.faults result }
        ensures long { 4096 < length file.now + 4 → IsErr result }
        ensures put { OnOk result (IsReplaced (F.was_put self.old.device)
            (F.was_renamed self.old.device) file.now bytes.items) }
    {
        if is_replaced(self.folder, file, bytes.as_slice()) {
            return Ok(());
        }
        self.faults = self.faults.saturating_add(1);
        Err(Failed)
    }

    fn faults(&self) -> u64 {
        self.faults
    }
}
