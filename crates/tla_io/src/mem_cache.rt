//! A cache file in memory.

ghost use Rattle.std.specs.Prelude.{◌≡◌, ◌↔◌, Some, None, take, IfOk, OnOk, IsErr, IsErrOf};
ghost use Rattle.tla_io.specs.Causes.{HasCause, HasCacheCause};
ghost use Rattle.tla_io.specs.InMemory.{schedule, FailsNext, content_of, content_or_empty, after_read, after_replace};
ghost use Rattle.tla_io.specs.Told.{ReadsFront, with_content, SameElsewhere, SameNames};

use crate::cache_file::CacheFile;
use crate::calls::Calls;
use crate::faults::{CacheFault, Failed};
use crate::front::{front_of, is_same};
use core_expr::Text;
use std::alloc::Global;
use std::marker::Model;

/// A device that holds the content of one name, tells of that name alone, and fails at the calls listed. Contracts see
/// its name, the content and its calls.
#[derive(Drop)]
pub struct MemCache {
    file: Text,
    content: Vec<u8>,
    calls: Calls,
}

impl Model for MemCache {
    ghost use Rattle.tla_io.specs.InMemory.{Cached};

    ghost Value = { Cached };

    ghost view = { λ c. record { file = c.file; content = c.content.items; calls = c.calls } };
}

impl MemCache {
    /// A cache file with this content; `fails` lists the numbers, from 0, of the reads and replaces that fail.
    pub fn new(file: Text, content: Vec<u8>, fails: Vec<u64>) -> MemCache
        ensures file { result.file ≡ file }
        ensures content { result.content ≡ content.items }
        ensures calls { result.calls ≡ schedule fails.items }
        ensures told { ⟦<MemCache as CacheFile>⟧.content result file ≡ Some content.items }
        ensures count { ⟦<MemCache as CacheFile>⟧.count result ≡ 0 }
    {
        MemCache {
            file,
            content,
            calls: Calls::new(fails),
        }
    }

    /// The content under the one name.
    pub fn content(&self) -> &[u8]
        ensures content { result.now ≡ self.now.content }
        ensures told { ⟦<MemCache as CacheFile>⟧.content self.now self.now.file ≡ Some result.now }
    {
        self.content.as_slice()
    }
}

impl CacheFile for MemCache {
    ghost content = { content_of };

    ghost count = { λ c. c.calls.faults };

    /// Under another name than the one held it answers no bytes.
    fn read(&mut self, alloc: Global, file: &str, at_most: u64) -> Result<Vec<u8>, CacheFault>
        ensures told { ReadsFront (content_of self.old file.now) at_most result }
        ensures same { content_of self.new ≡ content_of self.old }
        ensures cause { HasCacheCause self.old.calls.faults self.new.calls.faults result }
        ensures failed { IsErrOf result CacheFault.Failed ↔ FailsNext self.old.calls }
        ensures other { content_of self.old file.now ≡ None → ¬ (IsErrOf result CacheFault.Memory) }
        ensures front { IfOk result (λ v. v.items
            ≡ take at_most (content_or_empty self.old file.now)) }
        ensures after { self.new ≡ after_read self.old result }
    {
        if self.calls.begin() {
            self.calls.fail();
            return Err(CacheFault::Failed);
        }
        if !is_same(file.as_bytes(), self.file.bytes()) {
            return Ok(Vec::new(alloc));
        }
        match front_of(alloc, self.content.as_slice(), at_most) {
            Ok(front) => Ok(front),
            Err(_) => Err(CacheFault::Memory),
        }
    }

    /// Under another name than the one held it drops the bytes.
    fn replace(&mut self, file: &str, bytes: Vec<u8>) -> Result<(), Failed>
        ensures replaced { OnOk result (content_of self.new
            ≡ with_content (content_of self.old) file.now bytes.items) }
        ensures others { SameElsewhere (content_of self.old) (content_of self.new) file.now }
        ensures names { SameNames (content_of self.old) (content_of self.new) }
        ensures cause { HasCause self.old.calls.faults self.new.calls.faults result }
        ensures failed { IsErr result ↔ FailsNext self.old.calls }
        ensures after { self.new ≡ after_replace self.old file.now bytes.items result }
    {
        if self.calls.begin() {
            self.calls.fail();
            return Err(Failed);
        }
        if is_same(file.as_bytes(), self.file.bytes()) {
            self.content = bytes;
        }
        Ok(())
    }

    fn faults(&self) -> u64 {
        self.calls.faults()
    }
}
