//! What is kept from run to run.

ghost use Rattle.std.specs.Prelude.{◌≡◌, ◌&&◌, not, is_some, None, option_map, IfOk, IfErr, OnOk};
ghost use Rattle.tla_io.specs.Causes.{HasCause, HasCacheCause};
ghost use Rattle.proof_cache.specs.Records.{kept_for};
ghost use Rattle.cache_file.specs.Written.{file_of, proved_jobs};
ghost use Rattle.proof_manager.specs.Caching.{AreKept, made_where, IsReplaced, IsElsewhere};

use cache_file::{read_cache, write_cache};
use core_expr::{Canon, Memory};
use proof_cache::{Cache, Verdict};
use std::alloc::Global;
use std::thread::Threads;
use tla_io::{CacheFault, CacheFile, Failed};

/// How many bytes of the cache's file are read at most.
const READ_AT_MOST: u64 = 268435456;

/// The proofs that an earlier run kept in the file; none without a file, and then the cache is not called.
pub fn kept<R: Threads + Sync, C: CacheFile>(
    rt: &R,
    alloc: Global,
    cache: &mut C,
    file: Option<&str>,
) -> Result<Cache, CacheFault>
    ensures kept { IfOk result (λ k.
        AreKept (option_map (λ s. s.now) file.entry) (C.content cache.old) (kept_for k)) }
    ensures same { C.content cache.new ≡ C.content cache.old }
    ensures count { HasCacheCause (C.count cache.old) (C.count cache.new) result }
    ensures uncalled { option_map (λ s. s.now) file.entry ≡ None → cache.new ≡ cache.old }
{
    let Some(file) = file else {
        return Ok(Cache::none(alloc));
    };
    let bytes = cache.read(alloc, file, READ_AT_MOST)?;
    match read_cache(rt, alloc, bytes.as_slice()) {
        Ok(records) => Ok(records),
        Err(_) => Err(CacheFault::Memory),
    }
}

/// Whether a new cache is wanted: with a file, where the report is not stopped.
pub fn is_wanted(file: Option<&str>, stopped: bool) -> bool
    ensures { result ≡ (is_some (option_map (λ s. s.now) file.entry) && not stopped) }
{
    match file {
        None => false,
        Some(_) => !stopped,
    }
}

/// The new cache of these jobs, where it is wanted.
pub fn next_cache(
    alloc: Global,
    wanted: bool,
    jobs: &[Canon],
    verdicts: &[Option<Verdict>],
) -> Result<Option<Vec<u8>>, Memory>
    ensures { IfOk result (λ o. option_map (λ v. v.items) o
        ≡ made_where wanted (file_of (proved_jobs jobs.now verdicts.now))) }
{
    if !wanted {
        return Ok(None);
    }
    let bytes = write_cache(alloc, jobs, verdicts)?;
    Ok(Some(bytes))
}

/// Puts the new cache, where there is one, in the place of the file's content. It takes no memory.
pub fn replace<C: CacheFile>(
    cache: &mut C,
    file: Option<&str>,
    next: Option<Vec<u8>>,
) -> Result<(), Failed>
    ensures replaced { OnOk result (IsReplaced (option_map (λ s. s.now) file.entry)
        (option_map (λ v. v.items) next)
        (record { before = C.content cache.old; after = C.content cache.new })) }
    ensures failed { IfErr result (λ e. IsElsewhere (option_map (λ s. s.now) file.entry)
        (record { before = C.content cache.old; after = C.content cache.new })) }
    ensures count { HasCause (C.count cache.old) (C.count cache.new) result }
    ensures uncalled { option_map (λ s. s.now) file.entry ≡ None → cache.new ≡ cache.old }
{
    match (file, next) {
        (Some(file), Some(bytes)) => cache.replace(file, bytes),
        _ => Ok(()),
    }
}
