//! A cache, read from its file's bytes.
ghost use Rattle.std.specs.Prelude.{◌≡◌, ◌<◌, [], ◌∷◌, ◌++◌, length, map, List, Option, IfOk, OnOk};
ghost use Rattle.std.specs.List.{AllZip};
ghost use Rattle.proof_cache.specs.Records.{Keeps};
ghost use Rattle.proof_cache.specs.declared.record.Record.{Record};
ghost use Rattle.cache_file.specs.Lines.{lines_of};
ghost use Rattle.cache_file.specs.Records.{AreRecords, Holds, IsAnswered, IsRead};

use crate::lines::lines;
use crate::record::read_record;
use core_expr::Memory;
use proof_cache::{Cache, Record};
use rayon::prelude::*;
use std::alloc::Global;
use std::thread::Threads;

/// What each line is, in the order of the lines.
fn read_all(
    rt: &(impl Threads + Sync),
    alloc: Global,
    lines: &[&[u8]],
) -> Result<Vec<Option<Record>>, Memory>
    ensures { IfOk result (λ v. AllZip IsRead (map (λ l. l.now) lines.entry.now) v.items) }
{
    lines
        .par_iter()
        .map(
            |line: &&[u8]| -> Result<Option<Record>, Memory>
                ensures { IsAnswered line.entry.now.now result }
            { read_record(alloc, *line) },
        )
        .collect::<Result<Vec<_>, _>>(rt, alloc)?
}

/// Keeps what is a record, and counts what is none.
fn keep(cache: &mut Cache, read: Option<Record>) -> Result<(), Memory>
    ensures { OnOk result ((os : List (Option Record)) → length os < 18446744073709551615
        → Holds cache.old os → Holds cache.new (os ++ read ∷ [])) }
{
    match read {
        Some(Record { canon, proof }) => cache.keep(canon, proof)?,
        None => cache.skip(),
    }
    Ok(())
}

/// Keeps the records among these, and counts the others.
fn keep_all(alloc: Global, reads: Vec<Option<Record>>) -> Result<Cache, Memory>
    ensures { IfOk result (λ k. Holds k reads.items) }
{
    let mut cache = Cache::none(alloc);
    for read in reads {
        keep(&mut cache, read)?;
    }
    Ok(cache)
}

/// The cache that the bytes of its file stand for: the records of its lines in order, and how many lines are none. Lines are read by
/// several threads. Want of memory is the only other answer.
pub fn read_cache(rt: &(impl Threads + Sync), alloc: Global, bytes: &[u8]) -> Result<Cache, Memory>
    ensures { IfOk result (λ k. (rs : List Record) × AreRecords (lines_of bytes.now) rs k.skipped
        × Keeps k rs) }
{
    let lines = lines(alloc, bytes)?;
    let reads = read_all(rt, alloc, lines.as_slice())?;
    keep_all(alloc, reads)
}
