//! A run over devices in memory.

use core_expr::Text;
use proof_manager::{Gate, Status, run};
use std::alloc::Global;
use std::test::Fail;
use std::thread::Threads;
use tla_io::{MemCache, MemShelf, MemSink};

/// One run: the modules of the shelf by name and text, the content of the cache's file `f`, the calls that fail, and the words behind the
/// program's.
#[derive(Clone, Copy)]
pub struct Case<'a> {
    pub modules: &'a [(&'a str, &'a str)],
    pub words: &'a [&'a str],
    pub shelf_fails: &'a [u64],
    pub room: u64,
    pub cache: &'a [u8],
    pub cache_fails: &'a [u64],
}

/// What a run leaves: its exit status, the bytes that the sink took, the content of the cache's file, and what it says on standard error.
#[derive(Drop)]
pub struct Outcome {
    pub code: u8,
    pub taken: Vec<u8>,
    pub cache: Vec<u8>,
    pub said: Text,
}

/// The program's name and these words.
fn command(alloc: Global, words: &[&str]) -> Result<Vec<String>, Fail> {
    let mut command = Vec::new(alloc);
    command.push(String::from_str(alloc, "tla_prove")?)?;
    for word in words {
        command.push(String::from_str(alloc, word)?)?;
    }
    Ok(command)
}

/// A shelf of these modules, at which these calls fail.
fn shelf(alloc: Global, modules: &[(&str, &str)], fails: &[u64]) -> Result<MemShelf, Fail> {
    let mut entries = Vec::new(alloc);
    for (name, text) in modules {
        let name = Text::of(alloc, name.as_bytes())?;
        entries.push((name, Vec::from_slice(alloc, text.as_bytes())?))?;
    }
    Ok(MemShelf::new(entries, Vec::from_slice(alloc, fails)?))
}

/// Runs a case, in which each job is told to the gate.
pub fn ran<R: Threads + Sync, G: Gate>(
    rt: &R,
    alloc: Global,
    gate: &G,
    case: &Case,
) -> Result<Outcome, Fail> {
    let words = command(alloc, case.words)?;
    let mut shelf = shelf(alloc, case.modules, case.shelf_fails)?;
    let content = Vec::from_slice(alloc, case.cache)?;
    let fails = Vec::from_slice(alloc, case.cache_fails)?;
    let mut cache = MemCache::new(Text::of(alloc, b"f")?, content, fails);
    let mut sink = MemSink::new(alloc, case.room, 7, Vec::new(alloc))?;
    let status = run(rt, alloc, &words, &mut shelf, &mut cache, &mut sink, gate);
    Ok(Outcome {
        code: status.code(),
        taken: Vec::from_slice(alloc, sink.taken())?,
        cache: Vec::from_slice(alloc, cache.content())?,
        said: status.text(alloc)?,
    })
}
