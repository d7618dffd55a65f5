//! The top call.

ghost use Rattle.std.specs.Prelude.{◌≡◌, None, option_map};
ghost use Rattle.command_words.specs.Requests.{asked_by};
ghost use Rattle.proof_manager.specs.Runs.{InRange, style_for};
ghost use Rattle.proof_manager.specs.Causes.{texts, Tells, IsFine, read_in, WordsCause, IsPastWords, OfAsked, EndsTold, WhereReported, IsJust, IsDecided, ShelfCause, SinkCause, CacheCause, IsUnwritten, IsUntouched, IsUncalled, IsUnreplaced, Writes};

use crate::jobs::{Outcome, judge_all};
use crate::kept::{kept, replace};
use crate::laws::reports_are_just;
use crate::load::{Checked, read_asked};
use crate::status::Status;
use command_words::{Request, WordsFault, asked, asked_once};
use leaf_jobs::report_without_memory;
use module_shelf::LoadFault;
use status_report::{Style, report};
use std::alloc::Global;
use std::thread::Threads;
use tla_io::{CacheFault, CacheFile, Shelf, Sink, write_whole};
use worker_map::Gate;

/// Makes the report, writes it, and puts the new cache, where there is one, in the place of the file's content.
#[tactic(auto, using(crate::proofs::Lines::all_proved))]
fn write<C: CacheFile, K: Sink>(
    alloc: Global,
    outcome: Outcome,
    file: Option<&str>,
    style: Style,
    cache: &mut C,
    out: &mut K,
) -> Status
    ensures report { Writes style (outcome.judged.modules, outcome.judged.stopped)
        (option_map (λ s. s.now) file.entry) (option_map (λ v. v.items) outcome.next)
        (record { before = C.content cache.old; after = C.content cache.new })
        (record { before = K.taken out.old; after = K.taken out.new }) result }
    ensures sink { SinkCause result (K.count out.old) (K.count out.new) }
    ensures cache_count { CacheCause result (C.count cache.old) (C.count cache.new) }
    ensures unwritten { IsUnwritten result out.old out.new }
    ensures unreplaced { IsUnreplaced result (C.content cache.old) (C.content cache.new) }
    ensures uncalled { option_map (λ s. s.now) file.entry ≡ None → cache.new ≡ cache.old }
{
    let Outcome { judged, next } = outcome;
    let Ok(made) = report(alloc, judged.modules.as_slice(), style, judged.stopped) else {
        return Status::Memory;
    };
    if write_whole(out, made.text.as_slice()).is_err() {
        return Status::WriteFault;
    }
    if replace(cache, file, next).is_err() {
        return Status::CacheWrite;
    }
    if made.memory_leaf {
        Status::MemoryLeaf
    } else if !judged.stopped && made.proved == made.theorems {
        Status::AllProved
    } else {
        Status::NotAll
    }
}

/// The style of a report: as JSON or not, and of a demonstration the counts alone.
fn style(json: bool, demo: Option<u64>) -> Style
    ensures { result ≡ style_for json demo }
{
    match demo {
        None if json => Style::Json,
        None => Style::Plain,
        Some(_) if json => Style::BriefJson,
        Some(_) => Style::Brief,
    }
}

/// Answers the leaves of the modules that were read, by what the cache keeps and by searches, and reports them.
fn run_checked<R: Threads + Sync, C: CacheFile, K: Sink, G: Gate>(
    rt: &R,
    alloc: Global,
    request: Request,
    checked: &Checked,
    cache: &mut C,
    out: &mut K,
    gate: &G,
) -> Status
    requires range { InRange (asked_by request) }
    requires fine { IsFine checked.now }
    ensures report { Tells (asked_by request.entry) (read_in checked.now)
        (record { before = C.content cache.old; after = C.content cache.new })
        (record { before = K.taken out.old; after = K.taken out.new }) result }
    ensures sink_count { SinkCause result (K.count out.old) (K.count out.new) }
    ensures cache_count { CacheCause result (C.count cache.old) (C.count cache.new) }
    ensures unwritten { IsUnwritten result out.old out.new }
    ensures unreplaced { IsUnreplaced result (C.content cache.old) (C.content cache.new) }
    ensures uncalled { (asked_by request.entry).cache ≡ None → cache.new ≡ cache.old }
{
    report_without_memory();
    let style = style(request.json, request.demo);
    let records = match kept(rt, alloc, cache, request.cache) {
        Ok(records) => records,
        Err(CacheFault::Failed) => return Status::CacheRead,
        Err(CacheFault::Memory) => return Status::Memory,
    };
    match judge_all(rt, alloc, checked, request, &records, gate) {
        Ok(outcome) => write(alloc, outcome, request.cache, style, cache, out),
        Err(_) => Status::Memory,
    }
}

/// All that the program does for lawful words.
fn run_root<R: Threads + Sync, S: Shelf, C: CacheFile, K: Sink, G: Gate>(
    rt: &R,
    alloc: Global,
    request: Request,
    shelf: &mut S,
    cache: &mut C,
    out: &mut K,
    gate: &G,
) -> Status
    requires { InRange (asked_by request) }
    ensures past { IsPastWords result }
    ensures report { EndsTold result (S.folder shelf.old) (asked_by request.entry)
        (record { before = C.content cache.old; after = C.content cache.new })
        (record { before = K.taken out.old; after = K.taken out.new }) }
    ensures just { WhereReported IsJust result (S.folder shelf.old) (asked_by request.entry) }
    ensures decided { WhereReported IsDecided result (S.folder shelf.old) (asked_by request.entry) }
    ensures shelf_count { ShelfCause result (S.count shelf.old) (S.count shelf.new) }
    ensures sink_count { SinkCause result (K.count out.old) (K.count out.new) }
    ensures cache_count { CacheCause result (C.count cache.old) (C.count cache.new) }
    ensures unwritten { IsUnwritten result out.old out.new }
    ensures uncalled { IsUncalled result cache.old cache.new }
    ensures unreplaced { IsUnreplaced result (C.content cache.old) (C.content cache.new) }
    ensures unasked { (asked_by request.entry).cache ≡ None → cache.new ≡ cache.old }
    ensures kept { S.folder shelf.new ≡ S.folder shelf.old }
{
    reports_are_just();
    match read_asked(alloc, shelf, request) {
        Ok(checked) => run_checked(rt, alloc, request, &checked, cache, out, gate),
        Err(LoadFault::NotFound(name)) => Status::NotFound { name },
        Err(
            LoadFault::Refused {
                module,
                place,
                kind,
            },
        ) => Status::Refused {
            module,
            place,
            kind,
        },
        Err(LoadFault::ReadFault) => Status::ReadFault,
        Err(LoadFault::Memory) => Status::Memory,
    }
}

/// All that the program does: loads the module that the words name and those that it extends, or makes the module of a demonstration;
/// answers the leaves of their theorems by the proofs that the cache's file keeps, each checked again, and else by the written search, with the
/// limit of turns and the number of workers that the words give; writes the report, with `--stop` up to the first failed leaf; and, where the report
/// is not stopped, replaces the file by the proofs of this run. Without `--cache` the cache is not called.
///
/// The report and the new cache are made before the first write, and no memory is taken from then on. Threads are started for the lines of
/// the cache and for the workers, and joined before the report is written. `gate` is told of each job before it is proved.
pub fn run<R: Threads + Sync, S: Shelf, C: CacheFile, K: Sink, G: Gate>(
    rt: &R,
    alloc: Global,
    words: &Vec<String>,
    shelf: &mut S,
    cache: &mut C,
    out: &mut K,
    gate: &G,
) -> Status
    // Unlawful words are told exactly, and then no device was called. The cache is called for a file alone, once the modules are read.
    ensures unlawful_words { WordsCause result (texts words.now.items) }
    ensures shelf_uncalled { IsUntouched result shelf.old shelf.new }
    ensures cache_uncalled { IsUncalled result cache.old cache.new }
    ensures cache_unasked { OfAsked (texts words.now.items) (λ a.
        a.cache ≡ None → cache.new ≡ cache.old) }

    // What the status says of the modules, with their first fault, of the report, and of the new cache. The number of workers occurs
    // nowhere in it.
    ensures report { OfAsked (texts words.now.items) (λ a.
        EndsTold result (S.folder shelf.old) a
        (record { before = C.content cache.old; after = C.content cache.new })
        (record { before = K.taken out.old; after = K.taken out.new })) }

    // Each theorem that is reported proved has its derivation, with all definitions expanded, from the ASSUMEs before it alone, whatever
    // the cache held. A printed valuation falsifies its leaf, and leaves of few connectives are decided.
    ensures answers_justified { OfAsked (texts words.now.items) (λ a.
        WhereReported IsJust result (S.folder shelf.old) a) }
    ensures small_decided { OfAsked (texts words.now.items) (λ a.
        WhereReported IsDecided result (S.folder shelf.old) a) }

    // A fault is told exactly where a count rose; nothing is written but a report, and no file replaced but behind it; the modules stay as
    // they are.
    ensures read_faults { ShelfCause result (S.count shelf.old) (S.count shelf.new) }
    ensures write_faults { SinkCause result (K.count out.old) (K.count out.new) }
    ensures cache_faults { CacheCause result (C.count cache.old) (C.count cache.new) }
    ensures only_report_written { IsUnwritten result out.old out.new }
    ensures only_then_replaced { IsUnreplaced result (C.content cache.old) (C.content cache.new) }
    ensures modules_kept { S.folder shelf.new ≡ S.folder shelf.old }
{
    asked_once();
    match asked(alloc, words.as_slice()) {
        Ok(request) => run_root(rt, alloc, request, shelf, cache, out, gate),
        Err(WordsFault::Words) => Status::Words,
        Err(WordsFault::Memory) => Status::Memory,
    }
}
