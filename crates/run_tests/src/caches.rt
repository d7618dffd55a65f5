//! What the cache's file may hold, and what it holds after a run.

use crate::case::{Case, Outcome, ran};
use cache_file::read_cache;
use proof_manager::Through;
use std::alloc::Global;
use std::process::Abort;
use std::test::Fail;
use std::thread::Threads;

/// A module whose one theorem takes two turns.
const MODULE: &str = "---- MODULE M ----\nCONSTANT A\nTHEOREM T == A => A OBVIOUS\n====\n";

/// Its report where the theorem is proved by the cache.
const CACHED: &str =
    "module M\ntheorem T 3:1 proved\n  leaf 3:21 proved, cached\n1 theorems, 1 proved\n";

/// Its report where it is searched with one turn.
const SPENT: &str =
    "module M\ntheorem T 3:1 unproved\n  leaf 3:21 spent, 1 turns\n1 theorems, 0 proved\n";

/// The line of a proof by implication on the right over an axiom.
const LINE: &str =
    "{\"k\":\"ffa042ac4a4e107009a31935408637b1c5eee0d63bf7204ff76205f9a84cab78\",\"o\":[2,6,0,0,10,0,0,0,1],\"p\":[1,6,0,0,2,0,0,12,0,0,0]}\n";

/// A run on the module with one turn and this cache.
fn with_cache<R: Threads + Sync>(
    rt: &R,
    alloc: Global,
    words: &[&str],
    cache: &[u8],
    cache_fails: &[u64],
) -> Result<Outcome, Fail> {
    let case = Case {
        modules: &[("M", MODULE)],
        words,
        shelf_fails: &[],
        room: 400,
        cache,
        cache_fails,
    };
    ran(rt, alloc, &Through, &case)
}

/// Compares a run with a cache: whether its leaf is cached, or else spent, and how many lines are no records. After a run that hits, the new
/// cache is the one line; after another it is empty.
fn compare<R: Abort + Threads + Sync>(
    rt: &R,
    alloc: Global,
    what: &str,
    cache: &[u8],
    cached: bool,
    skipped: u64,
) -> Result<(), Fail> {
    let got = with_cache(
        rt,
        alloc,
        &["M", "--turns", "1", "--cache", "f"],
        cache,
        &[],
    )?;
    let (code, report, left) = if cached {
        (0, CACHED, LINE)
    } else {
        (1, SPENT, "")
    };
    assert_eq!(rt; got.code, code, "{what}");
    assert_eq!(rt; got.taken.as_slice(), report.as_bytes(), "{what}");
    assert_eq!(rt; got.cache.as_slice(), left.as_bytes(), "{what}");
    let read = read_cache(rt, alloc, cache)?;
    assert_eq!(rt; read.skipped(), skipped, "{what}");
    Ok(())
}

#[test]
fn lines_are_records_or_skipped(rt: HostRuntime) -> Result<(), Fail> {
    let alloc = rt.alloc();
    let table: [(&str, &[&str], bool, u64); 22] = [
        ("the line", &[LINE], true, 0),
        ("the line twice", &[LINE, LINE], true, 0),
        (
            "its keys in another order",
            &[
                "{\"p\":[1,6,0,0,2,0,0,12,0,0,0],\"k\":\"ffa042ac4a4e107009a31935408637b1c5eee0d63bf7204ff76205f9a84cab78\",\"o\":[2,6,0,0,10,0,0,0,1]}\n",
            ],
            true,
            0,
        ),
        (
            "no line feed",
            &[
                "{\"k\":\"ffa042ac4a4e107009a31935408637b1c5eee0d63bf7204ff76205f9a84cab78\",\"o\":[2,6,0,0,10,0,0,0,1],\"p\":[1,6,0,0,2,0,0,12,0,0,0]}",
            ],
            true,
            0,
        ),
        (
            "blanks, and a carriage return",
            &[
                "{ \"k\" : \"ffa042ac4a4e107009a31935408637b1c5eee0d63bf7204ff76205f9a84cab78\" , \"o\":[2,6,0,0,10,0,0,0,1],\"p\":[1,6,0,0,2,0,0,12,0,0,0] }\r\n",
            ],
            true,
            0,
        ),
        (
            "a key twice, of which the last counts",
            &[
                "{\"k\":\"\",\"o\":[2,6,0,0,10,0,0,0,1],\"p\":[1,6,0,0,2,0,0,12,0,0,0],\"k\":\"ffa042ac4a4e107009a31935408637b1c5eee0d63bf7204ff76205f9a84cab78\"}\n",
            ],
            true,
            0,
        ),
        (
            "another digit of the key",
            &[
                "{\"k\":\"ffa042ac4a4e107009a31935408637b1c5eee0d63bf7204ff76205f9a84cab79\",\"o\":[2,6,0,0,10,0,0,0,1],\"p\":[1,6,0,0,2,0,0,12,0,0,0]}\n",
            ],
            false,
            1,
        ),
        (
            "the key in capitals",
            &[
                "{\"k\":\"FFA042AC4A4E107009A31935408637B1C5EEE0D63BF7204FF76205F9A84CAB78\",\"o\":[2,6,0,0,10,0,0,0,1],\"p\":[1,6,0,0,2,0,0,12,0,0,0]}\n",
            ],
            false,
            1,
        ),
        (
            "a further key",
            &[
                "{\"k\":\"ffa042ac4a4e107009a31935408637b1c5eee0d63bf7204ff76205f9a84cab78\",\"o\":[2,6,0,0,10,0,0,0,1],\"p\":[1,6,0,0,2,0,0,12,0,0,0],\"q\":[]}\n",
            ],
            false,
            1,
        ),
        (
            "a key missing",
            &[
                "{\"k\":\"ffa042ac4a4e107009a31935408637b1c5eee0d63bf7204ff76205f9a84cab78\",\"o\":[2,6,0,0,10,0,0,0,1]}\n",
            ],
            false,
            1,
        ),
        (
            "a negative number",
            &[
                "{\"k\":\"ffa042ac4a4e107009a31935408637b1c5eee0d63bf7204ff76205f9a84cab78\",\"o\":[2,6,0,0,10,0,0,0,1],\"p\":[1,6,0,0,2,0,0,12,0,0,-1]}\n",
            ],
            false,
            1,
        ),
        (
            "a number past 2^64 - 1",
            &[
                "{\"k\":\"ffa042ac4a4e107009a31935408637b1c5eee0d63bf7204ff76205f9a84cab78\",\"o\":[2,6,0,0,10,0,0,0,1],\"p\":[1,6,0,0,2,0,0,12,0,0,18446744073709551616]}\n",
            ],
            false,
            1,
        ),
        (
            "a number with a point",
            &[
                "{\"k\":\"ffa042ac4a4e107009a31935408637b1c5eee0d63bf7204ff76205f9a84cab78\",\"o\":[2,6,0,0,10,0,0,0,1],\"p\":[1,6,0,0,2,0,0,12,0,0,0.0]}\n",
            ],
            false,
            1,
        ),
        (
            "another rule, which is not correct",
            &[
                "{\"k\":\"ffa042ac4a4e107009a31935408637b1c5eee0d63bf7204ff76205f9a84cab78\",\"o\":[2,6,0,0,10,0,0,0,1],\"p\":[1,6,0,0,2,0,0,10,0,0,0]}\n",
            ],
            false,
            0,
        ),
        (
            "a premise that is not below its step",
            &[
                "{\"k\":\"ffa042ac4a4e107009a31935408637b1c5eee0d63bf7204ff76205f9a84cab78\",\"o\":[2,6,0,0,10,0,0,0,1],\"p\":[1,6,0,0,2,0,0,12,0,0,1]}\n",
            ],
            false,
            1,
        ),
        (
            "a list that ends early",
            &[
                "{\"k\":\"ffa042ac4a4e107009a31935408637b1c5eee0d63bf7204ff76205f9a84cab78\",\"o\":[2,6,0,0,10,0,0,0,1],\"p\":[1,6,0,0,2,0,0,20,0,0,0]}\n",
            ],
            false,
            1,
        ),
        (
            "a list of another obligation's writing",
            &[
                "{\"k\":\"07f7b8054a281783299f78913ee11c6d69252be4e9a1952d4e61e7a0012c8ac6\",\"o\":[3,6,0,0,6,0,0,10,0,1,0,2],\"p\":[1,6,0,0,2,0,0,12,0,0,0]}\n",
            ],
            false,
            1,
        ),
        ("an empty line before", &["\n", LINE], true, 1),
        (
            "a line that is cut behind it",
            &[LINE, "{\"k\":\"ffa042ac4a4e10"],
            true,
            1,
        ),
        ("no JSON before it", &["[[\n", LINE], true, 1),
        (
            "the proof of another form",
            &[
                "{\"k\":\"d4b2762c368e68e1b4319c4e78f160a053804709ba270adbfb9bff399381ab9d\",\"o\":[5,6,0,0,6,1,0,8,0,1,6,2,0,10,2,3,0,4],\"p\":[1,6,0,0,2,0,0,12,0,0,0]}\n",
            ],
            false,
            0,
        ),
        (
            "an incorrect proof before the line",
            &[
                "{\"k\":\"ffa042ac4a4e107009a31935408637b1c5eee0d63bf7204ff76205f9a84cab78\",\"o\":[2,6,0,0,10,0,0,0,1],\"p\":[1,6,0,0,2,0,0,10,0,0,0]}\n",
                LINE,
            ],
            true,
            0,
        ),
    ];
    for (what, pieces, cached, skipped) in &table {
        let mut cache = Vec::new(alloc);
        for piece in *pieces {
            cache.extend_from_slice(piece.as_bytes())?;
        }
        compare(&rt, alloc, what, cache.as_slice(), *cached, *skipped)?;
    }
    Ok(())
}

#[test]
fn bytes_that_are_no_text_are_skipped(rt: HostRuntime) -> Result<(), Fail> {
    let alloc = rt.alloc();
    let mut cache = Vec::from_slice(alloc, &[255, 254, 10])?;
    cache.extend_from_slice(LINE.as_bytes())?;
    compare(&rt, alloc, "no UTF-8", cache.as_slice(), true, 1)
}

#[test]
fn longer_lines_are_skipped(rt: HostRuntime) -> Result<(), Fail> {
    let alloc = rt.alloc();
    let mut cache = Vec::from_slice(alloc, LINE.as_bytes())?;
    cache.pop();
    for _ in cache.len()..8388608 {
        cache.push(32)?;
    }
    compare(
        &rt,
        alloc,
        "as long as a line may be",
        cache.as_slice(),
        true,
        0,
    )?;
    cache.push(32)?;
    compare(&rt, alloc, "one byte longer", cache.as_slice(), false, 1)?;
    cache.push(10)?;
    cache.extend_from_slice(LINE.as_bytes())?;
    compare(
        &rt,
        alloc,
        "and a line behind it",
        cache.as_slice(),
        true,
        1,
    )
}

#[test]
fn a_cache_is_read_and_replaced_with_its_faults(rt: HostRuntime) -> Result<(), Fail> {
    let alloc = rt.alloc();
    let words = ["M", "--turns", "1", "--cache", "f"];
    let read = with_cache(&rt, alloc, &words, LINE.as_bytes(), &[0])?;
    assert_eq!(rt; read.code, 6);
    assert_eq!(rt; read.taken.len(), 0);
    assert_eq!(rt; read.said.bytes(), "cache read fault".as_bytes());
    assert_eq!(rt; read.cache.as_slice(), LINE.as_bytes());
    let replace = with_cache(&rt, alloc, &words, LINE.as_bytes(), &[1])?;
    assert_eq!(rt; replace.code, 8);
    assert_eq!(rt; replace.taken.as_slice(), CACHED.as_bytes());
    assert_eq!(rt; replace.said.bytes(), "cache write fault".as_bytes());
    Ok(())
}

#[test]
fn a_found_proof_is_kept_for_the_next_run(rt: HostRuntime) -> Result<(), Fail> {
    let alloc = rt.alloc();
    let first = with_cache(&rt, alloc, &["M", "--cache", "f"], b"", &[])?;
    assert_eq!(rt; first.code, 0);
    let second = with_cache(
        &rt,
        alloc,
        &["M", "--cache", "f", "--turns", "1"],
        first.cache.as_slice(),
        &[],
    )?;
    assert_eq!(rt; second.taken.as_slice(), CACHED.as_bytes());
    assert_eq!(rt; second.cache.as_slice(), first.cache.as_slice());
    let none = with_cache(
        &rt,
        alloc,
        &["M", "--turns", "1"],
        first.cache.as_slice(),
        &[0, 1],
    )?;
    assert_eq!(rt; none.taken.as_slice(), SPENT.as_bytes());
    assert_eq!(rt; none.cache.as_slice(), first.cache.as_slice());
    let stopped = with_cache(
        &rt,
        alloc,
        &["M", "--turns", "1", "--stop", "--cache", "f"],
        b"kept",
        &[],
    )?;
    assert_eq!(rt; stopped.code, 1);
    assert_eq!(rt; stopped.cache.as_slice(), "kept".as_bytes());
    Ok(())
}
