//! What the words of the command ask for.

use crate::case::{Case, ran};
use proof_manager::Through;
use std::alloc::Global;
use std::process::Abort;
use std::test::Fail;
use std::thread::Threads;

/// A module whose one theorem takes some turns.
const MODUS: &str =
    "---- MODULE M ----\nCONSTANTS A, B\nTHEOREM T == (A => B) /\\ A => B OBVIOUS\n====\n";

/// Compares runs on that module: the words behind the program's, the exit status, and what is written or said on standard error.
fn compare<R: Abort + Threads + Sync>(
    rt: &R,
    alloc: Global,
    table: &[(&[&str], u8, &str)],
) -> Result<(), Fail> {
    for (number, (words, code, want)) in table.iter().enumerate() {
        let case = Case {
            modules: &[("M", MODUS)],
            words: *words,
            shelf_fails: &[],
            room: 400,
            cache: b"",
            cache_fails: &[],
        };
        let got = ran(rt, alloc, &Through, &case)?;
        let (taken, said) = if *code < 2 { (*want, "") } else { ("", *want) };
        assert_eq!(rt; got.code, *code, "line {number}");
        assert_eq!(rt; got.taken.as_slice(), taken.as_bytes(), "line {number}");
        assert_eq!(rt; got.said.bytes(), said.as_bytes(), "line {number}");
    }
    Ok(())
}

/// The report of the module where its leaf is proved.
const PROVED: &str =
    "module M\ntheorem T 3:1 proved\n  leaf 3:33 proved, 4 turns\n1 theorems, 1 proved\n";

#[test]
fn turns_are_counted_up_to_the_limit(rt: HostRuntime) -> Result<(), Fail> {
    compare(
        &rt,
        rt.alloc(),
        &[
            (&["M"], 0, PROVED),
            (&["M", "--turns", "1000000"], 0, PROVED),
            (&["--turns", "4", "M", "--workers", "1"], 0, PROVED),
            (
                &["M", "--turns", "3"],
                1,
                "module M\ntheorem T 3:1 unproved\n  leaf 3:33 spent, 3 turns\n1 theorems, 0 proved\n",
            ),
            (
                &["M", "--turns", "1"],
                1,
                "module M\ntheorem T 3:1 unproved\n  leaf 3:33 spent, 1 turns\n1 theorems, 0 proved\n",
            ),
            (
                &["M", "--turns", "1", "--stop"],
                1,
                "module M\ntheorem T 3:1 unproved\n  leaf 3:33 spent, 1 turns\n1 theorems, 0 proved, stopped\n",
            ),
            (&["M", "--stop"], 0, PROVED),
        ],
    )
}

#[test]
fn demonstrations_are_reported_by_their_last_line(rt: HostRuntime) -> Result<(), Fail> {
    compare(
        &rt,
        rt.alloc(),
        &[
            (&["M", "--demo", "9"], 0, "9 theorems, 9 proved\n"),
            (&["M", "--demo", "9", "--stop"], 0, "9 theorems, 9 proved\n"),
            (
                &["M", "--demo", "1", "--workers", "64"],
                0,
                "1 theorems, 1 proved\n",
            ),
            (&["M", "--demo", "20"], 1, "20 theorems, 18 proved\n"),
            (
                &["M", "--demo", "20", "--stop", "--workers", "1"],
                1,
                "10 theorems, 9 proved, stopped\n",
            ),
            (
                &["M", "--demo", "20", "--stop", "--workers", "8"],
                1,
                "10 theorems, 9 proved, stopped\n",
            ),
            (
                &["--workers", "64", "--stop", "--demo", "20", "M.tla"],
                1,
                "10 theorems, 9 proved, stopped\n",
            ),
        ],
    )
}

#[test]
fn reports_are_json_where_asked_for(rt: HostRuntime) -> Result<(), Fail> {
    compare(
        &rt,
        rt.alloc(),
        &[
            (
                &["M", "--json"],
                0,
                "{\"modules\":[{\"name\":\"M\",\"theorems\":[{\"column\":1,\"leaves\":[{\"column\":33,\"line\":3,\"turns\":4,\"verdict\":\"proved\"}],\"line\":3,\"name\":\"T\",\"status\":\"proved\"}]}],\"proved\":1,\"theorems\":1}\n",
            ),
            (
                &["--json", "M", "--turns", "1", "--stop"],
                1,
                "{\"modules\":[{\"name\":\"M\",\"theorems\":[{\"column\":1,\"leaves\":[{\"column\":33,\"line\":3,\"turns\":1,\"verdict\":\"spent\"}],\"line\":3,\"name\":\"T\",\"status\":\"unproved\"}]}],\"proved\":0,\"stopped\":true,\"theorems\":1}\n",
            ),
            (
                &["M", "--demo", "20", "--json"],
                1,
                "{\"proved\":18,\"theorems\":20}\n",
            ),
            (
                &["M", "--json", "--demo", "20", "--stop"],
                1,
                "{\"proved\":9,\"stopped\":true,\"theorems\":10}\n",
            ),
        ],
    )
}

#[test]
fn other_words_are_unlawful(rt: HostRuntime) -> Result<(), Fail> {
    compare(
        &rt,
        rt.alloc(),
        &[
            (&["M", "--turns", "0"], 2, "words"),
            (&["M", "--turns", "1000001"], 2, "words"),
            (&["M", "--turns"], 2, "words"),
            (&["M", "--workers", "0"], 2, "words"),
            (&["M", "--workers", "65"], 2, "words"),
            (&["M", "--demo", "0"], 2, "words"),
            (&["M", "--demo", "1001"], 2, "words"),
            (&["M", "--demo", "nine"], 2, "words"),
            (&["M", "--stop", "yes"], 2, "words"),
            (&["M", "--json", "--json"], 2, "words"),
            (&["M", "--json=yes"], 2, "words"),
            (&["M", "--help"], 2, "words"),
            (&["M", "N"], 2, "words"),
            (&["--demo", "9"], 2, "words"),
        ],
    )
}
