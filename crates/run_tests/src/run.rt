//! The top call over devices in memory.

use crate::case::{Case, ran};
use core_expr::Text;
use proof_manager::{Through, run};
use std::alloc::Global;
use std::process::Abort;
use std::test::Fail;
use std::thread::Threads;
use tla_io::{MemCache, MemShelf, MemSink};

const IMPLIES_ITSELF: &str = "---- MODULE M ----\nCONSTANT A\nTHEOREM T == A => A OBVIOUS\n====\n";

const THREE: &str =
    "---- MODULE M ----\nCONSTANTS A, B, C\nTHEOREM T == C => A \\/ C OBVIOUS\nTHEOREM U == C /\\ A => B OBVIOUS\n  THEOREM FALSE OBVIOUS\n====";

/// What a run on these modules, of which M is the root, writes or says on standard error, with its status.
fn compare_modules<R: Abort + Threads + Sync>(
    rt: &R,
    alloc: Global,
    what: &str,
    modules: &[(&str, &str)],
    code: u8,
    want: &str,
) -> Result<(), Fail> {
    let case = Case {
        modules,
        words: &["M"],
        shelf_fails: &[],
        room: 400,
        cache: b"",
        cache_fails: &[],
    };
    let got = ran(rt, alloc, &Through, &case)?;
    let (taken, said) = if code < 2 { (want, "") } else { ("", want) };
    assert_eq!(rt; got.code, code, "{what}");
    assert_eq!(rt; got.taken.as_slice(), taken.as_bytes(), "{what}");
    assert_eq!(rt; got.said.bytes(), said.as_bytes(), "{what}");
    Ok(())
}

/// The same of texts under the name M.
fn compare<R: Abort + Threads + Sync>(
    rt: &R,
    alloc: Global,
    table: &[(&str, &str, u8, &str)],
) -> Result<(), Fail> {
    for (what, text, code, want) in table {
        compare_modules(rt, alloc, what, &[("M", *text)], *code, want)?;
    }
    Ok(())
}

#[test]
fn each_report_is_of_all_theorems(rt: HostRuntime) -> Result<(), Fail> {
    compare(
        &rt,
        rt.alloc(),
        &[
            (
                "a formula implies itself",
                IMPLIES_ITSELF,
                0,
                "module M\ntheorem T 3:1 proved\n  leaf 3:21 proved, 2 turns\n1 theorems, 1 proved\n",
            ),
            (
                "an equation that is not given",
                "---- MODULE M ----\nCONSTANTS A, B\nTHEOREM A /\\ B => A OBVIOUS\nTHEOREM A = B OBVIOUS\n====",
                1,
                "module M\ntheorem - 3:1 proved\n  leaf 3:21 proved, 3 turns\ntheorem - 4:1 unproved\n  leaf 4:15 saturated, 0 turns\n2 theorems, 1 proved\n",
            ),
            (
                "union twice",
                "---- MODULE M ----\nCONSTANTS a, b, c\nTHEOREM a \\cup b \\cup c = a OBVIOUS\n====",
                1,
                "module M\ntheorem - 3:1 unproved\n  leaf 3:29 saturated, 6 turns\n1 theorems, 0 proved\n",
            ),
            (
                "a set with an element",
                "---- MODULE M ----\nCONSTANTS A, S\nTHEOREM T == A => A OBVIOUS\nTHEOREM U == \\E y : y \\in S\n<1> SUFFICES A OBVIOUS\n<1> QED OBVIOUS\n====",
                1,
                "module M\ntheorem T 3:1 proved\n  leaf 3:21 proved, 2 turns\ntheorem U 4:1 unproved\n  leaf 5:16 saturated, 1 turns\n  leaf 6:9 saturated, 0 turns: A = FALSE\n2 theorems, 1 proved\n",
            ),
            (
                "no units",
                "---- MODULE M ----\n====",
                0,
                "module M\n0 theorems, 0 proved\n",
            ),
            (
                "implication is transitive",
                "---- MODULE M ----\nCONSTANTS A, B, C\nTHEOREM T == (A => B) /\\ (B => C) => (A => C) OBVIOUS\n====",
                0,
                "module M\ntheorem T 3:1 proved\n  leaf 3:47 proved, 6 turns\n1 theorems, 1 proved\n",
            ),
            (
                "an unproved theorem has a valuation",
                "---- MODULE M ----\nCONSTANTS A, B, C\nTHEOREM T == A /\\ B => C OBVIOUS\n====",
                1,
                "module M\ntheorem T 3:1 unproved\n  leaf 3:26 saturated, 2 turns: A = TRUE, B = TRUE, C = FALSE\n1 theorems, 0 proved\n",
            ),
            (
                "a list of conjuncts",
                "---- MODULE M ----\nCONSTANTS A, B, C\nTHEOREM T ==\n  /\\ A\n  /\\ B \\/ C\n  OBVIOUS\n====",
                1,
                "module M\ntheorem T 3:1 unproved\n  leaf 6:3 saturated, 1 turns: A = FALSE, B = FALSE, C = FALSE\n1 theorems, 0 proved\n",
            ),
            (
                "a variable and its prime",
                "---- MODULE M ----\nVARIABLE x\nTHEOREM x' => x OBVIOUS\n====",
                1,
                "module M\ntheorem - 3:1 unproved\n  leaf 3:17 saturated, 1 turns: x' = TRUE, x = FALSE\n1 theorems, 0 proved\n",
            ),
            (
                "a proved theorem, one with a valuation and one without a name and without symbols",
                THREE,
                1,
                "module M\ntheorem T 3:1 proved\n  leaf 3:26 proved, 3 turns\ntheorem U 4:1 unproved\n  leaf 4:26 saturated, 2 turns: C = TRUE, A = TRUE, B = FALSE\ntheorem - 5:3 unproved\n  leaf 5:17 saturated, 0 turns: \n3 theorems, 1 proved\n",
            ),
        ],
    )
}

#[test]
fn each_refusal_has_its_place_and_kind(rt: HostRuntime) -> Result<(), Fail> {
    compare(
        &rt,
        rt.alloc(),
        &[
            ("no header", "hello", 3, "refused M 1:1 NoModule"),
            ("no bytes", "", 3, "refused M 1:1 NoModule"),
            (
                "implication does not associate",
                "---- MODULE M ----\nCONSTANTS A, B\nTHEOREM A => B => A OBVIOUS\n====",
                3,
                "refused M 3:16 Precedence",
            ),
            (
                "a conjunct beside its list",
                "---- MODULE M ----\nCONSTANTS A, B, C\nTHEOREM T ==\n  /\\ A\n /\\ B \\/ C\n  OBVIOUS\n====",
                3,
                "refused M 5:7 Precedence",
            ),
            (
                "union and intersection",
                "---- MODULE M ----\nCONSTANTS a, b, c\nTHEOREM a \\cup b \\cap c = a OBVIOUS\n====",
                3,
                "refused M 3:18 Precedence",
            ),
            (
                "a name that is not declared",
                "---- MODULE M ----\nTHEOREM A => A OBVIOUS\n====",
                3,
                "refused M 2:9 Unknown A",
            ),
            (
                "a number that is too large",
                "---- MODULE M ----\nTHEOREM T == 340282366920938463463374607431768211456 = 1 OBVIOUS\n====",
                3,
                "refused M 2:14 NumberTooLarge",
            ),
        ],
    )
}

#[test]
fn extended_modules_are_answered(rt: HostRuntime) -> Result<(), Fail> {
    let root = "---- MODULE M ----\nEXTENDS A\nTHEOREM T == a => b OBVIOUS\n====";
    let middle = "---- MODULE A ----\nEXTENDS B\nCONSTANT a\nTHEOREM b => b OBVIOUS\n====";
    let last = "---- MODULE B ----\nCONSTANT b\n====";
    compare_modules(
        &rt,
        rt.alloc(),
        "a chain of modules",
        &[("M", root), ("A", middle), ("B", last)],
        1,
        "module B\nmodule A\ntheorem - 4:1 proved\n  leaf 4:16 proved, 2 turns\nmodule M\ntheorem T 3:1 unproved\n  leaf 3:21 saturated, 1 turns: a = TRUE, b = FALSE\n2 theorems, 1 proved\n",
    )?;
    compare_modules(
        &rt,
        rt.alloc(),
        "an assumption of an extended module",
        &[
            ("M", root),
            ("A", middle),
            ("B", "---- MODULE B ----\nCONSTANT b\nASSUME b\n===="),
        ],
        0,
        "module B\nmodule A\ntheorem - 4:1 proved\n  leaf 4:16 proved, 2 turns\nmodule M\ntheorem T 3:1 proved\n  leaf 3:21 proved, 2 turns\n2 theorems, 2 proved\n",
    )?;
    compare_modules(
        &rt,
        rt.alloc(),
        "what a module that is not extended assumes",
        &[
            (
                "M",
                "---- MODULE M ----\nEXTENDS A, B\nTHEOREM U == C OBVIOUS\n====",
            ),
            ("A", "---- MODULE A ----\nASSUME FALSE\n===="),
            (
                "B",
                "---- MODULE B ----\nCONSTANT C\nTHEOREM T == C OBVIOUS\n====",
            ),
        ],
        1,
        "module A\nmodule B\ntheorem T 3:1 unproved\n  leaf 3:16 saturated, 0 turns: C = FALSE\nmodule M\ntheorem U 3:1 proved\n  leaf 3:16 proved, 1 turns\n2 theorems, 1 proved\n",
    )
}

#[test]
fn proofs_by_steps_give_their_leaves(rt: HostRuntime) -> Result<(), Fail> {
    compare(
        &rt,
        rt.alloc(),
        &[
            (
                "cases, with a label and without",
                "---- MODULE M ----\nCONSTANTS A, B\nTHEOREM T == ASSUME A => B PROVE B\n<1>1. CASE A OBVIOUS\n<1>2. CASE A BY <1>2\n<1> CASE A OBVIOUS\n<1> QED OBVIOUS\n====",
                1,
                "module M\ntheorem T 3:1 unproved\n  leaf 4:14 saturated, 1 turns: A = FALSE, B = FALSE\n  leaf 5:14 proved, 2 turns\n  leaf 6:12 proved, 2 turns\n  leaf 7:9 saturated, 1 turns: A = FALSE, B = FALSE\n1 theorems, 0 proved\n",
            ),
            (
                "a theorem that is omitted, and one that cites it",
                "---- MODULE M ----\nCONSTANT A\nTHEOREM T1 == A => A OMITTED\nTHEOREM T2 == A => A BY T1\n====",
                1,
                "module M\ntheorem T1 3:1 omitted\n  leaf 3:22 omitted\ntheorem T2 4:1 conditional T1\n  leaf 4:22 proved, 1 turns\n2 theorems, 0 proved\n",
            ),
            (
                "a proof that is missing",
                "---- MODULE M ----\nCONSTANT A\nTHEOREM T3 == A\n====",
                1,
                "module M\ntheorem T3 3:1 missing\n  leaf 3:1 missing\n1 theorems, 0 proved\n",
            ),
            (
                "HAVE of a goal that is no implication",
                "---- MODULE M ----\nCONSTANT A\nTHEOREM T == A\n<1> HAVE A\n<1> QED OBVIOUS\n====",
                1,
                "module M\ntheorem T 3:1 unproved\n  leaf 4:1 shape\n1 theorems, 0 proved\n",
            ),
            (
                "HAVE takes an implication apart",
                "---- MODULE M ----\nCONSTANT A\nTHEOREM T == (A => A)\n<1> HAVE A\n<1> QED OBVIOUS\n====",
                0,
                "module M\ntheorem T 3:1 proved\n  leaf 4:1 proved, 2 turns\n  leaf 5:9 proved, 1 turns\n1 theorems, 1 proved\n",
            ),
            (
                "what a subproof knows and uses ends with it",
                "---- MODULE M ----\nCONSTANTS A, B\nASSUME AB == A => B\nASSUME AA == A\nTHEOREM T == B\n<1>1. A\n  <2>1. A BY AA\n  <2>2. USE AA, AB\n  <2> QED BY <2>1\n<1>2. B OBVIOUS\n<1> QED BY AB, AA\n====",
                1,
                "module M\ntheorem T 5:1 unproved\n  leaf 7:11 proved, 1 turns\n  leaf 9:11 proved, 1 turns\n  leaf 10:9 saturated, 0 turns: B = FALSE\n  leaf 11:9 proved, 2 turns\n1 theorems, 0 proved\n",
            ),
            (
                "a temporal goal",
                "---- MODULE M ----\nVARIABLE x\nTHEOREM []x => []x OBVIOUS\n====",
                1,
                "module M\ntheorem - 3:1 temporal\n  leaf 3:20 temporal\n1 theorems, 0 proved\n",
            ),
            (
                "a step of its own use",
                "---- MODULE M ----\nCONSTANT A\nTHEOREM T == A\n<1>1. A BY <1>2\n<1>2. A OBVIOUS\n<1> QED OBVIOUS\n====",
                3,
                "refused M 4:12 StepOutOfScope",
            ),
            (
                "a step that is not there",
                "---- MODULE M ----\nCONSTANT A\nTHEOREM T == A\n<1>1. A BY <1>3\n<1> QED OBVIOUS\n====",
                3,
                "refused M 4:12 UnknownStep",
            ),
        ],
    )
}

/// A theorem in so many parentheses.
fn in_parentheses(alloc: Global, count: u32) -> Result<String, Fail> {
    let mut text = String::from_str(alloc, "---- MODULE M ----\nCONSTANT A\nTHEOREM ")?;
    for _ in 0..count {
        text.push_str("(")?;
    }
    text.push_str("A")?;
    for _ in 0..count {
        text.push_str(")")?;
    }
    text.push_str(" OBVIOUS\n====\n")?;
    Ok(text)
}

#[test]
fn two_hundred_parentheses_are_read(rt: HostRuntime) -> Result<(), Fail> {
    let read = in_parentheses(rt.alloc(), 200)?;
    let refused = in_parentheses(rt.alloc(), 201)?;
    compare(
        &rt,
        rt.alloc(),
        &[
            (
                "200 deep",
                read.as_str(),
                1,
                "module M\ntheorem - 3:1 unproved\n  leaf 3:411 saturated, 0 turns: A = FALSE\n1 theorems, 0 proved\n",
            ),
            ("201 deep", refused.as_str(), 3, "refused M 3:209 TooDeep"),
        ],
    )
}

#[test]
fn devices_and_words_decide(rt: HostRuntime) -> Result<(), Fail> {
    let table: [(&str, &[u64], u64, u8, &[u8], &[u8]); 6] = [
        ("M.tla", &[], 10, 7, b"module M\nt", b"write fault"),
        ("N", &[], 200, 4, b"", b"not found N"),
        ("M", &[0], 200, 5, b"", b"read fault"),
        ("M.tla.tla", &[], 200, 2, b"", b"words"),
        ("MODULE", &[], 200, 2, b"", b"words"),
        ("", &[], 200, 2, b"", b"words"),
    ];
    for (word, shelf_fails, room, code, taken, text) in &table {
        let case = Case {
            modules: &[("M", IMPLIES_ITSELF)],
            words: &[*word],
            shelf_fails: *shelf_fails,
            room: *room,
            cache: b"",
            cache_fails: &[],
        };
        let got = ran(&rt, rt.alloc(), &Through, &case)?;
        assert_eq!(rt; got.code, *code, "{word}");
        assert_eq!(rt; got.taken.as_slice(), *taken, "{word}");
        assert_eq!(rt; got.said.bytes(), *text, "{word}");
    }
    Ok(())
}

#[test]
fn other_numbers_of_words_are_unlawful(rt: HostRuntime) -> Result<(), Fail> {
    let alloc = rt.alloc();
    let mut words = Vec::new(alloc);
    for _ in 0..4u8 {
        if words.len() != 2 {
            let mut shelf = MemShelf::new(Vec::new(alloc), Vec::new(alloc));
            let mut cache = MemCache::new(Text::of(alloc, b"f")?, Vec::new(alloc), Vec::new(alloc));
            let mut sink = MemSink::new(alloc, 10, 10, Vec::new(alloc))?;
            let status = run(
                &rt, alloc, &words, &mut shelf, &mut cache, &mut sink, &Through,
            );
            assert_eq!(rt; status.code(), 2);
        }
        words.push(String::from_str(alloc, "M")?)?;
    }
    Ok(())
}
