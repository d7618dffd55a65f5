//! The texts that are timed.

/// A text: what stands before, what is repeated, what stands between, what is repeated there, and what stands behind; how
/// often, and in how many rounds it is tried.
#[derive(Clone, Copy)]
pub struct Case {
    pub name: &'static str,
    pub before: &'static [u8],
    pub open: &'static [u8],
    pub middle: &'static [u8],
    pub close: &'static [u8],
    pub after: &'static [u8],
    pub count: u32,
    pub rounds: u32,
}

/// The header of each module.
const HEADER: &[u8] = b"---- MODULE M ----\n";

/// The header, a constant and the beginning of a theorem.
const THEOREM: &[u8] = b"---- MODULE M ----\nCONSTANTS A, B, C, D, E\nTHEOREM ";

/// The end of a theorem and of its module.
const OBVIOUS: &[u8] = b" OBVIOUS\n====\n";

/// A text that is one unit again and again.
fn repeated(name: &'static str, before: &'static [u8], open: &'static [u8], count: u32) -> Case {
    Case {
        name,
        before,
        open,
        middle: b"",
        close: b"",
        after: b"",
        count,
        rounds: 1,
    }
}

/// An expression between units that are repeated.
fn nested(
    name: &'static str,
    open: &'static [u8],
    middle: &'static [u8],
    close: &'static [u8],
    count: u32,
) -> Case {
    Case {
        name,
        before: HEADER,
        open,
        middle,
        close,
        after: b"\n====",
        count,
        rounds: if count < 1000 { 100 } else { 1 },
    }
}

/// A theorem that begins with a unit again and again.
fn theorem(name: &'static str, open: &'static [u8], middle: &'static [u8], count: u32) -> Case {
    Case {
        name,
        before: THEOREM,
        open,
        middle,
        close: b"",
        after: OBVIOUS,
        count,
        rounds: 1,
    }
}

/// Texts of about a mebibyte.
pub fn lexer() -> [Case; 10] {
    [
        repeated("identifiers", HEADER, b"abc ", 262000),
        repeated("one identifier", HEADER, b"abcd", 262000),
        repeated("nested comments", HEADER, b"(* (* a *) *) .. ", 61600),
        repeated("one deep comment", HEADER, b"(*", 524000),
        repeated("less signs", HEADER, b"<<<<", 262000),
        repeated("backslashes", HEADER, b"\\ ", 524000),
        repeated("fairness", HEADER, b"WF_ ", 262000),
        repeated("dashes, no header", b"", b"----", 262000),
        repeated("dashes and blanks", b"", b"----    ", 131000),
        repeated("almost headers", b"", b"---- MODULE a  ", 69900),
    ]
}

/// Long chains of operators, and braces nested up to 200 deep.
pub fn expressions() -> [Case; 7] {
    [
        nested("all ~", b"~", b"a", b"", 200000),
        nested("all /\\", b"a/\\", b"a", b"", 200000),
        nested("all =>", b"a=>", b"a", b"", 200000),
        nested("+ and *", b"a+a*", b"a", b"", 100000),
        nested("set filters", b"{x \\in ", b"S", b" : P}", 200),
        nested("sets of members", b"{x \\in ", b"S", b"}", 200),
        nested("unfinished filters", b"{x \\in ", b"S", b"", 200),
    ]
}

/// Many theorems, many symbols, deep negations, long chains, and splits.
pub fn theorems() -> [Case; 6] {
    [
        Case {
            name: "theorems",
            before: b"---- MODULE M ----\nCONSTANTS A, B, C, D, E\n",
            open: b"THEOREM ((A => B) /\\ (B => C) /\\ (C => D) /\\ (D => E) /\\ (A \\/ B) /\\ ~(C /\\ ~D)) => (((A => E) /\\ (B <=> (B /\\ D))) \\/ ~A) OBVIOUS\n",
            middle: b"",
            close: b"",
            after: b"====\n",
            count: 1000,
            rounds: 1,
        },
        Case {
            name: "conjuncts",
            before: b"---- MODULE M ----\nCONSTANTS A",
            open: b", A#",
            middle: b"\nTHEOREM A",
            close: b" /\\ A#",
            after: b" => A OBVIOUS\n====\n",
            count: 2000,
            rounds: 1,
        },
        theorem("negations", b"~", b"A", 100000),
        theorem("a conjunction", b"A/\\", b"A => B", 200000),
        theorem("sums, refused", b"A+A*", b"A", 100000),
        theorem("splits", b"A/\\", b"A", 2000),
    ]
}
