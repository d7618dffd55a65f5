//! The tokens of a text, as tables: their kinds and places, headers, and the first fault.

use sqlite_items::Items;
use std::alloc::Global;
use tla_ast::{LexFault, Tok, Token};
use tla_lexer::lex;

/// A token that a case wants.
#[derive(Clone, Copy, Debug)]
enum Want {
    Word(&'static [u8]),
    Number(u128),
    Str(&'static [u8]),
    Step(u128, &'static [u8]),
    Sign(&'static [u8]),
    Rule,
    End,
    Eof,
}

fn is_wanted(tok: &Tok, want: &Want) -> bool {
    match (tok, want) {
        (Tok::Word(text), Want::Word(bytes)) => text.bytes() == *bytes,
        (Tok::Number(value), Want::Number(number)) => *value == *number,
        (Tok::Str(text), Want::Str(bytes)) => text.bytes() == *bytes,
        (Tok::Step { level, label }, Want::Step(number, bytes)) => {
            *level == *number && label.bytes() == *bytes
        }
        (Tok::Sign(text), Want::Sign(bytes)) => text.bytes() == *bytes,
        (Tok::Rule, Want::Rule) => true,
        (Tok::End, Want::End) => true,
        (Tok::Eof, Want::Eof) => true,
        _ => false,
    }
}

/// Whether these are the tokens with these places.
fn are_wanted(list: &[Token], wants: &[(Want, u64, u64)]) -> bool {
    if list.len() != wants.len() {
        return false;
    }
    for (token, want) in list.iter().zip(wants) {
        if !is_wanted(&token.tok, &want.0)
            || token.place.line != want.1
            || token.place.column != want.2
        {
            return false;
        }
    }
    true
}

/// Whether a text that begins with a header has these tokens.
fn reads(alloc: Global, text: &[u8], wants: &[(Want, u64, u64)]) -> bool {
    match lex(alloc, text) {
        Ok(tokens) => are_wanted(tokens.list.as_slice(), wants),
        Err(_) => false,
    }
}

/// Whether a text has this name and this place in its header.
fn is_headed(alloc: Global, text: &[u8], name: &[u8], line: u64, column: u64) -> bool {
    match lex(alloc, text) {
        Ok(tokens) => {
            tokens.name.bytes() == name
                && tokens.header.line == line
                && tokens.header.column == column
        }
        Err(_) => false,
    }
}

/// Whether a text has this fault at this place.
fn is_refused(alloc: Global, text: &[u8], kind: &[u8], line: u64, column: u64) -> bool {
    match lex(alloc, text) {
        Err(LexFault::At { place, kind: found }) => {
            found.name() == kind && place.line == line && place.column == column
        }
        _ => false,
    }
}

const READ: [(&[u8], &[(Want, u64, u64)]); 17] = [
    (
        b"----MODULE M----a _b 1a 12 _ a_1",
        &[
            (Want::Word(b"a"), 1, 17),
            (Want::Word(b"_b"), 1, 19),
            (Want::Word(b"1a"), 1, 22),
            (Want::Number(12), 1, 25),
            (Want::Sign(b"_"), 1, 28),
            (Want::Word(b"a_1"), 1, 30),
            (Want::Eof, 1, 33),
        ],
    ),
    (
        b"----MODULE M----WF_x SF_ WF_SF_1",
        &[
            (Want::Sign(b"WF_"), 1, 17),
            (Want::Word(b"x"), 1, 20),
            (Want::Sign(b"SF_"), 1, 22),
            (Want::Sign(b"WF_"), 1, 26),
            (Want::Sign(b"SF_"), 1, 29),
            (Want::Number(1), 1, 32),
            (Want::Eof, 1, 33),
        ],
    ),
    (
        b"----MODULE M----\n340282366920938463463374607431768211455",
        &[
            (Want::Number(340282366920938463463374607431768211455), 2, 1),
            (Want::Eof, 2, 40),
        ],
    ),
    (
        b"----MODULE M----\n\"a\\\"\\\\\\t\\n\\f\\r~\" \"\"",
        &[
            (Want::Str(b"a\"\\\t\n\x0c\r~"), 2, 1),
            (Want::Str(b""), 2, 18),
            (Want::Eof, 2, 20),
        ],
    ),
    (
        b"----MODULE M----\n<1>2a_. <12>..x <3> <4>WF_x",
        &[
            (Want::Step(1, b"2a_"), 2, 1),
            (Want::Step(12, b""), 2, 9),
            (Want::Word(b"x"), 2, 15),
            (Want::Step(3, b""), 2, 17),
            (Want::Step(4, b"WF_x"), 2, 21),
            (Want::Eof, 2, 28),
        ],
    ),
    (
        b"----MODULE M----\n<<1>2 <1 > <>",
        &[
            (Want::Sign(b"<<"), 2, 1),
            (Want::Number(1), 2, 3),
            (Want::Sign(b">"), 2, 4),
            (Want::Number(2), 2, 5),
            (Want::Sign(b"<"), 2, 7),
            (Want::Number(1), 2, 8),
            (Want::Sign(b">"), 2, 10),
            (Want::Sign(b"<>"), 2, 12),
            (Want::Eof, 2, 14),
        ],
    ),
    (
        b"----MODULE M----\na \\* (* \xff\n b (* x (* \\* *) \xff\x00\n*)c(*)*)d",
        &[
            (Want::Word(b"a"), 2, 1),
            (Want::Word(b"b"), 3, 2),
            (Want::Word(b"c"), 4, 3),
            (Want::Word(b"d"), 4, 9),
            (Want::Eof, 4, 10),
        ],
    ),
    (
        b"----MODULE M----\n\ta\tb 12345\tc\r\td",
        &[
            (Want::Word(b"a"), 2, 9),
            (Want::Word(b"b"), 2, 17),
            (Want::Number(12345), 2, 19),
            (Want::Word(b"c"), 2, 25),
            (Want::Word(b"d"), 2, 33),
            (Want::Eof, 2, 34),
        ],
    ),
    (
        b"----MODULE M----\n\\in \\in1 \\inn \\land \\lor \\lnot \\neg",
        &[
            (Want::Sign(b"\\in"), 2, 1),
            (Want::Sign(b"\\"), 2, 5),
            (Want::Word(b"in1"), 2, 6),
            (Want::Sign(b"\\"), 2, 10),
            (Want::Word(b"inn"), 2, 11),
            (Want::Sign(b"/\\"), 2, 15),
            (Want::Sign(b"\\/"), 2, 21),
            (Want::Sign(b"~"), 2, 26),
            (Want::Sign(b"~"), 2, 32),
            (Want::Eof, 2, 36),
        ],
    ),
    (
        b"----MODULE M----\n\\equiv\\union\\intersect\\leq\\geq/==<<=",
        &[
            (Want::Sign(b"<=>"), 2, 1),
            (Want::Sign(b"\\cup"), 2, 7),
            (Want::Sign(b"\\cap"), 2, 13),
            (Want::Sign(b"<="), 2, 23),
            (Want::Sign(b">="), 2, 27),
            (Want::Sign(b"#"), 2, 31),
            (Want::Sign(b"<="), 2, 33),
            (Want::Sign(b"<="), 2, 35),
            (Want::Eof, 2, 37),
        ],
    ),
    (
        b"----MODULE M----\n\\AA \\X (\\X) \\sqsupseteq (-) <*> -+-> ::=",
        &[
            (Want::Sign(b"\\AA"), 2, 1),
            (Want::Sign(b"\\X"), 2, 5),
            (Want::Sign(b"(\\X)"), 2, 8),
            (Want::Sign(b"\\sqsupseteq"), 2, 13),
            (Want::Sign(b"(-)"), 2, 25),
            (Want::Sign(b"<*>"), 2, 29),
            (Want::Sign(b"-+->"), 2, 33),
            (Want::Sign(b"::="), 2, 38),
            (Want::Eof, 2, 41),
        ],
    ),
    (
        b"----MODULE M----\n<=><=<< |->->>_]_...../\\\\/",
        &[
            (Want::Sign(b"<=>"), 2, 1),
            (Want::Sign(b"<="), 2, 4),
            (Want::Sign(b"<<"), 2, 6),
            (Want::Sign(b"|->"), 2, 9),
            (Want::Sign(b"->"), 2, 12),
            (Want::Sign(b">"), 2, 14),
            (Want::Sign(b"_"), 2, 15),
            (Want::Sign(b"]_"), 2, 16),
            (Want::Sign(b"..."), 2, 18),
            (Want::Sign(b".."), 2, 21),
            (Want::Sign(b"/\\"), 2, 23),
            (Want::Sign(b"\\/"), 2, 25),
            (Want::Eof, 2, 27),
        ],
    ),
    (
        b"----MODULE M----\n--- -----a ===b",
        &[
            (Want::Sign(b"--"), 2, 1),
            (Want::Sign(b"-"), 2, 3),
            (Want::Rule, 2, 5),
            (Want::Word(b"a"), 2, 10),
            (Want::Sign(b"=="), 2, 12),
            (Want::Sign(b"="), 2, 14),
            (Want::Word(b"b"), 2, 15),
            (Want::Eof, 2, 16),
        ],
    ),
    (
        b"----MODULE M----\na====== \xff (* \" _1",
        &[(Want::Word(b"a"), 2, 1), (Want::End, 2, 2)],
    ),
    (
        b"----MODULE M----\nMODULE IF",
        &[
            (Want::Word(b"MODULE"), 2, 1),
            (Want::Word(b"IF"), 2, 8),
            (Want::Eof, 2, 10),
        ],
    ),
    (
        b"----MODULE M----\n[][A]_v <<A>>_v",
        &[
            (Want::Sign(b"[]"), 2, 1),
            (Want::Sign(b"["), 2, 3),
            (Want::Word(b"A"), 2, 4),
            (Want::Sign(b"]_"), 2, 5),
            (Want::Word(b"v"), 2, 7),
            (Want::Sign(b"<<"), 2, 9),
            (Want::Word(b"A"), 2, 11),
            (Want::Sign(b">>_"), 2, 12),
            (Want::Word(b"v"), 2, 15),
            (Want::Eof, 2, 16),
        ],
    ),
    (b"----MODULE M----", &[(Want::Eof, 1, 17)]),
];

#[test]
fn tokens_and_their_places(rt: HostRuntime) {
    for (text, wants) in READ.iter() {
        assert!(rt; reads(rt.alloc(), text, wants), "{text:?}");
    }
}

const HEADED: [(&[u8], &[u8], u64, u64); 7] = [
    (b"---- MODULE M ----", b"M", 1, 1),
    (b"x\n\t------MODULE\t 1a-----", b"1a", 2, 9),
    (b"\\* ---- MODULE A ----\n---- MODULE B ----", b"A", 1, 4),
    (
        b"--- MODULE A ----\n---- MODULE IF ---- MODULE B ----",
        b"B",
        2,
        16,
    ),
    (
        b"---- MODULE WF_a ----\n----  MODULE  _b  ----",
        b"_b",
        2,
        1,
    ),
    (
        b"---- MODULE A ---\n---- MODULEA ----\n---- MODULE C ----",
        b"C",
        3,
        1,
    ),
    (b"---- MODULE A B ----\n-------- MODULE D ----", b"D", 2, 1),
];

#[test]
fn the_leftmost_header(rt: HostRuntime) {
    for (text, name, line, column) in HEADED.iter() {
        assert!(rt;
            is_headed(rt.alloc(), text, name, *line, *column),
            "{text:?}"
        );
    }
}

const REFUSED: [(&[u8], &[u8], u64, u64); 21] = [
    (b"", b"NoModule", 1, 1),
    (b"---- MODULE _ ----", b"NoModule", 1, 1),
    (b"---- MODULE A.B ---- \xff", b"NoModule", 1, 1),
    (b"----MODULE M----\n a \xff \xfe", b"BadByte", 2, 4),
    (b"----MODULE M----\n\x0c", b"BadByte", 2, 1),
    (b"----MODULE M----\na _1", b"BadByte", 2, 3),
    (b"----MODULE M----\n1_", b"BadByte", 2, 1),
    (b"----MODULE M----\n__", b"BadByte", 2, 1),
    (b"----MODULE M----\n `", b"BadByte", 2, 2),
    (b"----MODULE M----\n \"a\tb\"", b"BadByte", 2, 4),
    (b"----MODULE M----\n \"a\\q\"", b"BadByte", 2, 5),
    (b"----MODULE M----\n \"a\x7f", b"BadByte", 2, 4),
    (b"----MODULE M----\n \"a\n\"", b"OpenString", 2, 2),
    (b"----MODULE M----\n \"a\\\n\"", b"OpenString", 2, 2),
    (b"----MODULE M----\n \"a\\", b"OpenString", 2, 2),
    (b"----MODULE M----\n a (* (* *) \xff", b"OpenComment", 2, 4),
    (b"----MODULE M----\n (*)", b"OpenComment", 2, 2),
    (
        b"----MODULE M----\n\t340282366920938463463374607431768211456",
        b"NumberTooLarge",
        2,
        9,
    ),
    (
        b"----MODULE M----\n <340282366920938463463374607431768211456>a",
        b"NumberTooLarge",
        2,
        2,
    ),
    (
        b"----MODULE M----\n _1 340282366920938463463374607431768211456 (*",
        b"BadByte",
        2,
        2,
    ),
    (
        b"----MODULE M----\n 999999999999999999999999999999999999999999 _1",
        b"NumberTooLarge",
        2,
        2,
    ),
];

#[test]
fn faults_and_their_places(rt: HostRuntime) {
    for (text, kind, line, column) in REFUSED.iter() {
        assert!(rt;
            is_refused(rt.alloc(), text, kind, *line, *column),
            "{text:?}"
        );
    }
}

/// So many bytes of one value behind a header.
fn filled(alloc: Global, byte: u8, count: usize) -> Result<Items<u8>, LexFault> {
    let mut text = Items::from_slice(alloc, b"----MODULE M----\n")?;
    for _ in 0..count {
        text.push(byte)?;
    }
    Ok(text)
}

#[test]
fn a_module_of_the_greatest_length(rt: HostRuntime) {
    let whole = filled(rt.alloc(), b'\n', 1048559);
    let read = match whole {
        Ok(text) => reads(rt.alloc(), text.as_slice(), &[(Want::Eof, 1048561, 1)]),
        Err(_) => false,
    };
    assert!(rt; read);
    let longer = filled(rt.alloc(), b'\n', 1048560);
    let refused = match longer {
        Ok(text) => is_refused(rt.alloc(), text.as_slice(), b"TooLong", 1, 1),
        Err(_) => false,
    };
    assert!(rt; refused);
}
