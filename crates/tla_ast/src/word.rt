//! Words of the language: reserved words and identifiers.

ghost use Rattle.std.specs.Prelude.{◌≡◌, ◌≤◌, IsTrue, length, map};
ghost use Rattle.std.specs.List.{list_all, list_any};
ghost use Rattle.std.specs.Char.{is_ascii_alphabetic};
ghost use Rattle.tla_ast.specs.Word as spec;

/// The reserved words.
const RESERVED: [&[u8]; 57] = [
    b"ACTION",
    b"ASSUME",
    b"ASSUMPTION",
    b"AXIOM",
    b"BOOLEAN",
    b"BY",
    b"CASE",
    b"CHOOSE",
    b"CONSTANT",
    b"CONSTANTS",
    b"COROLLARY",
    b"DEF",
    b"DEFINE",
    b"DEFS",
    b"DOMAIN",
    b"ELSE",
    b"ENABLED",
    b"EXCEPT",
    b"EXTENDS",
    b"FALSE",
    b"HAVE",
    b"HIDE",
    b"IF",
    b"IN",
    b"INSTANCE",
    b"LAMBDA",
    b"LEMMA",
    b"LET",
    b"LOCAL",
    b"MODULE",
    b"NEW",
    b"OBVIOUS",
    b"OMITTED",
    b"ONLY",
    b"OTHER",
    b"PICK",
    b"PROOF",
    b"PROPOSITION",
    b"PROVE",
    b"QED",
    b"RECURSIVE",
    b"STATE",
    b"STRING",
    b"SUBSET",
    b"SUFFICES",
    b"TAKE",
    b"TEMPORAL",
    b"THEN",
    b"THEOREM",
    b"TRUE",
    b"UNCHANGED",
    b"UNION",
    b"USE",
    b"VARIABLE",
    b"VARIABLES",
    b"WITH",
    b"WITNESS",
];

/// Whether a byte may stand in a word: a letter, a digit or `_`.
pub fn is_word_byte(byte: u8) -> bool
    ensures { result ≡ spec.is_word_byte byte }
{
    byte.is_ascii_alphanumeric() || byte == b'_'
}

/// Whether this text is one of a list of texts.
pub fn is_among(table: &[&[u8]], text: &[u8]) -> bool
    ensures { result ≡ spec.is_among (map (λ s. s.now) table.now) text.now }
{
    for entry in table {
        if *entry == text {
            return true;
        }
    }
    false
}

/// Whether a text is a reserved word of the language.
pub fn is_reserved(word: &[u8]) -> bool
    ensures { result ≡ spec.is_reserved word.now }
{
    is_among(&RESERVED, word)
}

/// Whether a text begins with `WF_` or `SF_`, which are signs of fairness wherever a word begins with them.
pub fn begins_with_fairness(text: &[u8]) -> bool
    ensures value { result ≡ spec.begins_with_fairness text.now }
    ensures within { IsTrue result → 3 ≤ length text.now }
{
    text.starts_with(b"WF_") || text.starts_with(b"SF_")
}

/// Whether a text has only letters, digits and `_`.
fn is_run(text: &[u8]) -> bool
    ensures { result ≡ list_all spec.is_word_byte text.now }
{
    text.iter().all(|byte| is_word_byte(*byte))
}

/// Whether a text has a letter.
pub fn has_letter(text: &[u8]) -> bool
    ensures { result ≡ list_any is_ascii_alphabetic text.now }
{
    text.iter().any(|byte| byte.is_ascii_alphabetic())
}

/// Whether a text is an identifier: letters, digits and `_`, with a letter, no reserved word, and not beginning with `WF_`
/// or `SF_`.
pub fn is_identifier(text: &[u8]) -> bool
    ensures { result ≡ spec.is_identifier text.now }
{
    is_run(text) && has_letter(text) && !is_reserved(text) && !begins_with_fairness(text)
}
