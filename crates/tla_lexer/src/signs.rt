//! The signs and the words after a backslash.

ghost use Rattle.std.specs.Prelude.{◌≡◌, ◌≤◌, [], length, map};
ghost use Rattle.tla_lexer.specs.Signs as spec;

use tla_ast::is_among;

/// The signs of the language, and then those that every reader refuses.
const SIGNS: [&[u8]; 82] = [
    b"(", b")", b"[", b"]", b"{", b"}", b"<<", b">>", b",", b":", b"==", b"=", b"#", b"/=", b"<",
    b">", b"<=", b"=<", b">=", b"=>", b"<=>", b"~>", b"/\\", b"\\/", b"~", b"'", b"!", b".", b"..",
    b"+", b"-", b"*", b"\\", b"|->", b"->", b"@", b"[]", b"<>", b"]_", b">>_", b"++", b"--", b"**",
    b"/", b"//", b"^", b"^^", b"^+", b"^*", b"^#", b"%", b"%%", b"&", b"&&", b"|", b"||", b"$",
    b"$$", b"?", b"??", b"##", b"!!", b"...", b"|-", b"-|", b"|=", b"=|", b":>", b"<:", b"@@",
    b":=", b"::=", b"::", b"<-", b"-+->", b"(+)", b"(-)", b"(.)", b"(/)", b"(\\X)", b"<*>", b"<+>",
];

/// The words after a backslash, with it; and then those that every reader refuses.
const WORDS: [&[u8]; 56] = [
    b"\\A",
    b"\\E",
    b"\\in",
    b"\\notin",
    b"\\subseteq",
    b"\\cup",
    b"\\union",
    b"\\cap",
    b"\\intersect",
    b"\\land",
    b"\\lor",
    b"\\lnot",
    b"\\neg",
    b"\\equiv",
    b"\\leq",
    b"\\geq",
    b"\\X",
    b"\\times",
    b"\\o",
    b"\\circ",
    b"\\div",
    b"\\cdot",
    b"\\prec",
    b"\\preceq",
    b"\\succ",
    b"\\succeq",
    b"\\ll",
    b"\\gg",
    b"\\sim",
    b"\\simeq",
    b"\\asymp",
    b"\\approx",
    b"\\cong",
    b"\\doteq",
    b"\\propto",
    b"\\wr",
    b"\\star",
    b"\\bullet",
    b"\\bigcirc",
    b"\\oplus",
    b"\\ominus",
    b"\\otimes",
    b"\\odot",
    b"\\oslash",
    b"\\uplus",
    b"\\sqcup",
    b"\\sqcap",
    b"\\sqsubset",
    b"\\sqsubseteq",
    b"\\sqsupset",
    b"\\sqsupseteq",
    b"\\subset",
    b"\\supset",
    b"\\supseteq",
    b"\\AA",
    b"\\EE",
];

/// Spellings of one meaning, each with the canonical one.
const SPELLINGS: [(&[u8], &[u8]); 11] = [
    (b"\\land", b"/\\"),
    (b"\\lor", b"\\/"),
    (b"\\lnot", b"~"),
    (b"\\neg", b"~"),
    (b"\\equiv", b"<=>"),
    (b"\\union", b"\\cup"),
    (b"\\intersect", b"\\cap"),
    (b"/=", b"#"),
    (b"=<", b"<="),
    (b"\\leq", b"<="),
    (b"\\geq", b">="),
];

fn longest_of<'a>(table: &[&'a [u8]], z: &[u8]) -> &'a [u8]
    ensures value { result.now ≡ spec.longest_from [] (map (λ s. s.now) table.now) z.now }
    ensures within { length result.now ≤ length z.now }
{
    let mut best: &'a [u8] = b"";
    for sign in table {
        if best.len() < sign.len() && z.starts_with(sign) {
            best = sign;
        }
    }
    best
}

/// The longest sign with which a text begins; empty where there is none.
pub fn longest(z: &[u8]) -> &'static [u8]
    ensures value { result.now ≡ spec.longest z.now }
    ensures within { length result.now ≤ length z.now }
{
    longest_of(&SIGNS, z)
}

/// Whether a text is one of the words after a backslash, with it.
pub fn is_backslash_word(text: &[u8]) -> bool
    ensures { result ≡ spec.is_backslash_word text.now }
{
    is_among(&WORDS, text)
}

fn canonical_in<'a>(table: &[(&'a [u8], &'a [u8])], spelled: &'a [u8]) -> &'a [u8]
    ensures { result.now ≡ spec.canonical_in (map (λ p. (p.0.now, p.1.now)) table.now) spelled.now }
{
    for pair in table {
        if pair.0 == spelled {
            return pair.1;
        }
    }
    spelled
}

/// The canonical spelling of a sign.
pub fn canonical(spelled: &[u8]) -> &[u8]
    ensures { result.now ≡ spec.canonical spelled.now }
{
    canonical_in(&SPELLINGS, spelled)
}
