//! What a token is to the readers.

ghost use Rattle.std.specs.Prelude.{◌≡◌, true, map};
ghost use Rattle.token_reader.specs.Marks as spec;

use tla_ast::Tok;

/// What a token is to the readers. An operator is found by its spelling in the table of operators; where it
/// has a further meaning, as the `=` of an update, it has a mark of its own.
#[derive(Clone, Copy, Debug, PartialEq, Eq)]
pub enum Mark {
    /// An identifier.
    Name,
    /// TRUE, FALSE, BOOLEAN or STRING.
    Value,
    Number,
    Str,
    OpenParen,
    CloseParen,
    OpenBrace,
    CloseBrace,
    OpenSquare,
    CloseSquare,
    /// `]_`.
    CloseBox,
    OpenAngle,
    CloseAngle,
    /// `>>_`.
    CloseAction,
    Comma,
    Colon,
    /// `==`.
    Defines,
    /// `|->`.
    Maps,
    /// `->`.
    Arrow,
    Bang,
    Dot,
    At,
    Prime,
    /// `[]`.
    Always,
    And,
    Or,
    Equal,
    /// `\in`.
    Belongs,
    /// `\A`.
    Forall,
    /// `\E`.
    Exists,
    Choose,
    If,
    Then,
    Else,
    Case,
    Other,
    Let,
    In,
    Except,
    /// `WF_`.
    Weak,
    /// `SF_`.
    Strong,
    Assume,
    /// ASSUMPTION or AXIOM.
    Assumption,
    By,
    Constant,
    Constants,
    /// DEF or DEFS.
    Def,
    Define,
    Extends,
    Have,
    Hide,
    New,
    Obvious,
    Omitted,
    Only,
    Pick,
    Proof,
    Prove,
    Qed,
    State,
    Suffices,
    Take,
    /// THEOREM, LEMMA, PROPOSITION or COROLLARY.
    Theorem,
    Use,
    Variable,
    Variables,
    /// WITH, which is reserved and stands nowhere.
    With,
    Witness,
    /// `_`.
    Underscore,
    /// A step token.
    Step,
    /// A rule: four or more `-`.
    Rule,
    /// An operator without a further meaning.
    Operator,
    /// A sign or a word that the language has and the readers refuse wherever it stands.
    Refused,
    /// The end token of the module.
    End,
    /// The end of the bytes.
    Eof,
}

/// The reserved words.
const WORDS: [(&[u8], Mark); 57] = [
    (b"ACTION", Mark::Refused),
    (b"ASSUME", Mark::Assume),
    (b"ASSUMPTION", Mark::Assumption),
    (b"AXIOM", Mark::Assumption),
    (b"BOOLEAN", Mark::Value),
    (b"BY", Mark::By),
    (b"CASE", Mark::Case),
    (b"CHOOSE", Mark::Choose),
    (b"CONSTANT", Mark::Constant),
    (b"CONSTANTS", Mark::Constants),
    (b"COROLLARY", Mark::Theorem),
    (b"DEF", Mark::Def),
    (b"DEFINE", Mark::Define),
    (b"DEFS", Mark::Def),
    (b"DOMAIN", Mark::Operator),
    (b"ELSE", Mark::Else),
    (b"ENABLED", Mark::Operator),
    (b"EXCEPT", Mark::Except),
    (b"EXTENDS", Mark::Extends),
    (b"FALSE", Mark::Value),
    (b"HAVE", Mark::Have),
    (b"HIDE", Mark::Hide),
    (b"IF", Mark::If),
    (b"IN", Mark::In),
    (b"INSTANCE", Mark::Refused),
    (b"LAMBDA", Mark::Refused),
    (b"LEMMA", Mark::Theorem),
    (b"LET", Mark::Let),
    (b"LOCAL", Mark::Refused),
    (b"MODULE", Mark::Refused),
    (b"NEW", Mark::New),
    (b"OBVIOUS", Mark::Obvious),
    (b"OMITTED", Mark::Omitted),
    (b"ONLY", Mark::Only),
    (b"OTHER", Mark::Other),
    (b"PICK", Mark::Pick),
    (b"PROOF", Mark::Proof),
    (b"PROPOSITION", Mark::Theorem),
    (b"PROVE", Mark::Prove),
    (b"QED", Mark::Qed),
    (b"RECURSIVE", Mark::Refused),
    (b"STATE", Mark::State),
    (b"STRING", Mark::Value),
    (b"SUBSET", Mark::Operator),
    (b"SUFFICES", Mark::Suffices),
    (b"TAKE", Mark::Take),
    (b"TEMPORAL", Mark::Refused),
    (b"THEN", Mark::Then),
    (b"THEOREM", Mark::Theorem),
    (b"TRUE", Mark::Value),
    (b"UNCHANGED", Mark::Operator),
    (b"UNION", Mark::Operator),
    (b"USE", Mark::Use),
    (b"VARIABLE", Mark::Variable),
    (b"VARIABLES", Mark::Variables),
    (b"WITH", Mark::With),
    (b"WITNESS", Mark::Witness),
];

/// The signs that the profile has.
const SIGNS: [(&[u8], Mark); 48] = [
    (b"/\\", Mark::And),
    (b"\\/", Mark::Or),
    (b"~", Mark::Operator),
    (b"=>", Mark::Operator),
    (b"(", Mark::OpenParen),
    (b")", Mark::CloseParen),
    (b",", Mark::Comma),
    (b"=", Mark::Equal),
    (b"\\in", Mark::Belongs),
    (b":", Mark::Colon),
    (b"[", Mark::OpenSquare),
    (b"]", Mark::CloseSquare),
    (b"{", Mark::OpenBrace),
    (b"}", Mark::CloseBrace),
    (b"<<", Mark::OpenAngle),
    (b">>", Mark::CloseAngle),
    (b"==", Mark::Defines),
    (b"'", Mark::Prime),
    (b".", Mark::Dot),
    (b"\\A", Mark::Forall),
    (b"\\E", Mark::Exists),
    (b"|->", Mark::Maps),
    (b"->", Mark::Arrow),
    (b"!", Mark::Bang),
    (b"@", Mark::At),
    (b"[]", Mark::Always),
    (b"]_", Mark::CloseBox),
    (b">>_", Mark::CloseAction),
    (b"WF_", Mark::Weak),
    (b"SF_", Mark::Strong),
    (b"#", Mark::Operator),
    (b"<", Mark::Operator),
    (b">", Mark::Operator),
    (b"<=", Mark::Operator),
    (b">=", Mark::Operator),
    (b"<=>", Mark::Operator),
    (b"~>", Mark::Operator),
    (b"..", Mark::Operator),
    (b"+", Mark::Operator),
    (b"-", Mark::Operator),
    (b"*", Mark::Operator),
    (b"\\", Mark::Operator),
    (b"<>", Mark::Operator),
    (b"\\notin", Mark::Operator),
    (b"\\subseteq", Mark::Operator),
    (b"\\cup", Mark::Operator),
    (b"\\cap", Mark::Operator),
    (b"_", Mark::Underscore),
];

/// The mark of the first row with this text.
fn mark_in(table: &[(&[u8], Mark)], text: &[u8], otherwise: Mark) -> Mark
    ensures { result ≡ spec.mark_in (map (λ r. (r.0.now, r.1)) table.now) text.now otherwise }
{
    for row in table {
        if row.0 == text {
            return row.1;
        }
    }
    otherwise
}

/// A word that is not reserved is a name.
fn word_mark(word: &[u8]) -> Mark
    ensures { result ≡ spec.mark_in spec.words word.now Mark.Name }
{
    mark_in(&WORDS, word, Mark::Name)
}

/// The lexer gives no signs but those of the table and those that the profile refuses.
fn sign_mark(sign: &[u8]) -> Mark
    ensures { result ≡ spec.mark_in spec.signs sign.now Mark.Refused }
{
    mark_in(&SIGNS, sign, Mark::Refused)
}

/// What the token is to the readers.
pub fn mark_of(tok: &Tok) -> Mark
    ensures { result ≡ spec.mark_of tok.now }
{
    match tok {
        Tok::Word(word) => word_mark(word.bytes()),
        Tok::Sign(sign) => sign_mark(sign.bytes()),
        Tok::Number(_) => Mark::Number,
        Tok::Str(_) => Mark::Str,
        Tok::Step { .. } => Mark::Step,
        Tok::Rule => Mark::Rule,
        Tok::End => Mark::End,
        Tok::Eof => Mark::Eof,
    }
}

/// The spelling of a word or a sign; empty for other tokens.
pub fn spelling(tok: &Tok) -> &[u8]
    ensures { result.now ≡ spec.spelling tok.now }
{
    match tok {
        Tok::Word(word) => word.bytes(),
        Tok::Sign(sign) => sign.bytes(),
        _ => &[],
    }
}

/// Whether two marks are the same.
pub fn same_mark(a: Mark, b: Mark) -> bool
    ensures value { result ≡ spec.same_mark a b }
    ensures same { result ≡ true → a ≡ b }
{
    a == b
}
