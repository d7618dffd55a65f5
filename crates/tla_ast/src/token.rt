//! Tokens.

use crate::place::Place;
use core_expr::Text;
use sqlite_items::Items;

/// A token, without its place.
#[derive(Debug, Drop)]
pub enum Tok {
    /// An identifier or a reserved word: a run of letters, digits and `_` with a letter.
    Word(Text),
    /// A number of decimal digits.
    Number(u128),
    /// A string, with the bytes that its escapes mean.
    Str(Text),
    /// `<level>label`, with any dots after it.
    Step { level: u128, label: Text },
    /// An operator or a mark, under its canonical spelling; also the signs and words that every reader refuses.
    Sign(Text),
    /// Four or more `-`.
    Rule,
    /// Four or more `=`: the end of the module.
    End,
    /// The end of the bytes, where no end token came before it.
    Eof,
}

/// A token with the place of its first byte.
#[derive(Debug, Drop)]
pub struct Token {
    pub tok: Tok,
    pub place: Place,
}

/// The tokens of a module: the name in its header, the place of the header's first dash, and the tokens after the header
/// up to and with the end token.
#[derive(Debug, Drop)]
pub struct Tokens {
    pub name: Text,
    pub header: Place,
    pub list: Items<Token>,
}
