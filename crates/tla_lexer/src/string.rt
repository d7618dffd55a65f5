//! Strings.

ghost use Rattle.std.specs.Prelude.{◌≡◌, ◌++◌, ◌∷◌, [], ◌+◌, ◌<◌, ◌^◌, length, IfOk, false};
ghost use Rattle.tla_lexer.specs.Strings as spec;
ghost use Rattle.tla_lexer.specs.Pieces as piece;

use crate::piece::Piece;
use core_expr::{Memory, Text};
use std::alloc::{AllocError, Global};
use tla_ast::{Kind, Tok};

/// What a byte of a string does.
#[derive(Clone, Copy, Debug, PartialEq, Eq)]
pub enum Move {
    /// It stands for this byte.
    Holds(u8),
    /// It begins an escape.
    Escapes,
    /// It closes the string.
    Closes,
    /// It ends the line.
    Breaks,
    /// It must not stand here.
    Wrong,
}

/// What a byte behind a backslash does.
fn escaped_move(byte: u8) -> Move
    ensures { result ≡ spec.escaped_move byte }
{
    if byte == b'"' || byte == b'\\' {
        Move::Holds(byte)
    } else if byte == b't' {
        Move::Holds(b'\t')
    } else if byte == b'n' {
        Move::Holds(b'\n')
    } else if byte == b'f' {
        Move::Holds(12)
    } else if byte == b'r' {
        Move::Holds(b'\r')
    } else if byte == b'\n' {
        Move::Breaks
    } else {
        Move::Wrong
    }
}

/// What a byte that is not behind a backslash does.
fn plain_move(byte: u8) -> Move
    ensures { result ≡ spec.plain_move byte }
{
    if byte == b'"' {
        Move::Closes
    } else if byte == b'\\' {
        Move::Escapes
    } else if byte == b'\n' {
        Move::Breaks
    } else if 32 <= byte && byte <= 126 {
        Move::Holds(byte)
    } else {
        Move::Wrong
    }
}

fn move_of(escaped: bool, byte: u8) -> Move
    ensures { result ≡ spec.move_of escaped byte }
{
    if escaped {
        escaped_move(byte)
    } else {
        plain_move(byte)
    }
}

fn closed(alloc: Global, value: &[u8], len: usize) -> Result<Piece, Memory>
    requires { len < 2 ^ 63 }
    ensures { IfOk result (λ p. p ≡ piece.quoted (spec.closed value.now len)) }
{
    Ok(Piece::Token(Tok::Str(Text::of(alloc, value)?), 1 + len))
}

fn push(value: &mut Vec<u8>, byte: u8) -> Result<(), AllocError>
    ensures { IfOk result (λ u. value.new.items ≡ value.old.items ++ byte ∷ []) }
{
    value.push(byte)?;
    Ok(())
}

/// The string token whose opening quote stands before this text.
pub fn string(alloc: Global, z: &[u8]) -> Result<Piece, Memory>
    requires { length z.now < 2 ^ 62 }
    ensures value { IfOk result (λ p. p ≡ piece.quoted (spec.string_from false z.now)) }
    ensures within { IfOk result (piece.Within (1 + length z.now)) }
{
    let mut value = Vec::new(alloc);
    let mut escaped = false;
    let mut len: usize = 0;
    while len < z.len() {
        match move_of(escaped, z[len]) {
            Move::Holds(byte) => {
                push(&mut value, byte)?;
                escaped = false;
            }
            Move::Escapes => escaped = true,
            Move::Closes => return closed(alloc, value.as_slice(), len + 1),
            Move::Breaks => return Ok(Piece::Fault(Kind::OpenString, 0)),
            Move::Wrong => return Ok(Piece::Fault(Kind::BadByte, 1 + len)),
        }
        len += 1;
    }
    Ok(Piece::Fault(Kind::OpenString, 0))
}
