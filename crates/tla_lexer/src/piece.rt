//! What stands at the front of a text.

ghost use Rattle.std.specs.Prelude.{◌≡◌, ◌+◌, ◌<◌, ◌≤◌, ◌^◌, length, Some, None, IfOk, IfSome, if◌then◌else◌, true};
ghost use Rattle.std.specs.List.{list_all};
ghost use Rattle.std.specs.Char.{is_ascii_digit};
ghost use Rattle.tla_lexer.specs.Pieces as spec;

use crate::comment::{opens, rest_len};
use crate::run::{at, behind, digit_len, is_blank, line_len, same_len, word_len};
use crate::signs::{canonical, is_backslash_word, longest};
use crate::string::string;
use core_expr::{Memory, Text};
use std::alloc::Global;
use tla_ast::{Kind, Tok, begins_with_fairness, has_letter, is_word_byte};

/// What stands at the front of a text.
#[derive(Debug, Drop)]
pub enum Piece {
    /// A blank or a comment of this many bytes.
    Gap(usize),
    /// A token of this many bytes.
    Token(Tok, usize),
    /// The end token.
    End,
    /// A fault at the byte of this index.
    Fault(Kind, usize),
}

/// The number that these digits mean, where it is below 2^128.
fn number_value(run: &[u8]) -> Option<u128>
    requires { list_all is_ascii_digit run.now ≡ true }
    ensures { result ≡ (if spec.is_small run.now then Some (spec.value_of run.now) else None) }
{
    let mut value: u128 = 0;
    for b in run {
        let Some(ten) = value.checked_mul(10) else {
            return None;
        };
        let Some(sum) = ten.checked_add(u128::from(*b - b'0')) else {
            return None;
        };
        value = sum;
    }
    Some(value)
}

fn are_digits(run: &[u8]) -> bool
    ensures { result ≡ list_all is_ascii_digit run.now }
{
    run.iter().all(|b| b.is_ascii_digit())
}

fn number(run: &[u8]) -> Piece
    requires { list_all is_ascii_digit run.now ≡ true }
    ensures value { result ≡ spec.number run.now }
    ensures within { 0 < length run.now → spec.Within (length run.now) result }
{
    match number_value(run) {
        Some(value) => Piece::Token(Tok::Number(value), run.len()),
        None => Piece::Fault(Kind::NumberTooLarge, 0),
    }
}

/// A whole run of letters, digits and `_`.
fn word(alloc: Global, run: &[u8]) -> Result<Piece, Memory>
    ensures value { IfOk result (λ p. p ≡ spec.word run.now) }
    ensures within { IfOk result (λ p. 0 < length run.now → spec.Within (length run.now) p) }
{
    if are_digits(run) {
        return Ok(number(run));
    }
    if has_letter(run) {
        return Ok(Piece::Token(Tok::Word(Text::of(alloc, run)?), run.len()));
    }
    if run == b"_".as_slice() {
        return Ok(Piece::Token(Tok::Sign(Text::of(alloc, run)?), run.len()));
    }
    Ok(Piece::Fault(Kind::BadByte, 0))
}

/// A sign, by its spelling.
fn sign(alloc: Global, spelled: &[u8]) -> Result<Piece, Memory>
    ensures value { IfOk result (λ p. p ≡ spec.sign spelled.now) }
    ensures within { IfOk result (spec.Within (length spelled.now)) }
{
    if spelled.is_empty() {
        return Ok(Piece::Fault(Kind::BadByte, 0));
    }
    let text = Text::of(alloc, canonical(spelled))?;
    Ok(Piece::Token(Tok::Sign(text), spelled.len()))
}

/// `WF_` or `SF_`.
fn fairness(alloc: Global, spelled: &[u8]) -> Result<Piece, Memory>
    ensures { IfOk result (λ p. p ≡ spec.fairness spelled.now) }
{
    Ok(Piece::Token(Tok::Sign(Text::of(alloc, spelled)?), 3))
}

fn comment(rest: Option<usize>) -> Piece
    requires { IfSome rest (λ n. n < 2 ^ 63) }
    ensures { result ≡ spec.comment rest }
{
    match rest {
        None => Piece::Fault(Kind::OpenComment, 0),
        Some(n) => Piece::Gap(2 + n),
    }
}

/// Whether a step token stands at the front.
fn is_step(z: &[u8]) -> bool
    requires { length z.now < 2 ^ 62 }
    ensures { result ≡ spec.is_step z.now }
{
    let digits = digit_len(behind(z, 1));
    at(z, 0) == b'<' && 0 < digits && at(z, 1 + digits) == b'>'
}

/// The step token at the front.
fn step(alloc: Global, z: &[u8]) -> Result<Piece, Memory>
    requires short { length z.now < 2 ^ 62 }
    requires step { spec.is_step z.now ≡ true }
    ensures value { IfOk result (λ p. p ≡ spec.step z.now) }
    ensures within { IfOk result (spec.Within (length z.now)) }
{
    let digits = digit_len(behind(z, 1));
    let tail = behind(z, digits + 2);
    let label = word_len(tail);
    let dots = same_len(b'.', behind(tail, label));
    match number_value(&behind(z, 1)[..digits]) {
        None => Ok(Piece::Fault(Kind::NumberTooLarge, 0)),
        Some(level) => {
            let label_text = Text::of(alloc, &tail[..label])?;
            Ok(Piece::Token(
                Tok::Step {
                    level,
                    label: label_text,
                },
                digits + 2 + label + dots,
            ))
        }
    }
}

fn opens_line(b: u8, c: u8) -> bool
    ensures { result ≡ spec.opens_line b c }
{
    b == b'\\' && c == b'*'
}

/// What stands at the front, where it begins with no blank, comment, word or string.
fn mark(alloc: Global, z: &[u8]) -> Result<Piece, Memory>
    requires some { 0 < length z.now }
    requires short { length z.now < 2 ^ 62 }
    ensures value { IfOk result (λ p. p ≡ spec.mark z.now) }
    ensures within { IfOk result (spec.Within (length z.now)) }
{
    if is_step(z) {
        return step(alloc, z);
    }
    let dashes = same_len(b'-', z);
    if 4 <= dashes {
        return Ok(Piece::Token(Tok::Rule, dashes));
    }
    if 4 <= same_len(b'=', z) {
        return Ok(Piece::End);
    }
    let spelled = backslash_word(z);
    if is_backslash_word(spelled) {
        return sign(alloc, spelled);
    }
    sign(alloc, longest(z))
}

/// The first byte and the run of letters, digits and `_` behind it.
fn backslash_word(z: &[u8]) -> &[u8]
    requires some { 0 < length z.now }
    requires short { length z.now < 2 ^ 62 }
    ensures value { result.now ≡ spec.backslash_word z.now }
    ensures within { length result.now ≤ length z.now }
{
    let len = word_len(behind(z, 1));
    &z[..1 + len]
}

/// What stands at the front.
#[tactic(auto, unfolding(crate::specs::Pieces::piece_at))]
pub fn piece_at(alloc: Global, z: &[u8]) -> Result<Piece, Memory>
    requires some { 0 < length z.now }
    requires short { length z.now < 2 ^ 62 }
    ensures value { IfOk result (λ p. p ≡ spec.piece_at z.now) }
    ensures within { IfOk result (spec.Within (length z.now)) }
{
    let (b, c) = (at(z, 0), at(z, 1));
    if is_blank(b) {
        Ok(Piece::Gap(1))
    } else if opens_line(b, c) {
        Ok(Piece::Gap(line_len(z)))
    } else if opens(b, c) {
        Ok(comment(rest_len(&z[2..])))
    } else if begins_with_fairness(z) {
        fairness(alloc, &z[..3])
    } else if is_word_byte(b) {
        word(alloc, &z[..word_len(z)])
    } else if b == b'"' {
        string(alloc, &z[1..])
    } else {
        mark(alloc, z)
    }
}
