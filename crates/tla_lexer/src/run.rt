//! How far bytes of one sort go at the front of a text.

ghost use Rattle.std.specs.Prelude.{◌≡◌, ◌+◌, ◌<◌, ◌≤◌, length, drop, slice_index};
ghost use Rattle.tla_lexer.specs.Runs as spec;

use tla_ast::is_word_byte;

/// Whether a byte is a space, a tab, a line feed or a carriage return.
pub fn is_blank(byte: u8) -> bool
    ensures { result ≡ spec.is_blank byte }
{
    byte == b' ' || byte == b'\t' || byte == b'\n' || byte == b'\r'
}

/// The byte at a place, and 0 past the end.
pub fn at(z: &[u8], i: usize) -> u8
    ensures { result ≡ slice_index z.now i }
{
    if i < z.len() { z[i] } else { 0 }
}

/// The text without its first bytes.
pub fn behind(z: &[u8], n: usize) -> &[u8]
    ensures { result.now ≡ drop n z.now }
{
    if n <= z.len() { &z[n..] } else { b"" }
}

/// The length of the word at the front.
pub fn word_len(z: &[u8]) -> usize
    ensures value { result ≡ spec.word_len z.now }
    ensures within { result ≤ length z.now }
{
    let mut end = 0;
    while end < z.len() && is_word_byte(z[end]) {
        end += 1;
    }
    end
}

/// The number of decimal digits at the front.
pub fn digit_len(z: &[u8]) -> usize
    ensures value { result ≡ spec.digit_len z.now }
    ensures within { result ≤ length z.now }
{
    let mut end = 0;
    while end < z.len() && z[end].is_ascii_digit() {
        end += 1;
    }
    end
}

fn is_space(byte: u8) -> bool
    ensures { result ≡ spec.is_space byte }
{
    byte == b' ' || byte == b'\t'
}

/// The number of spaces and tabs at the front.
pub fn space_len(z: &[u8]) -> usize
    ensures value { result ≡ spec.space_len z.now }
    ensures within { result ≤ length z.now }
{
    let mut end = 0;
    while end < z.len() && is_space(z[end]) {
        end += 1;
    }
    end
}

/// How often this byte stands at the front.
pub fn same_len(byte: u8, z: &[u8]) -> usize
    ensures value { result ≡ spec.same_len byte z.now }
    ensures within { result ≤ length z.now }
{
    let mut end = 0;
    while end < z.len() && z[end] == byte {
        end += 1;
    }
    end
}

/// The length of the line at the front, without its line feed.
pub fn line_len(z: &[u8]) -> usize
    ensures value { result ≡ spec.line_len z.now }
    ensures within { result ≤ length z.now }
{
    let mut end = 0;
    while end < z.len() && z[end] != b'\n' {
        end += 1;
    }
    end
}
