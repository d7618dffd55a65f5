//! The header of a module.

ghost use Rattle.std.specs.Prelude.{◌≡◌, ◌+◌, ◌<◌, ◌≤◌, ◌^◌, length, Some, None, IfOk, IfSome, true, false};
ghost use Rattle.tla_lexer.specs.Headers as spec;

use crate::run::{behind, same_len, space_len, word_len};
use core_expr::{Memory, Text};
use std::alloc::Global;
use tla_ast::is_identifier;

/// A header: its module's name and the number of its bytes.
#[derive(Debug, Drop)]
pub struct Header {
    pub name: Text,
    pub length: usize,
}

/// A header that stands behind so many bytes.
#[derive(Debug, Drop)]
pub struct Found {
    pub at: usize,
    pub header: Header,
}

/// What a header has behind its first dashes.
fn title(alloc: Global, z: &[u8]) -> Result<Option<Header>, Memory>
    requires { length z.now < 2 ^ 62 }
    ensures value { IfOk result (λ h. h ≡ spec.title z.now) }
    ensures within { IfOk result (λ o. IfSome o (λ h. h.length ≤ length z.now)) }
{
    let gap = space_len(z);
    let word = behind(z, gap);
    if !word.starts_with(b"MODULE") {
        return Ok(None);
    }
    let space = space_len(behind(word, 6));
    let rest = behind(word, 6 + space);
    let len = word_len(rest);
    let name = &rest[..len];
    let tail = behind(rest, len);
    let last_gap = space_len(tail);
    let dashes = same_len(b'-', behind(tail, last_gap));
    if space == 0 || dashes < 4 || !is_identifier(name) {
        return Ok(None);
    }
    let name = Text::of(alloc, name)?;
    Ok(Some(Header {
        name,
        length: gap + 6 + space + len + last_gap + dashes,
    }))
}

/// The header at the front of a text.
#[tactic(auto, unfolding(crate::specs::Headers::header_at))]
fn header_at(alloc: Global, z: &[u8]) -> Result<Option<Header>, Memory>
    requires { length z.now < 2 ^ 62 }
    ensures value { IfOk result (λ h. h ≡ spec.header_at z.now) }
    ensures within { IfOk result (λ o. IfSome o (λ h. h.length ≤ length z.now)) }
{
    let dashes = same_len(b'-', z);
    if dashes < 4 {
        return Ok(None);
    }
    match title(alloc, behind(z, dashes))? {
        None => Ok(None),
        Some(Header { name, length }) => Ok(Some(Header {
            name,
            length: dashes + length,
        })),
    }
}

/// The header at the front of a text, where it is known that none stands there behind a dash.
fn header_behind(alloc: Global, z: &[u8], dashed: bool) -> Result<Option<Header>, Memory>
    requires short { length z.now < 2 ^ 62 }
    requires none { dashed ≡ true → spec.header_at z.now ≡ None }
    ensures value { IfOk result (λ h. h ≡ spec.header_at z.now) }
    ensures within { IfOk result (λ o. IfSome o (λ h. h.length ≤ length z.now)) }
{
    if dashed {
        return Ok(None);
    }
    header_at(alloc, z)
}

/// The leftmost header of a text. Of a run of dashes only the first is tried, so each byte is looked at a few times.
pub fn find(alloc: Global, bytes: &[u8]) -> Result<Option<Found>, Memory>
    requires { length bytes.now < 2 ^ 62 }
    ensures value { IfOk result (λ f. f ≡ spec.find bytes.now) }
    ensures within { IfOk result (λ o. IfSome o (λ f. f.at + f.header.length ≤ length bytes.now)) }
{
    let mut dashed = false;
    let mut at = 0;
    while at < bytes.len() {
        if let Some(header) = header_behind(alloc, &bytes[at..], dashed)? {
            return Ok(Some(Found { at, header }));
        }
        dashed = bytes[at] == b'-';
        at += 1;
    }
    Ok(None)
}
