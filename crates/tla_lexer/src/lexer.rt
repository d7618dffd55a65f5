//! All tokens of a module.

ghost use Rattle.std.specs.Prelude.{◌≡◌, ◌+◌, ◌*◌, ◌<◌, ◌≤◌, length, drop, IfOk};
ghost use Rattle.tla_ast.specs.Answers.{Answers};
ghost use Rattle.tla_ast.specs.Listing.{IsTokenList};
ghost use Rattle.tla_ast.specs.declared.limit.TheConstants.{MOST_BYTES};
ghost use Rattle.tla_lexer.specs.Tokens as spec;

use crate::header::{Found, find};
use crate::piece::{Piece, piece_at};
use crate::place::{FIRST, after};
use core_expr::Text;
use sqlite_items::Items;
use std::alloc::Global;
use tla_ast::{Kind, LexFault, MOST_BYTES, Place, Tok, Token, Tokens};

/// The tokens behind so many bytes, which end at this place.
fn tokens_behind(
    alloc: Global,
    bytes: &[u8],
    start: usize,
    begin: Place,
) -> Result<Items<Token>, LexFault>
    requires short { length bytes.now ≤ MOST_BYTES }
    requires within { start ≤ length bytes.now }
    requires line { begin.line ≤ 1 + start }
    requires column { begin.column ≤ 1 + 8 * start }
    ensures { Answers result (spec.tokens_from 0 begin (drop start bytes.now)) }
{
    let mut list = Items::new(alloc);
    let mut place = begin;
    let mut at = start;
    while at < bytes.len() {
        match piece_at(alloc, &bytes[at..])? {
            Piece::Gap(n) => {
                place = after(place, &bytes[at..at + n]);
                at += n;
            }
            Piece::Token(tok, n) => {
                list.push(Token { tok, place })?;
                place = after(place, &bytes[at..at + n]);
                at += n;
            }
            Piece::End => {
                list.push(Token {
                    tok: Tok::End,
                    place,
                })?;
                return Ok(list);
            }
            Piece::Fault(kind, n) => {
                return Err(LexFault::At {
                    place: after(place, &bytes[at..at + n]),
                    kind,
                });
            }
        }
    }
    list.push(Token {
        tok: Tok::Eof,
        place,
    })?;
    Ok(list)
}

/// The tokens of a module: its header, and what stands behind it up to the end token. The fault is the first that applies:
/// `TooLong` at 1:1 for more than 1048576 bytes, `NoModule` at 1:1 where no header stands anywhere, and else the fault of the
/// least place. `Memory` only where the allocator refuses memory. The places of the tokens rise by line and then column, and
/// the last token and no other is `End` or `Eof`, as the readers ask.
pub fn lex(alloc: Global, bytes: &[u8]) -> Result<Tokens, LexFault>
    ensures gives { Answers result (spec.tokens bytes.now) }
    ensures list { IfOk result (λ ts. IsTokenList ts.list) }
{
    if MOST_BYTES < bytes.len() {
        return Err(LexFault::At {
            place: FIRST,
            kind: Kind::TooLong,
        });
    }
    match find(alloc, bytes)? {
        None => Err(LexFault::At {
            place: FIRST,
            kind: Kind::NoModule,
        }),
        Some(found) => tokens_of(alloc, bytes, found),
    }
}

/// The tokens of a module whose header is found.
fn tokens_of(alloc: Global, bytes: &[u8], found: Found) -> Result<Tokens, LexFault>
    requires short { length bytes.now ≤ MOST_BYTES }
    requires within { found.at + found.header.length ≤ length bytes.now }
    ensures { Answers result (spec.tokens_of bytes.now found) }
{
    let Found { at, header } = found;
    let place = after(FIRST, &bytes[..at]);
    let begin = after(place, &bytes[at..at + header.length]);
    let listed = tokens_behind(alloc, bytes, at + header.length, begin);
    headed(header.name, place, listed)
}

/// These tokens with the header, or their fault.
fn headed(
    name: Text,
    header: Place,
    listed: Result<Items<Token>, LexFault>,
) -> Result<Tokens, LexFault>
    ensures { result ≡ spec.headed name header listed }
{
    match listed {
        Ok(list) => Ok(Tokens { name, header, list }),
        Err(fault) => Err(fault),
    }
}
