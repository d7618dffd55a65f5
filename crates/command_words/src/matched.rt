//! What `clap` finds in the words.
ghost use Rattle.std.specs.Prelude.{◌≡◌, ◌≢◌, map, codes, IfOk, IfErr, string_bytes};
ghost use Rattle.clap.specs.Words.{found_of, kind_of, rows_of};
ghost use Rattle.command_words.specs.Words.{IsTaken, rows};

use crate::command::command;
use crate::fault::WordsFault;
use clap::error::ErrorKind;
use clap::{ArgMatches, Error};
use std::alloc::Global;

/// Whether the words are unlawful, or there is no memory.
fn fault(error: &Error) -> WordsFault
    ensures { result ≡ WordsFault.Words → kind_of error.now ≢ ErrorKind.OutOfMemory }
{
    match error.kind() {
        ErrorKind::OutOfMemory => WordsFault::Memory,
        _ => WordsFault::Words,
    }
}

/// The matches, or why there are none.
pub fn matches_for<'a>(alloc: Global, words: &'a [String]) -> Result<ArgMatches<'a>, WordsFault>
    ensures taken { IfOk result (λ m. IsTaken (map string_bytes words.entry.now)) }
    ensures refused { IfErr result (λ e. e ≡ WordsFault.Words
        → IsTaken (map string_bytes words.entry.now) → ⊥) }
    ensures rows { IfOk result (λ m.
        rows_of (found_of m) ≡ rows (map string_bytes words.entry.now)) }
{
    let Ok(command) = command(alloc) else {
        return Err(WordsFault::Memory);
    };
    match command.try_get_matches_from(words) {
        Ok(matches) => Ok(matches),
        Err(error) => Err(fault(&error)),
    }
}
