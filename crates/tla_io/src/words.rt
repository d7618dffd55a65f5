//! The words of the command.

ghost use Rattle.tla_io.specs.Files.{HasWords};

use core_expr::Memory;
use std::alloc::Global;
use std::env::{self, Args};
use std::io::{self, ErrorKind};
use std::rt::Env;

/// The words of a reading.
fn listed(alloc: Global, words: io::Result<Args>) -> Result<Vec<String>, Memory>
    ensures { HasWords words result }
{
    match words {
        Ok(words) => Ok(words.collect::<Vec<String>>(alloc)?),
        Err(error) if error.kind() == ErrorKind::InvalidData => Ok(Vec::new(alloc)),
        Err(_) => Err(Memory),
    }
}

/// The words of the command, the program's name first. A command with a word that is no UTF-8 has no words, which no
/// program takes for lawful.
pub fn command_words<R: Env + AllocGlobal>(rt: &R) -> Result<Vec<String>, Memory> {
    listed(rt.alloc(), env::args(rt))
}
