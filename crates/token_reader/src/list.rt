//! Lists of names.

ghost use Rattle.tla_ast.specs.Answers.{Reads};
ghost use Rattle.token_reader.specs.Lists as spec;

use crate::cursor::Cursor;
use crate::mark::Mark;
use crate::setting::{Setting, Stop};
use sqlite_items::Items;
use std::alloc::Global;
use tla_ast::{Decl, Fault};

/// Reads one or more names that are bound or are parameters, with commas between.
#[tactic(auto, using(crate::proofs::Turns::turn), unfolding(crate::specs::Lists::gathered, crate::specs::Lists::gathered_from))]
pub fn names(
    alloc: Global,
    cursor: &mut Cursor<'_>,
    setting: Setting,
    before: Stop,
) -> Result<Items<Decl>, Fault>
    ensures { Reads (spec.names setting before cursor.old) result cursor.new }
{
    let mut found = Items::new(alloc);
    for _turn in 0..cursor.left() {
        found.push(cursor.declared(alloc, setting, before)?)?;
        if !cursor.eat(setting, Mark::Comma) {
            return Ok(found);
        }
    }
    Err(cursor.exhausted())
}
