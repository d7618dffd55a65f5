//! Names of units, constants, and where a definition begins.

ghost use Rattle.std.specs.Prelude.{◌≡◌, IfOk};
ghost use Rattle.tla_ast.specs.Answers.{Reads};
ghost use Rattle.proof_parser.specs.Modules as spec;

use core_expr::Memory;
use sqlite_items::Items;
use std::alloc::Global;
use tla_ast::{Decl, Fault};
use token_reader::{Around, Cursor, Mark, Setting, Stop, names};

/// The setting of units and steps: they use every token, and stand in no bracket.
pub fn outside() -> Setting
    ensures { result ≡ spec.outside }
{
    Setting {
        region: 0,
        around: Around::Other,
        has_at: false,
    }
}

/// One or more names, with commas between.
pub fn plain_names(alloc: Global, cursor: &mut Cursor<'_>) -> Result<Items<Decl>, Fault>
    ensures { Reads (spec.plain_names cursor.old) result cursor.new }
{
    names(alloc, cursor, outside(), Stop::Other)
}

/// One or more `_`, with commas between: how many there are.
#[tactic(auto, using(token_reader::proofs::Turns::turn), unfolding(token_reader::specs::Lists::gathered, token_reader::specs::Lists::gathered_from, crate::specs::Modules::blanks, crate::specs::Modules::blank))]
fn blanks(alloc: Global, cursor: &mut Cursor<'_>) -> Result<u64, Fault>
    ensures { Reads (spec.blanks cursor.old) result cursor.new }
{
    for turn in 0..cursor.left() as u64 {
        cursor.expect(alloc, outside(), Stop::Other, Mark::Underscore)?;
        if !cursor.eat(outside(), Mark::Comma) {
            return Ok(turn + 1);
        }
    }
    Err(cursor.exhausted())
}

/// The arguments of a constant operator, after the `(`.
#[tactic(auto, unfolding(crate::specs::Modules::arguments))]
fn arguments(alloc: Global, cursor: &mut Cursor<'_>) -> Result<u64, Fault>
    ensures { Reads (spec.arguments cursor.old) result cursor.new }
{
    let count = blanks(alloc, cursor)?;
    cursor.expect(alloc, outside(), Stop::Other, Mark::CloseParen)?;
    Ok(count)
}

/// A constant: a name, alone or with `(_, _)`.
#[tactic(auto, unfolding(crate::specs::Modules::constant))]
fn constant(alloc: Global, cursor: &mut Cursor<'_>) -> Result<Decl, Fault>
    ensures { Reads (spec.constant cursor.old) result cursor.new }
{
    let mut decl = cursor.declared(alloc, outside(), Stop::Other)?;
    if cursor.eat(outside(), Mark::OpenParen) {
        decl.arity = arguments(alloc, cursor)?;
    }
    Ok(decl)
}

/// One or more constants, with commas between.
#[tactic(auto, using(token_reader::proofs::Turns::turn), unfolding(token_reader::specs::Lists::gathered, token_reader::specs::Lists::gathered_from, crate::specs::Modules::constants))]
pub fn constants(alloc: Global, cursor: &mut Cursor<'_>) -> Result<Items<Decl>, Fault>
    ensures { Reads (spec.constants cursor.old) result cursor.new }
{
    let mut found = Items::new(alloc);
    for _turn in 0..cursor.left() {
        found.push(constant(alloc, cursor)?)?;
        if !cursor.eat(outside(), Mark::Comma) {
            return Ok(found);
        }
    }
    Err(cursor.exhausted())
}

/// The name of a theorem or an ASSUME, where `==` follows it.
#[tactic(auto, unfolding(crate::specs::Modules::unit_name))]
pub fn unit_name(alloc: Global, cursor: &mut Cursor<'_>) -> Result<Option<Decl>, Fault>
    ensures { Reads (spec.unit_name cursor.old) result cursor.new }
{
    if !(cursor.sees(outside(), Mark::Name) && cursor.sees_second(outside(), Mark::Defines)) {
        return Ok(None);
    }
    let decl = cursor.declared(alloc, outside(), Stop::Other)?;
    cursor.expect(alloc, outside(), Stop::Other, Mark::Defines)?;
    Ok(Some(decl))
}

/// Whether the name that comes next begins a definition.
#[tactic(auto, unfolding(crate::specs::Modules::begins_definition))]
pub fn begins_definition(alloc: Global, cursor: &Cursor<'_>) -> Result<bool, Memory>
    ensures { IfOk result (λ begins. begins ≡ spec.begins_definition cursor.now) }
{
    if cursor.sees_second(outside(), Mark::Defines) {
        return Ok(true);
    }
    if !cursor.sees_second(outside(), Mark::OpenParen) {
        return Ok(false);
    }
    let mut ahead = Cursor::new(cursor.rest());
    ahead.advance();
    ahead.advance();
    match plain_names(alloc, &mut ahead) {
        Ok(_) => Ok(
            ahead.sees(outside(), Mark::CloseParen) && ahead.sees_second(outside(), Mark::Defines),
        ),
        Err(Fault::Memory) => Err(Memory),
        Err(Fault::At { place: _, kind: _ }) => Ok(false),
    }
}
