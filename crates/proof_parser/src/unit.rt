//! Units of a module.

ghost use Rattle.std.specs.Prelude.{◌≡◌, IfOk, map};
ghost use Rattle.token_reader.specs.Input as input;
ghost use Rattle.tla_ast.specs.Answers.{Reads};
ghost use Rattle.proof_parser.specs.Modules as spec;

use crate::clause::Clauses;
use crate::name::{constants, outside, plain_names, unit_name};
use crate::proof::theorem_proof;
use core_expr::{Memory, Text};
use sqlite_items::Items;
use std::alloc::Global;
use tla_ast::{Decl, Fault, Kind, Place, Proof, Unit, UnitKind};
use token_reader::{Cursor, Mark, Stop};

/// What stands in a unit.
fn in_unit(alloc: Global) -> Clauses
    ensures { result.nestings ≡ spec.in_unit }
{
    let nestings = 201;
    Clauses { alloc, nestings }
}

/// A theorem.
#[tactic(auto, unfolding(crate::specs::Modules::theorem))]
fn theorem(alloc: Global, cursor: &mut Cursor<'_>) -> Result<UnitKind, Fault>
    ensures { Reads (spec.theorem cursor.old) result cursor.new }
{
    cursor.advance();
    let name = unit_name(alloc, cursor)?;
    let statement = in_unit(alloc).statement(cursor, false)?;
    let proof = theorem_proof(alloc, cursor)?;
    Ok(UnitKind::Theorem {
        name,
        statement,
        proof,
    })
}

/// An ASSUME.
#[tactic(auto, unfolding(crate::specs::Modules::assumption))]
fn assumption(alloc: Global, cursor: &mut Cursor<'_>) -> Result<UnitKind, Fault>
    ensures { Reads (spec.assumption cursor.old) result cursor.new }
{
    cursor.advance();
    let name = unit_name(alloc, cursor)?;
    let body = in_unit(alloc).expression(cursor)?;
    Ok(UnitKind::Assume { name, body })
}

/// A unit, by its first token.
fn unit_kind(alloc: Global, cursor: &mut Cursor<'_>) -> Result<UnitKind, Fault>
    ensures { Reads (spec.unit_by (input.mark cursor.old) cursor.old) result cursor.new }
{
    match cursor.mark() {
        Mark::Constant | Mark::Constants => {
            cursor.advance();
            Ok(UnitKind::Constants(constants(alloc, cursor)?))
        }
        Mark::Variable | Mark::Variables => {
            cursor.advance();
            Ok(UnitKind::Variables(plain_names(alloc, cursor)?))
        }
        Mark::Assume | Mark::Assumption => assumption(alloc, cursor),
        Mark::Theorem => theorem(alloc, cursor),
        Mark::Name => Ok(UnitKind::Define(in_unit(alloc).definition(cursor)?)),
        _ => Err(cursor.refusal(alloc, outside(), Stop::Other)),
    }
}

/// Whether the unit is a theorem whose proof is by steps.
fn is_by_steps(kind: &UnitKind) -> bool
    ensures { result ≡ spec.is_by_steps kind.now }
{
    match kind {
        UnitKind::Theorem {
            name: _,
            statement: _,
            proof: Proof::Steps(_),
        } => true,
        _ => false,
    }
}

/// The fault where a unit must begin, or the unit: right after a proof by steps a step has a wrong level.
#[tactic(auto, unfolding(crate::specs::Modules::unit_of))]
fn unit(alloc: Global, cursor: &mut Cursor<'_>, after_steps: bool) -> Result<Unit, Fault>
    ensures { Reads (spec.unit_of after_steps cursor.old) result cursor.new }
{
    let place = cursor.place();
    if after_steps && cursor.sees(outside(), Mark::Step) {
        let kind = Kind::StepLevel;
        return Err(Fault::At { place, kind });
    }
    let kind = unit_kind(alloc, cursor)?;
    Ok(Unit { place, kind })
}

/// The units up to the end token, with rules between.
#[tactic(auto, using(token_reader::proofs::Turns::turn), unfolding(crate::specs::Modules::units, crate::specs::Modules::units_from))]
pub fn units(alloc: Global, cursor: &mut Cursor<'_>) -> Result<Items<Unit>, Fault>
    ensures { Reads (spec.units cursor.old) result cursor.new }
{
    let mut found = Items::new(alloc);
    let mut after_steps = false;
    for _turn in 0..cursor.left() {
        if cursor.sees(outside(), Mark::End) {
            return Ok(found);
        }
        if cursor.eat(outside(), Mark::Rule) {
            after_steps = false;
            continue;
        }
        let unit = unit(alloc, cursor, after_steps)?;
        after_steps = is_by_steps(&unit.kind);
        found.push(unit)?;
    }
    Err(cursor.exhausted())
}

/// The names of modules with their places.
fn extended(alloc: Global, names: &[Decl]) -> Result<Items<(Text, Place)>, Memory>
    ensures { IfOk result (λ all. all ≡ map spec.extended names.now) }
{
    let mut all = Items::new(alloc);
    for decl in names {
        all.push((Text::of(alloc, decl.name.bytes())?, decl.place))?;
    }
    Ok(all)
}

/// The modules that a module extends, with their places.
#[tactic(auto, unfolding(crate::specs::Modules::extends))]
pub fn extends(alloc: Global, cursor: &mut Cursor<'_>) -> Result<Items<(Text, Place)>, Fault>
    ensures { Reads (spec.extends cursor.old) result cursor.new }
{
    if !cursor.sees(outside(), Mark::Extends) {
        return Ok(Items::new(alloc));
    }
    cursor.advance();
    let names = plain_names(alloc, cursor)?;
    Ok(extended(alloc, names.as_slice())?)
}
