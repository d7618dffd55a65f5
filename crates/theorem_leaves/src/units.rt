//! The theorems of units.

ghost use Rattle.std.specs.Prelude.{◌≡◌, [], List, IfOk, OnOk};
ghost use Rattle.proof_contexts.specs.Theorems.{Known as known};
ghost use Rattle.plain_syntax.specs.Syntax.{proof_of as plain_proof};
ghost use Rattle.known_facts.specs.Shown.{context_of};
ghost use Rattle.known_facts.specs.Clean.{HasSuspects};
ghost use Rattle.proof_outline.specs.Outline as outlines;
ghost use Rattle.usable_facts.specs.Theorems.{cites_in};
ghost use Rattle.theorem_leaves.specs.Chapters.{name_of};
ghost use Rattle.theorem_leaves.specs.Passing.{At, IsAt, IsBase};
ghost use Rattle.theorem_leaves.specs.Theorems.{LeavesOf, IsReported, reported_unit, told_unit, passed_units};

use crate::chapter::TheoremLeaves;
use crate::citations::Citations;
use crate::home::Home;
use crate::unit::Known;
use crate::walk::Walker;
use core_expr::{Memory, Text};
use indexmap::IndexSet;
use known_facts::{Context, Statement, Table};
use proof_contexts::Leaf;
use proof_outline::{Outline, outline};
use sqlite_items::Items;
use std::alloc::Global;
use tla_ast::{Decl, OutlineFault, Place, Proof, Statement as Source, Unit, UnitKind};
/// Where the units of a module stand: the module, the definitions of all modules, and the keys of all theorems.
#[derive(Clone, Copy)]
pub struct Setting<'a> {
    pub home: Home<'a>,
    pub table: &'a Table,
    pub theorems: &'a IndexSet<u64>,
}

/// A theorem as it is written, with the place of its word THEOREM.
#[derive(Clone, Copy)]
struct Written<'a> {
    place: Place,
    name: &'a Option<Decl>,
    statement: &'a Source,
    proof: &'a Proof,
}

/// Where a pass over units is: the context between theorems, what the units have added to what is known, how many theorems stand
/// before, and those of the module so far.
#[derive(Drop)]
pub struct Reading {
    pub context: Context,
    pub adds: Items<Known>,
    pub before: u64,
    pub theorems: Items<TheoremLeaves>,
}

/// No step names.
#[tactic(auto, using(crate::proofs::Outlines::none_cited))]
fn no_names(alloc: Global) -> Result<Outline, Memory>
    ensures { IfOk result (λ o. o ≡ []) }
{
    match outline(alloc, &Proof::Missing) {
        Ok(names) => Ok(names),
        Err(OutlineFault::Memory) => Err(Memory),
        Err(OutlineFault::At { .. }) => unreachable!(),
    }
}

/// What the step names of a proof mean; nothing where they have a fault.
fn outline_of(alloc: Global, proof: &Proof) -> Result<Outline, Memory>
    ensures { IfOk result (λ o. o ≡ cites_in (outlines.outline (plain_proof proof.now))) }
{
    match outline(alloc, proof) {
        Ok(found) => Ok(found),
        Err(OutlineFault::Memory) => Err(Memory),
        Err(OutlineFault::At { .. }) => no_names(alloc),
    }
}

/// The name of a theorem, if it has one.
fn name_of(alloc: Global, name: &Option<Decl>) -> Result<Option<Text>, Memory>
    ensures { IfOk result (λ n. n ≡ name_of name.now) }
{
    match name {
        None => Ok(None),
        Some(decl) => Ok(Some(Text::of(alloc, decl.name.bytes())?)),
    }
}

impl Setting<'_> {
    /// The leaves of a proof of a statement. The context stays.
    fn leaves(
        &self,
        context: &mut Context,
        statement: &Statement,
        outline: &Outline,
        place: Place,
        proof: &Proof,
    ) -> Result<Items<Leaf>, Memory>
        requires { HasSuspects self.now.table.now }
        ensures leaves { IfOk result (LeavesOf self.now outline.now place
            proof.now statement.now (context_of context.old)) }
        ensures kept { OnOk result (context_of context.new ≡ context_of context.old) }
    {
        let alloc = self.home.alloc;
        let walker = Walker {
            home: self.home,
            table: self.table,
            outline,
        };
        let mut leaves = Items::new(alloc);
        let mark = context.mark();
        context.tell_items(alloc, None, statement.items.as_slice())?;
        let before = context.replace_goal(statement.goal.copy(alloc)?);
        walker.proof(context, place, 0, proof, &mut leaves)?;
        context.leave(mark);
        context.replace_goal(before);
        Ok(leaves)
    }

    /// A theorem with its leaves. The context stays.
    fn theorem(
        &self,
        context: &mut Context,
        before: u64,
        theorem: Written,
    ) -> Result<TheoremLeaves, Memory>
        requires { HasSuspects self.now.table.now }
        ensures reported { IfOk result (λ r. (ks : List known) → IsBase ks (context_of context.old)
            → IsReported self.now before ks theorem.entry r) }
        ensures kept { OnOk result (context_of context.new ≡ context_of context.old) }
    {
        let alloc = self.home.alloc;
        let names = outline_of(alloc, theorem.proof)?;
        let statement = self.home.statement(theorem.statement)?;
        let citations = Citations {
            home: self.home,
            outline: &names,
            theorems: self.theorems,
        };
        let mut cited = Items::new(alloc);
        citations.proof(theorem.proof, &mut cited)?;
        Ok(TheoremLeaves {
            key: self.home.theorem_key(before, theorem.name)?,
            name: name_of(alloc, theorem.name)?,
            place: theorem.place,
            cited,
            leaves: self.leaves(context, &statement, &names, theorem.place, theorem.proof)?,
        })
    }

    /// The theorem of a unit, if it is one.
    fn report(&self, reading: &mut Reading, unit: &Unit) -> Result<(), Memory>
        requires { HasSuspects self.now.table.now }
        ensures { OnOk result ((a : At) → IsAt reading.old a
            → IsAt reading.new (reported_unit self.now unit.now a)) }
    {
        let UnitKind::Theorem {
            name,
            statement,
            proof,
        } = &unit.kind
        else {
            return Ok(());
        };
        let theorem = Written {
            place: unit.place,
            name,
            statement,
            proof,
        };
        let found = self.theorem(&mut reading.context, reading.before, theorem)?;
        reading.theorems.push(found)?;
        reading.before = reading.before.checked_add(1).ok_or(Memory)?;
        Ok(())
    }

    /// What a unit adds to what is known.
    fn tell(&self, reading: &mut Reading, unit: &Unit) -> Result<(), Memory>
        ensures { OnOk result ((a : At) → IsAt reading.old a
            → IsAt reading.new (told_unit self.now unit.now a)) }
    {
        let Some(known) = self.home.unit_adds(&unit.kind)? else {
            return Ok(());
        };
        known.tell(self.home.alloc, &mut reading.context)?;
        reading.adds.push(known)?;
        Ok(())
    }

    /// Units.
    pub fn units(&self, reading: &mut Reading, units: &[Unit]) -> Result<(), Memory>
        requires { HasSuspects self.now.table.now }
        ensures { OnOk result ((a : At) → IsAt reading.old a
            → IsAt reading.new (passed_units self.now units.now a)) }
    {
        for unit in units {
            self.report(reading, unit)?;
            self.tell(reading, unit)?;
        }
        Ok(())
    }
}
