//! The definitions of modules.

ghost use Rattle.std.specs.Prelude.{◌≡◌, ◌++◌, ◌∷◌, [], map, IfOk, OnOk};
ghost use Rattle.symbol_table.specs.Scoped.{entry_of};
ghost use Rattle.plain_syntax.specs.Syntax as syntax;
ghost use Rattle.usable_facts.specs.Definitions as spec;
ghost use Rattle.theorem_leaves.specs.Homes.{means, entries};
ghost use Rattle.theorem_leaves.specs.Definitions as own;

use crate::home::Home;
use core_expr::Memory;
use obligation::Definition;
use prime_expand::body_of;
use std::alloc::Global;
use symbol_table::Scoped;
use tla_ast::{Def, Module, Proof, Step, StepKind, Unit, UnitKind};

impl Home<'_> {
    /// The level of a declaration; 0 past the last.
    fn level(&self, number: u64) -> u64
        ensures { result ≡ (entry_of (entries self.now) number).level }
    {
        match self.scoped.entry(number) {
            Some(entry) => entry.level,
            None => 0,
        }
    }

    /// Appends a definition with its body, or that of its prime.
    fn push(&self, found: &mut Vec<Definition>, def: &Def, primed: bool) -> Result<(), Memory>
        ensures { OnOk result (found.new.items
            ≡ found.old.items ++ own.made self.now primed def.now ∷ []) }
    {
        let (symbol, body) = body_of(self.alloc, self.scoped, self.module, def, primed)?;
        found.push(Definition { symbol, body })?;
        Ok(())
    }

    /// Appends what a definition is: nothing where its name has no number.
    fn push_definition(&self, found: &mut Vec<Definition>, def: &Def) -> Result<(), Memory>
        ensures { OnOk result (found.new.items ≡ found.old.items ++ own.own self.now def.now) }
    {
        let Some(number) = self.meaning(def.place) else {
            return Ok(());
        };
        self.push(found, def, false)?;
        if self.level(number) == 1 {
            self.push(found, def, true)?;
        }
        Ok(())
    }

    /// Appends what definitions are.
    fn push_each(&self, found: &mut Vec<Definition>, defs: &[Def]) -> Result<(), Memory>
        ensures { OnOk result (found.new.items ≡ found.old.items
            ++ spec.each_definition (entries self.now) (means self.now)
            (syntax.each_def defs.now)) }
    {
        for def in defs {
            self.push_definition(found, def)?;
        }
        Ok(())
    }

    /// Appends the definitions that a step makes.
    fn push_kind(&self, found: &mut Vec<Definition>, kind: &StepKind) -> Result<(), Memory>
        ensures { OnOk result (found.new.items ≡ found.old.items
            ++ spec.in_move (entries self.now) (means self.now) (syntax.move_of kind.now)) }
    {
        match kind {
            StepKind::Define(defs) => self.push_each(found, defs.as_slice()),
            _ => Ok(()),
        }
    }

    /// Appends the definitions of steps and of their subproofs.
    #[cycle(proofs)]
    fn push_steps(&self, found: &mut Vec<Definition>, steps: &[Step]) -> Result<(), Memory>
        ensures { OnOk result (found.new.items
            ≡ found.old.items ++ own.in_each self.now steps.now) }
    {
        for step in steps {
            self.push_kind(found, &step.kind)?;
            self.push_proof(found, &step.proof)?;
        }
        Ok(())
    }

    /// Appends the definitions of a proof.
    #[cycle(proofs)]
    fn push_proof(&self, found: &mut Vec<Definition>, proof: &Proof) -> Result<(), Memory>
        ensures { OnOk result (found.new.items ≡ found.old.items
            ++ spec.in_proof (entries self.now) (means self.now) (syntax.proof_of proof.now)) }
    {
        match proof {
            Proof::Steps(steps) => self.push_steps(found, steps.as_slice()),
            _ => Ok(()),
        }
    }

    /// Appends the definitions of a unit.
    fn push_unit(&self, found: &mut Vec<Definition>, unit: &Unit) -> Result<(), Memory>
        ensures { OnOk result (found.new.items ≡ found.old.items
            ++ spec.in_unit (entries self.now) (means self.now) (syntax.kind_of unit.now.kind)) }
    {
        match &unit.kind {
            UnitKind::Define(def) => self.push_definition(found, def),
            UnitKind::Theorem {
                name: _,
                statement: _,
                proof,
            } => self.push_proof(found, proof),
            _ => Ok(()),
        }
    }

    /// Appends the definitions of units.
    fn push_units(&self, found: &mut Vec<Definition>, units: &[Unit]) -> Result<(), Memory>
        ensures { OnOk result (found.new.items ≡ found.old.items ++ spec.in_units (entries self.now)
            (means self.now) (map syntax.unit_of units.now)) }
    {
        for unit in units {
            self.push_unit(found, unit)?;
        }
        Ok(())
    }
}

/// The definitions of modules in the order of the text, those of DEFINE steps in proofs among them: of each its symbol and its
/// body, and those of its prime where its level is 1.
pub fn definitions(
    alloc: Global,
    scoped: &Scoped,
    modules: &[Module],
) -> Result<Vec<Definition>, Memory>
    ensures { IfOk result (λ ds. ds.items
        ≡ spec.definitions_of (map syntax.module_of modules.now) scoped.now) }
{
    let mut found = Vec::new(alloc);
    for (i, module) in modules.iter().enumerate() {
        let home = Home {
            alloc,
            scoped,
            module: i as u64,
        };
        home.push_units(&mut found, module.units.as_slice())?;
    }
    Ok(found)
}
