//! The walk over a proof.

ghost use Rattle.std.specs.Prelude.{◌≡◌, length, map, OnOk};
ghost use Rattle.tla_ast.specs.declared.unit.Step.{out-Step};
ghost use Rattle.plain_syntax.specs.Syntax.{fact_of, move_of, proof_of};
ghost use Rattle.proof_outline.specs.Outline as spec;
ghost use Rattle.proof_outline.specs.Visits as visit;

use crate::scope::Scope;
use core_expr::Memory;
use std::alloc::Global;
use std::marker::Model;
use symbol_table::Symbols;
use tla_ast::{Fact, Place, Proof, Step, StepKind};

/// Why a walk stops.
#[derive(Debug, Drop)]
pub enum Stop<'a> {
    /// Memory was not found.
    Memory,
    /// A step's name for the second time in one proof, at the second.
    Again(Place),
    /// A cited name that no step has that is seen there.
    Unseen {
        level: u128,
        label: &'a [u8],
        place: Place,
    },
}

impl<'a> From<Memory> for Stop<'a> {
    ghost use Rattle.std.specs.Prelude.{◌≡◌};
    ghost use Rattle.proof_outline.specs.declared.walk.Stop.TheVariants as stop;

    ghost from_gives = { λ _ e. e ≡ stop.Memory };

    /// Want of memory.
    fn from(_: Memory) -> Stop<'a> {
        Stop::Memory
    }
}

/// What is known at a place of a proof: the names that are seen, the number of the next step, and what cited names mean so far.
#[derive(Drop)]
pub struct Walker<'a> {
    pub scope: Scope<'a>,
    pub next: u64,
    pub cites: Symbols,
}

impl<'a> Model for Walker<'a> {
    ghost use Rattle.proof_outline.specs.Outline.{State};
    ghost use Rattle.proof_outline.specs.Outline.State.{state};

    ghost Value = { State };

    ghost view = { λ w. state w.scope w.next w.cites };
}

/// Whether a step has this name.
fn is_name_of(level: u128, label: &[u8], step: &Step) -> bool
    ensures { result ≡ visit.is_step_of (level, label.now) step.now }
{
    let own = step.label.bytes();
    own.len() > 0 && step.level == level && own == label
}

/// Whether one of these steps or of their subproofs has a name.
#[cycle(proofs)]
fn have_step(level: u128, label: &[u8], steps: &[Step]) -> bool
    ensures { result ≡ visit.any_step (level, label.now) steps.now }
{
    for step in steps {
        if is_name_of(level, label, step) || has_step(level, label, &step.proof) {
            return true;
        }
    }
    false
}

/// Whether some step of a proof has a name.
#[cycle(proofs)]
pub fn has_step(level: u128, label: &[u8], proof: &Proof) -> bool
    ensures { result ≡ spec.has_step (level, label.now) (proof_of proof.now) }
{
    match proof {
        Proof::Steps(steps) => have_step(level, label, steps.as_slice()),
        _ => false,
    }
}

impl<'a> Walker<'a> {
    /// What is known before a proof.
    pub fn new(alloc: Global) -> Walker<'a>
        ensures { result ≡ spec.start }
    {
        Walker {
            scope: Scope::new(alloc),
            next: 0,
            cites: Symbols::new(alloc),
        }
    }

    /// The number of the next step.
    fn next(&self) -> u64
        ensures { result ≡ spec.next_of self.now }
    {
        self.next
    }

    /// How many names are seen.
    fn mark(&self) -> usize
        ensures { result ≡ length (spec.seen_of self.now) }
    {
        self.scope.len()
    }

    /// Only so many of the oldest names are seen.
    fn leave(&mut self, mark: usize)
        ensures { self.new ≡ spec.left mark self.old }
    {
        self.scope.leave(mark);
    }

    /// The newest step of a name.
    fn find(&self, level: u128, label: &[u8]) -> Option<u64>
        ensures { result ≡ spec.found (level, label.now) (spec.seen_of self.now) }
    {
        self.scope.find(level, label)
    }

    /// A step gets the next number, and is seen where it has a name.
    fn enter(&mut self, level: u128, label: &'a [u8]) -> Result<(), Memory>
        ensures { OnOk result (self.new ≡ spec.entered level label.now self.old) }
    {
        let number = self.next;
        self.next = number.checked_add(1).ok_or(Memory)?;
        if label.len() > 0 {
            self.scope.enter(level, label, number)?;
        }
        Ok(())
    }

    /// A cited name gets its meaning.
    fn note(&mut self, place: Place, number: u64) -> Result<(), Memory>
        ensures { OnOk result (self.new ≡ visit.noted_at place number self.old) }
    {
        self.cites.note(place, number)
    }

    /// A step's name is not one of an earlier step of the same proof, of which the first has this number.
    fn fresh(&self, first: u64, step: &Step) -> Result<(), Stop<'a>>
        ensures { visit.Does (spec.fresh first (out-Step step.now).level (out-Step step.now).label
            (out-Step step.now).place self.now) result self.now }
    {
        let label = step.label.bytes();
        if label.len() == 0 {
            return Ok(());
        }
        match self.find(step.level, label) {
            Some(number) if number >= first => Err(Stop::Again(step.place)),
            _ => Ok(()),
        }
    }

    /// A cited name.
    fn cite(&mut self, level: u128, label: &'a [u8], place: Place) -> Result<(), Stop<'a>>
        ensures { visit.Does (spec.cited (spec.found (level, label.entry.now)
            (spec.seen_of self.old)) (level, label.entry.now) place self.old) result self.new }
    {
        match self.find(level, label) {
            Some(number) => Ok(self.note(place, number)?),
            None => Err(Stop::Unseen {
                level,
                label,
                place,
            }),
        }
    }

    /// A fact.
    fn fact(&mut self, fact: &'a Fact) -> Result<(), Stop<'a>>
        ensures { visit.Does (spec.fact_names (fact_of fact.entry.now) self.old)
            result self.new }
    {
        match fact {
            Fact::StepName {
                level,
                label,
                place,
            } => self.cite(*level, label.bytes(), *place),
            _ => Ok(()),
        }
    }

    /// Facts, one after another.
    fn facts(&mut self, facts: &'a [Fact]) -> Result<(), Stop<'a>>
        ensures { visit.Does (spec.facts_names (map fact_of facts.entry.now) self.old)
            result self.new }
    {
        for fact in facts {
            self.fact(fact)?;
        }
        Ok(())
    }

    /// What a step cites itself.
    fn step_kind(&mut self, kind: &'a StepKind) -> Result<(), Stop<'a>>
        ensures { visit.Does (spec.move_names (move_of kind.entry.now) self.old) result self.new }
    {
        match kind {
            StepKind::Add { facts, defs: _ } => self.facts(facts.as_slice()),
            StepKind::Hide { facts, defs: _ } => self.facts(facts.as_slice()),
            _ => Ok(()),
        }
    }

    /// A step and its proof, in a proof whose first step has this number.
    #[cycle(proofs)]
    fn step(&mut self, first: u64, step: &'a Step) -> Result<(), Stop<'a>>
        ensures { visit.Does (visit.step_names first step.entry.now self.old) result self.new }
    {
        self.fresh(first, step)?;
        self.step_kind(&step.kind)?;
        self.enter(step.level, step.label.bytes())?;
        self.proof(&step.proof)
    }

    /// Steps, one after another, in a proof whose first step has this number.
    #[cycle(proofs)]
    fn steps(&mut self, first: u64, steps: &'a [Step]) -> Result<(), Stop<'a>>
        ensures { visit.Does (visit.each_step first steps.entry.now self.old) result self.new }
    {
        for step in steps {
            self.step(first, step)?;
        }
        Ok(())
    }

    /// A proof, of a step or of a theorem. The names of its steps are not seen after it.
    #[cycle(proofs)]
    pub fn proof(&mut self, proof: &'a Proof) -> Result<(), Stop<'a>>
        ensures { visit.Does (spec.proof_names (proof_of proof.entry.now) self.old) result self.new }
    {
        match proof {
            Proof::By {
                place: _,
                only: _,
                facts,
                defs: _,
            } => self.facts(facts.as_slice()),
            Proof::Steps(steps) => {
                let mark = self.mark();
                let first = self.next();
                self.steps(first, steps.as_slice())?;
                self.leave(mark);
                Ok(())
            }
            _ => Ok(()),
        }
    }
}
