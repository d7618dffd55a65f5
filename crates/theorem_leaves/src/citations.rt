//! Which theorems are cited.

ghost use Rattle.std.specs.Prelude.{◌≡◌, OnOk, IfOk};
ghost use Rattle.proof_contexts.specs.Expansion.{has_number};
ghost use Rattle.theorem_leaves.specs.Citing.{Cites, CitesAll, CitesFacts, CitesStep, goes_on};

use crate::home::Home;
use core_expr::Memory;
use indexmap::IndexSet;
use proof_outline::Outline;
use sqlite_items::Items;
use tla_ast::{Fact, Proof, Step, StepKind};
/// Where citations are looked for: the theorem's module, what its step names mean, and the keys of all theorems.
#[derive(Clone, Copy)]
pub struct Citations<'a> {
    pub home: Home<'a>,
    pub outline: &'a Outline,
    pub theorems: &'a IndexSet<u64>,
}

impl Citations<'_> {
    /// Whether a key is a theorem's.
    #[tactic(auto, using(crate::proofs::Gathered::among_is))]
    fn is_theorem(&self, key: u64) -> bool
        ensures { result ≡ has_number self.now.theorems.now.keys key }
    {
        self.theorems.contains(&key)
    }

    /// The cited theorems of facts.
    fn facts(&self, facts: &[Fact], found: &mut Items<u64>) -> Result<(), Memory>
        ensures { OnOk result (CitesFacts self.now facts.now found.old found.new) }
    {
        let keys = self.home.hidden(self.outline, facts)?;
        for key in keys.as_slice() {
            if self.is_theorem(*key) {
                found.push(*key)?;
            }
        }
        Ok(())
    }

    /// The cited theorems of a step. Says whether it is not QED.
    #[cycle(proofs)]
    fn step(&self, step: &Step, found: &mut Items<u64>) -> Result<bool, Memory>
        ensures cites { OnOk result (CitesStep self.now step.now found.old found.new) }
        ensures on { IfOk result (λ on. on ≡ goes_on step.now) }
    {
        match &step.kind {
            StepKind::Qed => {
                self.proof(&step.proof, found)?;
                Ok(false)
            }
            StepKind::Assert(_)
            | StepKind::Case(_)
            | StepKind::Suffices(_)
            | StepKind::Pick(_, _) => {
                self.proof(&step.proof, found)?;
                Ok(true)
            }
            StepKind::Add { facts, defs: _ } => {
                self.facts(facts.as_slice(), found)?;
                Ok(true)
            }
            _ => Ok(true),
        }
    }

    /// The cited theorems of steps.
    #[cycle(proofs)]
    fn steps(&self, steps: &[Step], found: &mut Items<u64>) -> Result<(), Memory>
        ensures { OnOk result (CitesAll self.now steps.now found.old found.new) }
    {
        for step in steps {
            if !self.step(step, found)? {
                return Ok(());
            }
        }
        Ok(())
    }

    /// The keys of the theorems that a proof cites, behind others.
    #[cycle(proofs)]
    pub fn proof(&self, proof: &Proof, found: &mut Items<u64>) -> Result<(), Memory>
        ensures { OnOk result (Cites self.now proof.now found.old found.new) }
    {
        match proof {
            Proof::By {
                place: _,
                only: _,
                facts,
                defs: _,
            } => self.facts(facts.as_slice(), found),
            Proof::Steps(steps) => self.steps(steps.as_slice(), found),
            _ => Ok(()),
        }
    }
}
