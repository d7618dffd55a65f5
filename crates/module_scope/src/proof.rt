//! Proofs.

ghost use Rattle.std.specs.Prelude.{◌≡◌, fold, OnOk};
ghost use Rattle.plain_syntax.specs.Syntax.{proof_of};
ghost use Rattle.module_scope.specs.Known.{book_of};
ghost use Rattle.module_scope.specs.Names as spec;
ghost use Rattle.module_scope.specs.Visits as visit;

use crate::walker::Walker;
use core_expr::Memory;
use std::alloc::Global;
use tla_ast::{Proof, Step, StepKind};

impl<'a> Walker<'a> {
    /// A step and its proof. What SUFFICES and PICK declare is not seen in their own proofs, but after them.
    #[cycle(proofs)]
    fn step(&mut self, alloc: Global, step: &'a Step) -> Result<(), Memory>
        ensures { OnOk result (book_of self.new ≡ visit.step_names (book_of self.old) step.now) }
    {
        match &step.kind {
            StepKind::Assert(statement) => {
                let mark = self.mark();
                self.statement(alloc, statement)?;
                self.proof(alloc, &step.proof)?;
                self.leave(mark);
                Ok(())
            }
            StepKind::Suffices(statement) => {
                let mark = self.mark();
                self.statement(alloc, statement)?;
                let names = self.withdraw(alloc, mark)?;
                self.proof(alloc, &step.proof)?;
                self.restore(names)
            }
            StepKind::Pick(groups, node) => {
                let mark = self.mark();
                self.choose(alloc, groups.as_slice())?;
                self.alone(alloc, node)?;
                let names = self.withdraw(alloc, mark)?;
                self.proof(alloc, &step.proof)?;
                self.restore(names)
            }
            StepKind::Case(node) => {
                self.alone(alloc, node)?;
                self.proof(alloc, &step.proof)
            }
            StepKind::Have(node) => {
                self.alone(alloc, node)?;
                self.proof(alloc, &step.proof)
            }
            StepKind::Take(groups) => {
                self.choose(alloc, groups.as_slice())?;
                self.proof(alloc, &step.proof)
            }
            StepKind::Witness(nodes) => {
                self.each_alone(alloc, nodes.as_slice())?;
                self.proof(alloc, &step.proof)
            }
            StepKind::Define(defs) => {
                self.define_all(alloc, defs.as_slice())?;
                self.proof(alloc, &step.proof)
            }
            StepKind::Add { facts, defs } => {
                self.facts(alloc, facts.as_slice(), defs.as_slice())?;
                self.proof(alloc, &step.proof)
            }
            StepKind::Hide { facts, defs } => {
                self.facts(alloc, facts.as_slice(), defs.as_slice())?;
                self.proof(alloc, &step.proof)
            }
            StepKind::Qed => self.proof(alloc, &step.proof),
        }
    }

    /// Steps, one after another.
    #[cycle(proofs)]
    fn steps(&mut self, alloc: Global, steps: &'a [Step]) -> Result<(), Memory>
        ensures { OnOk result (book_of self.new
            ≡ fold visit.step_names (book_of self.old) steps.now) }
    {
        for step in steps {
            self.step(alloc, step)?;
        }
        Ok(())
    }

    /// A proof. What its steps declare is not seen after it.
    #[cycle(proofs)]
    pub fn proof(&mut self, alloc: Global, proof: &'a Proof) -> Result<(), Memory>
        ensures { OnOk result (book_of self.new
            ≡ spec.proof_names (proof_of proof.now) (book_of self.old)) }
    {
        match proof {
            Proof::By {
                place: _,
                only: _,
                facts,
                defs,
            } => { self.facts(alloc, facts.as_slice(), defs.as_slice()) }
            Proof::Steps(steps) => {
                let mark = self.mark();
                self.steps(alloc, steps.as_slice())?;
                self.leave(mark);
                Ok(())
            }
            _ => Ok(()),
        }
    }
}
