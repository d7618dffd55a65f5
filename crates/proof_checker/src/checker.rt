//! Whether a proof is correct.
ghost use Rattle.std.specs.Prelude.{◌≡◌, ◌↔◌, ◌∷◌, [], IfOk, OnOk, IsTrue};
ghost use Rattle.core_expr.specs.Heads.{IsCanonical};
ghost use Rattle.core_expr.specs.Put.{IsScoped};
ghost use Rattle.term_bank.specs.Banks.{Extends};
ghost use Rattle.seq_calculus.specs.Calculus.{Correct, AllClosed};
ghost use Rattle.seq_calculus.specs.Steps.{proof_of};
ghost use Rattle.proof_checker.specs.Runs.{AreCanonical, AreFacts};

use crate::nodes::add_table;
use crate::run::run;
use crate::side::Side;
use core_expr::{Canon, Expr, Memory};
use seq_calculus::SeqProof;
use std::alloc::Global;
use term_bank::Bank;

/// Puts the facts on a side without formulas, the last first.
fn put_facts(bank: &mut Bank, alloc: Global, left: &mut Side, facts: &[Expr]) -> Result<(), Memory>
    requires canonical { AreCanonical facts.now }
    requires closed { AllClosed facts.now }
    requires none { left.old ≡ record { trail = []; base = 0 } }
    ensures extends { Extends bank.old bank.new }
    ensures ok { OnOk result (AreFacts bank.new left.new facts.now) }
{
    for i in 0..facts.len() {
        let fact = bank.intern(alloc, &facts[facts.len() - 1 - i])?;
        left.trail.push(fact)?;
    }
    Ok(())
}

/// Whether the proof is correct for the canonical form: its root proves the goal from the facts. The symbols of the facts and
/// the goal are those of a canonical form, they hold no temporal mark, and they are closed. The time is linear in the proof's
/// lists, on the average of the hashes; no proof is too deep.
pub fn check(alloc: Global, proof: &SeqProof, canon: &Canon) -> Result<bool, Memory>
    requires canonical_facts { AreCanonical canon.now.facts }
    requires canonical_goal { IsCanonical canon.now.goal }
    requires closed_facts { AllClosed canon.now.facts }
    requires closed_goal { IsScoped 0 canon.now.goal }
    ensures { IfOk result (λ b.
        IsTrue b ↔ Correct (proof_of proof.now) canon.now.facts (canon.now.goal ∷ [])) }
{
    let mut bank = Bank::new(alloc)?;
    let places = add_table(&mut bank, alloc, proof.nodes())?;
    let mut left = Side::new(alloc);
    put_facts(&mut bank, alloc, &mut left, canon.facts.as_slice())?;
    let goal = bank.intern(alloc, &canon.goal)?;
    let steps = proof.steps();
    let checked = run(&mut bank, alloc, steps, places.as_slice(), &mut left, goal)?;
    Ok(checked)
}
