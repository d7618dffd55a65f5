//! The flat proof of an obligation, from the turns of a search.
ghost use Rattle.std.specs.Prelude.{◌≡◌, ◌<◌, length, replicate, false, OnOk, IfOk};
ghost use Rattle.term_bank.specs.Banks.{tree_at as at};
ghost use Rattle.seq_calculus.specs.Steps.{proof_of};
ghost use Rattle.search_trace.specs.Traces.{TurnsUnder, moves_of};
ghost use Rattle.proof_writer.specs.Written.{opens, count, tree_at, IsLast};
ghost use Rattle.proof_writer.specs.Shapes.{neg_left, first_of};
ghost use Rattle.proof_trees.specs.Told.{MovesTold};
ghost use Rattle.seq_translate.specs.Translated.{IsTranslated};

use crate::fill::fill_one;
use crate::rules::RuleProofs;
use crate::run::run;
use core_expr::Memory;
use proof_trees::loop_proves;
use proof_writer::{Inference, Writer};
use search_trace::Turn;
use seq_calculus::SeqProof;
use std::alloc::Global;
use term_bank::Bank;
use term_shapes::Shape;

/// No formula is marked.
fn unmarked(alloc: Global, count: usize) -> Result<Vec<bool>, Memory>
    ensures { IfOk result (λ v. v.items ≡ replicate count false) }
{
    let marks = vec![in alloc; false; count]?;
    Ok(marks)
}

/// From a proof with the goal's Not on the left, one with the goal on the right.
fn end(w: &mut Writer, alloc: Global, goal: u64) -> Result<(), Memory>
    requires { goal < count w.old }
    ensures ok { OnOk result (first_of (opens w.new)
        ≡ neg_left (tree_at w.old goal) (first_of (opens w.old))) }
    ensures last { OnOk result (IsLast w.new) }
{
    fill_one(w, alloc)?;
    let not = w.make(alloc, Shape::Not(goal))?;
    w.infer(alloc, Inference::Axiom(goal))?;
    w.infer(alloc, Inference::NotRight(goal))?;
    w.infer(alloc, Inference::Cut(not))?;
    Ok(())
}

/// The flat proof of an obligation, from the turns of a search that ended closed. The numbers in the turns, and `goal`, are
/// those of formulas and terms in the bank. For each obligation with this goal whose search ended closed with the steps that
/// the turns stand for, the proof is correct. An `Err` is want of memory.
#[tactic(auto, using(crate::proofs::Proved::none_marked))]
pub fn translate<R: RuleProofs>(
    rules: &R,
    alloc: Global,
    bank: Bank,
    turns: &[Turn],
    goal: u64,
) -> Result<SeqProof, Memory>
    requires goal { goal < length bank }
    requires under { TurnsUnder (length bank) turns.now }
    requires told { MovesTold (moves_of bank turns.now) }
    ensures { IfOk result (λ p. IsTranslated bank turns.now (at bank goal) (proof_of p)) }
{
    loop_proves();
    let count = bank.count() as usize;
    let mut w = Writer::new(alloc, bank);
    let mut marks = unmarked(alloc, count)?;
    run(rules, &mut w, alloc, &mut marks, turns)?;
    end(&mut w, alloc, goal)?;
    let proof = w.finish(alloc)?;
    Ok(proof)
}
