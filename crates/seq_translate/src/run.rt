//! All turns, gone through backwards.
ghost use Rattle.std.specs.Prelude.{◌≡◌, ◌<◌, ◌≤◌, ℕ, false, [], OnOk};
ghost use Rattle.term_bank.specs.Banks.{IsDistinct};
ghost use Rattle.search_trace.specs.Traces.{TurnsUnder, moves_of};
ghost use Rattle.proof_writer.specs.Written.{opens, count, tree_at};
ghost use Rattle.proof_trees.specs.Machine.{back};
ghost use Rattle.proof_trees.specs.Told.{MovesTold};
ghost use Rattle.seq_translate.specs.Marks.{AreMarks};

use crate::back::turn_back;
use crate::rules::RuleProofs;
use core_expr::Memory;
use proof_writer::Writer;
use search_trace::Turn;
use std::alloc::Global;

/// All turns, from the last to the first, where no formula is marked and no proof is open yet: the open proofs are those that
/// the loop of the definition ends with.
pub fn run<R: RuleProofs>(
    rules: &R,
    w: &mut Writer,
    alloc: Global,
    marks: &mut Vec<bool>,
    turns: &[Turn],
) -> Result<(), Memory>
    requires distinct { IsDistinct w.old.trees }
    requires under { TurnsUnder (count w.old) turns.now }
    requires told { MovesTold (moves_of w.old.trees turns.now) }
    requires none { opens w.old ≡ [] }
    requires marks { AreMarks w.old.trees marks.old.items (λ f. false) }
    ensures more { count w.old ≤ count w.new }
    ensures same { (i : ℕ) → i < count w.old → tree_at w.new i ≡ tree_at w.old i }
    ensures ok { OnOk result (opens w.new
        ≡ (back (moves_of w.old.trees turns.now) 1 (moves_of w.old.trees turns.now)).parts.proofs) }
{
    let mut seconds = Vec::new(alloc);
    for done in 0..turns.len() {
        let place = turns.len() - 1 - done;
        let number = place as u64 + 1;
        turn_back(
            rules,
            w,
            alloc,
            marks,
            &mut seconds,
            turns,
            number,
            &turns[place],
        )?;
    }
    Ok(())
}
