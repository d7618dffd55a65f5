//! The turns of a search, gone through backwards.
ghost use Rattle.std.specs.Prelude.{◌≡◌, ◌<◌, ◌≤◌, ℕ, length, map, List, OnOk};
ghost use Rattle.core_expr.specs.Tree.{Tree};
ghost use Rattle.term_bank.specs.Banks.{IsDistinct};
ghost use Rattle.term_bank.specs.Banks.{tree_at as at};
ghost use Rattle.search_definition.specs.Rules.Sides.{Alone};
ghost use Rattle.search_trace.specs.Traces.{AreUnder, UsedUnder, AddedUnder, TurnsUnder, added_trees, result_of, moves_of};
ghost use Rattle.proof_writer.specs.Written.{Written, count, tree_at};
ghost use Rattle.proof_trees.specs.Machine.{State, resumed, shut_by, one_by, picks};
ghost use Rattle.proof_trees.specs.Told.{Told};
ghost use Rattle.seq_translate.specs.States.{IsState, flags};
ghost use Rattle.seq_translate.specs.declared.state.Second.{Second};

use crate::fill::fill_one;
use crate::marks::{any, clear_all, set_all};
use crate::news::{new_ones, second_news};
use crate::rules::RuleProofs;
use crate::state::Second;
use core_expr::Memory;
use proof_writer::Writer;
use search_definition::Clash;
use search_trace::{Added, Turn, Used};
use std::alloc::Global;

/// The second side of a split is done with the turns behind, where one is resumed.
pub fn resume(
    alloc: Global,
    marks: &mut Vec<bool>,
    seconds: &mut Vec<Second>,
    turns: &[Turn],
    next: Option<u64>,
) -> Result<(), Memory>
    ensures { OnOk result ((ts : List Tree) (w : Written) (s : State) → IsDistinct ts
        → TurnsUnder (length ts) turns.now → IsState ts marks.old.items seconds.old.items w s
        → IsState ts marks.new.items seconds.new.items w (resumed (moves_of ts turns.now) next s)) }
{
    if let Some(number) = next {
        let news = second_news(alloc, turns, number)?;
        let needed = any(marks.as_slice(), news.as_slice());
        clear_all(marks, news.as_slice());
        seconds.push(Second { number, needed })?;
    }
    Ok(())
}

/// A closing.
#[tactic(auto, using(crate::proofs::Newly::under_below, crate::proofs::Stepped::shut_state))]
pub fn shut<R: RuleProofs>(
    rules: &R,
    w: &mut Writer,
    alloc: Global,
    marks: &mut Vec<bool>,
    case: Clash,
    entries: &[u64],
) -> Result<(), Memory>
    requires { AreUnder (count w.old) entries.now }
    ensures more { count w.old ≤ count w.new }
    ensures same { (i : ℕ) → i < count w.old → tree_at w.new i ≡ tree_at w.old i }
    ensures ok { OnOk result ((ts : List Tree) (ss : List Second) (s : State) → IsDistinct ts
        → AreUnder (length ts) entries.now → IsState ts marks.old.items ss w.old s
        → IsState ts marks.new.items ss w.new
        (shut_by (record { clash = case; entries = map (at ts) entries.now }) s)) }
{
    set_all(marks, entries);
    rules.close(w, alloc, case, entries)?;
    Ok(())
}

/// A rule with one side.
#[tactic(auto, using(crate::proofs::Stepped::one_state, crate::proofs::Stepped::idle_state))]
pub fn one<R: RuleProofs>(
    rules: &R,
    w: &mut Writer,
    alloc: Global,
    marks: &mut Vec<bool>,
    used: &Used,
    added: &[Added],
) -> Result<(), Memory>
    requires used { UsedUnder (count w.old) used.now }
    requires added { AddedUnder (count w.old) added.now }
    requires told { Told
        (result_of w.old.trees used.now (Alone (added_trees w.old.trees added.now))).step }
    ensures more { count w.old ≤ count w.new }
    ensures same { (i : ℕ) → i < count w.old → tree_at w.new i ≡ tree_at w.old i }
    ensures ok { OnOk result ((ts : List Tree) (ss : List Second) (s : State) → IsDistinct ts
        → UsedUnder (length ts) used.now → AddedUnder (length ts) added.now
        → IsState ts marks.old.items ss w.old s → IsState ts marks.new.items ss w.new
        (one_by (result_of ts used.now (Alone (added_trees ts added.now)))
        (picks (added_trees ts added.now) (flags added.now)) s)) }
{
    let news = new_ones(alloc, added)?;
    if any(marks.as_slice(), news.as_slice()) {
        fill_one(w, alloc)?;
        rules.write_one(w, alloc, used, added)?;
        clear_all(marks, news.as_slice());
        set_all(marks, used.named.as_slice());
    }
    Ok(())
}
