//! A turn, gone through backwards.
ghost use Rattle.std.specs.Prelude.{◌≡◌, ◌<◌, ◌≤◌, ℕ, length, List, OnOk};
ghost use Rattle.core_expr.specs.Tree.{Tree};
ghost use Rattle.term_bank.specs.Banks.{IsDistinct};
ghost use Rattle.search_definition.specs.Rules.Sides.{Both};
ghost use Rattle.search_trace.specs.Traces.{TurnUnder, TurnsUnder, UsedUnder, AddedUnder, added_trees, result_of, move_of, moves_of};
ghost use Rattle.proof_writer.specs.Written.{count, tree_at};
ghost use Rattle.proof_trees.specs.Machine.{State, split_by, is_of, picks, turned};
ghost use Rattle.proof_trees.specs.Told.{Told, MoveTold};
ghost use Rattle.seq_translate.specs.States.{IsState, flags};

use crate::rules::RuleProofs;
use crate::split::{both, take};
use crate::state::Second;
use crate::turn::{one, resume, shut};
use core_expr::Memory;
use proof_writer::Writer;
use search_trace::{Added, Turn, Used};
use std::alloc::Global;

/// A split: one whose second side has steps, or one whose first side alone has.
#[tactic(auto, using(crate::proofs::Taken::split_none))]
fn split<R: RuleProofs>(
    rules: &R,
    w: &mut Writer,
    alloc: Global,
    marks: &mut Vec<bool>,
    seconds: &mut Vec<Second>,
    number: u64,
    used: &Used,
    first: &[Added],
    second: &[Added],
) -> Result<(), Memory>
    requires used { UsedUnder (count w.old) used.now }
    requires first { AddedUnder (count w.old) first.now }
    requires second { AddedUnder (count w.old) second.now }
    requires told { Told (result_of w.old.trees used.now
        (Both (added_trees w.old.trees first.now) (added_trees w.old.trees second.now))).step }
    ensures more { count w.old ≤ count w.new }
    ensures same { (i : ℕ) → i < count w.old → tree_at w.new i ≡ tree_at w.old i }
    ensures ok { OnOk result ((ts : List Tree) (s : State) → IsDistinct ts
        → UsedUnder (length ts) used.now → AddedUnder (length ts) first.now
        → AddedUnder (length ts) second.now
        → IsState ts marks.old.items seconds.old.items w.old s
        → IsState ts marks.new.items seconds.new.items w.new
        (split_by (is_of s.parts.seconds number)
        (result_of ts used.now (Both (added_trees ts first.now) (added_trees ts second.now)))
        (picks (added_trees ts first.now) (flags first.now)) s)) }
{
    match take(seconds, number)? {
        Some(needed) => both(rules, w, alloc, marks, needed, used, first, second),
        None => Ok(()),
    }
}

/// The turn with this number, from 1: from the state that the turns behind it leave, that before it.
pub fn turn_back<R: RuleProofs>(
    rules: &R,
    w: &mut Writer,
    alloc: Global,
    marks: &mut Vec<bool>,
    seconds: &mut Vec<Second>,
    turns: &[Turn],
    number: u64,
    turn: &Turn,
) -> Result<(), Memory>
    requires under { TurnUnder (count w.old) turn.now }
    requires told { MoveTold (move_of w.old.trees turn.now) }
    ensures more { count w.old ≤ count w.new }
    ensures same { (i : ℕ) → i < count w.old → tree_at w.new i ≡ tree_at w.old i }
    ensures ok { OnOk result ((ts : List Tree) (s : State) → IsDistinct ts
        → TurnsUnder (length ts) turns.now → TurnUnder (length ts) turn.now
        → IsState ts marks.old.items seconds.old.items w.old s
        → IsState ts marks.new.items seconds.new.items w.new
        (turned (moves_of ts turns.now) number (move_of ts turn.now) s)) }
{
    match turn {
        Turn::Shut(case, entries, next) => {
            resume(alloc, marks, seconds, turns, *next)?;
            shut(rules, w, alloc, marks, *case, entries.as_slice())
        }
        Turn::Alone(used, added) => one(rules, w, alloc, marks, used, added.as_slice()),
        Turn::Split(used, first, second) => split(
            rules,
            w,
            alloc,
            marks,
            seconds,
            number,
            used,
            first.as_slice(),
            second.as_slice(),
        ),
    }
}
