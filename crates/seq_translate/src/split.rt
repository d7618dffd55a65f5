//! Splits, gone through backwards.
ghost use Rattle.std.specs.Prelude.{◌≡◌, ◌<◌, ◌≤◌, ℕ, [], ◌∷◌, length, List, OnOk, IfOk};
ghost use Rattle.core_expr.specs.Tree.{Tree};
ghost use Rattle.term_bank.specs.Banks.{IsDistinct};
ghost use Rattle.search_definition.specs.Rules.Sides.{Both};
ghost use Rattle.search_trace.specs.Traces.{UsedUnder, AddedUnder, added_trees, result_of};
ghost use Rattle.proof_writer.specs.Written.{opens, count, tree_at};
ghost use Rattle.proof_writer.specs.Shapes.{rest_of};
ghost use Rattle.proof_trees.specs.Machine.{State, both_by, pair_of, picks, is_needed, earlier};
ghost use Rattle.proof_trees.specs.Told.{Told};
ghost use Rattle.seq_translate.specs.Sides.{taken, left, remarked};
ghost use Rattle.seq_translate.specs.States.{IsState, flags, laid};
ghost use Rattle.seq_translate.specs.declared.state.Second.{Second};

use crate::fill::fill_two;
use crate::marks::{any, clear_all, either, set_all};
use crate::news::new_ones;
use crate::rules::RuleProofs;
use crate::state::Second;
use core_expr::Memory;
use proof_writer::Writer;
use search_trace::{Added, Used};
use std::alloc::Global;

/// Takes the latest second side, where it is that of the split with this number: whether it is needed.
pub fn take(seconds: &mut Vec<Second>, number: u64) -> Result<Option<bool>, Memory>
    ensures taken { IfOk result (λ o. o ≡ taken (laid [] seconds.old.items) number) }
    ensures left { OnOk result (laid [] seconds.new.items
        ≡ left (laid [] seconds.old.items) number) }
{
    match seconds.pop() {
        None => Ok(None),
        Some(side) => {
            if side.number == number {
                Ok(Some(side.needed))
            } else {
                seconds.push(side)?;
                Ok(None)
            }
        }
    }
}

/// The marks before a split.
fn remark(marks: &mut Vec<bool>, is_used: bool, news: &[u64], named: &[u64])
    ensures { marks.new.items ≡ remarked is_used marks.old.items news.now named.now }
{
    clear_all(marks, news);
    if is_used {
        set_all(marks, named);
    }
}

/// The proof of a split from those of its sides.
#[tactic(auto, using(crate::proofs::Taken::rest_two))]
fn pair<R: RuleProofs>(
    rules: &R,
    w: &mut Writer,
    alloc: Global,
    used: &Used,
    first: &[Added],
    second: &[Added],
    found: bool,
    needed: bool,
) -> Result<(), Memory>
    requires used { UsedUnder (count w.old) used.now }
    requires first { AddedUnder (count w.old) first.now }
    requires second { AddedUnder (count w.old) second.now }
    requires told { Told (result_of w.old.trees used.now
        (Both (added_trees w.old.trees first.now) (added_trees w.old.trees second.now))).step }
    ensures more { count w.old ≤ count w.new }
    ensures same { (i : ℕ) → i < count w.old → tree_at w.new i ≡ tree_at w.old i }
    ensures ok { OnOk result (opens w.new ≡ pair_of (result_of w.old.trees used.now
        (Both (added_trees w.old.trees first.now) (added_trees w.old.trees second.now)))
        found needed (opens w.old) ∷ rest_of (rest_of (opens w.old))) }
{
    fill_two(w, alloc)?;
    if found {
        if needed {
            rules.write_two(w, alloc, used, first, second)?;
        } else {
            w.discard();
        }
    } else {
        w.discard_below()?;
    }
    Ok(())
}

/// A split with both sides done.
#[tactic(auto, using(crate::proofs::Taken::both_state))]
pub fn both<R: RuleProofs>(
    rules: &R,
    w: &mut Writer,
    alloc: Global,
    marks: &mut Vec<bool>,
    needed: bool,
    used: &Used,
    first: &[Added],
    second: &[Added],
) -> Result<(), Memory>
    requires used { UsedUnder (count w.old) used.now }
    requires first { AddedUnder (count w.old) first.now }
    requires second { AddedUnder (count w.old) second.now }
    requires told { Told (result_of w.old.trees used.now
        (Both (added_trees w.old.trees first.now) (added_trees w.old.trees second.now))).step }
    ensures more { count w.old ≤ count w.new }
    ensures same { (i : ℕ) → i < count w.old → tree_at w.new i ≡ tree_at w.old i }
    ensures ok { OnOk result ((ts : List Tree) (ss us : List Second) (s : State) → IsDistinct ts
        → UsedUnder (length ts) used.now → AddedUnder (length ts) first.now
        → AddedUnder (length ts) second.now
        → IsState ts marks.old.items ss w.old s → needed ≡ is_needed s.parts.seconds
        → laid [] us ≡ earlier s.parts.seconds → IsState ts marks.new.items us w.new
        (both_by (result_of ts used.now
        (Both (added_trees ts first.now) (added_trees ts second.now)))
        (picks (added_trees ts first.now) (flags first.now)) s)) }
{
    let news = new_ones(alloc, first)?;
    let found = any(marks.as_slice(), news.as_slice());
    let is_used = either(found, needed);
    remark(marks, is_used, news.as_slice(), used.named.as_slice());
    pair(rules, w, alloc, used, first, second, found, needed)?;
    Ok(())
}
