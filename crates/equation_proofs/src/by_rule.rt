//! The proof of a rule from those of its sides, by the rule.
ghost use Rattle.std.specs.Prelude.{◌≡◌, ◌<◌, ◌≤◌, [], ◌∷◌, ℕ, length, OnOk};
ghost use Rattle.search_definition.specs.Rules.Sides.{Alone, Both};
ghost use Rattle.search_trace.specs.Traces.{UsedUnder, AddedUnder, added_trees, result_of};
ghost use Rattle.proof_writer.specs.Written.{opens, count, tree_at};
ghost use Rattle.proof_writer.specs.Shapes.{first_of, second_of, rest_of};
ghost use Rattle.proof_trees.specs.By.{by};
ghost use Rattle.proof_trees.specs.Told.{Told};

use crate::sides::{one_side, two_sides};
use core_expr::Memory;
use proof_writer::Writer;
use search_trace::{Added, Used};
use std::alloc::Global;

/// A rule with one side, which adds these formulas.
pub fn write_one(w: &mut Writer, alloc: Global, used: &Used, added: &[Added]) -> Result<(), Memory>
    requires used { UsedUnder (count w.old) used.now }
    requires added { AddedUnder (count w.old) added.now }
    requires told { Told
        (result_of w.old.trees used.now (Alone (added_trees w.old.trees added.now))).step }
    requires some { 1 ≤ length (opens w.old) }
    ensures more { count w.old ≤ count w.new }
    ensures same { (i : ℕ) → i < count w.old → tree_at w.new i ≡ tree_at w.old i }
    ensures ok { OnOk result (opens w.new
        ≡ by (result_of w.old.trees used.now (Alone (added_trees w.old.trees added.now)))
        (first_of (opens w.old) ∷ []) ∷ rest_of (opens w.old)) }
{
    let named = used.named.as_slice();
    let others = &named[1..];
    let terms = used.terms.as_slice();
    one_side(w, alloc, used.rule, named[0], others, terms, added)
}

/// A split, which adds these formulas on its sides.
pub fn write_two(
    w: &mut Writer,
    alloc: Global,
    used: &Used,
    first: &[Added],
    second: &[Added],
) -> Result<(), Memory>
    requires used { UsedUnder (count w.old) used.now }
    requires first { AddedUnder (count w.old) first.now }
    requires second { AddedUnder (count w.old) second.now }
    requires told { Told (result_of w.old.trees used.now
        (Both (added_trees w.old.trees first.now) (added_trees w.old.trees second.now))).step }
    requires some { 2 ≤ length (opens w.old) }
    ensures more { count w.old ≤ count w.new }
    ensures same { (i : ℕ) → i < count w.old → tree_at w.new i ≡ tree_at w.old i }
    ensures ok { OnOk result (opens w.new ≡ by (result_of w.old.trees used.now
        (Both (added_trees w.old.trees first.now) (added_trees w.old.trees second.now)))
        (first_of (opens w.old) ∷ second_of (opens w.old) ∷ [])
        ∷ rest_of (rest_of (opens w.old))) }
{
    let named = used.named.as_slice();
    let others = &named[1..];
    let terms = used.terms.as_slice();
    two_sides(w, alloc, used.rule, named[0], others, terms, first, second)
}
