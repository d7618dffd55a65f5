//! Theorems with what their leaves come to.

ghost use Rattle.std.specs.Prelude.{◌≡◌, IfOk};
ghost use Rattle.leaf_jobs.specs.Stopping.{stops};
ghost use Rattle.leaf_jobs.specs.Filling.{next_shown, rest_shown, shown_by, rest_by, leaf_by, leaf_step, leaves_by, theorem_with, theorem_step, theorems_by, module_step, modules_by};

use core_expr::{Memory, Text};
use proof_contexts::{Leaf, LeafKind};
use sqlite_items::Items;
use status_report::{LeafIn, ModuleIn, Shown, TheoremIn};
use std::alloc::Global;
use std::vec::IntoIter;
use theorem_leaves::{Chapter, TheoremLeaves};

/// The next that is shown.
fn next_shown(shown: &mut IntoIter<Shown>) -> Shown
    ensures value { result ≡ next_shown shown.old.rest.items }
    ensures rest { shown.new.rest.items ≡ rest_shown shown.old.rest.items }
{
    match shown.next() {
        Some(next) => next,
        None => Shown::Memory,
    }
}

/// What is shown of a leaf of this kind.
fn kind_by(shown: &mut IntoIter<Shown>, kind: &LeafKind) -> Shown
    ensures value { result ≡ shown_by shown.old.rest.items kind.now }
    ensures rest { shown.new.rest.items ≡ rest_by shown.old.rest.items kind.now }
{
    match kind {
        LeafKind::Search(_) => next_shown(shown),
        LeafKind::Missing => Shown::Missing,
        LeafKind::Omitted => Shown::Omitted,
        LeafKind::Temporal => Shown::Temporal,
        LeafKind::Shape => Shown::Shape,
    }
}

/// A leaf with what it comes to.
fn leaf_by(shown: &mut IntoIter<Shown>, leaf: &Leaf) -> LeafIn
    ensures value { result ≡ leaf_by shown.old.rest.items leaf.now }
    ensures rest { shown.new.rest.items ≡ rest_by shown.old.rest.items leaf.now.kind }
{
    LeafIn {
        place: leaf.place,
        verdict: kind_by(shown, &leaf.kind),
    }
}

/// Whether a leaf ends the run: with `stop` a failed one does.
fn stops(stop: bool, shown: &Shown) -> bool
    ensures { result ≡ stops stop shown.now }
{
    stop && matches!(
        shown,
        Shown::Saturated(..) | Shown::Spent(_) | Shown::Memory | Shown::Shape
    )
}

/// A leaf with what it comes to, and whether it ends the run.
fn leaf_step(stop: bool, shown: &mut IntoIter<Shown>, leaf: &Leaf) -> (LeafIn, bool)
    ensures { ((result.0, result.1), shown.new.rest.items)
        ≡ leaf_step (stops stop) shown.old.rest.items leaf.now }
{
    let told = leaf_by(shown, leaf);
    let stopped = stops(stop, &told.verdict);
    (told, stopped)
}

/// Leaves with what they come to, up to one that ends the run, and whether one does.
fn leaves_by(
    alloc: Global,
    stop: bool,
    shown: &mut IntoIter<Shown>,
    leaves: &[Leaf],
) -> Result<(Items<LeafIn>, bool), Memory>
    ensures { IfOk result (λ r. ((r.0, r.1), shown.new.rest.items)
        ≡ leaves_by (stops stop) shown.old.rest.items leaves.now) }
{
    let mut found = Items::new(alloc);
    for leaf in leaves {
        let (told, stopped) = leaf_step(stop, shown, leaf);
        found.push(told)?;
        if stopped {
            return Ok((found, true));
        }
    }
    Ok((found, false))
}

/// An equal name.
fn copy_name(alloc: Global, name: &Option<Text>) -> Result<Option<Text>, Memory>
    ensures { IfOk result (λ n. n ≡ name.now) }
{
    match name {
        None => Ok(None),
        Some(name) => Ok(Some(Text::of(alloc, name.bytes())?)),
    }
}

/// A theorem with these leaves.
fn theorem_with(
    alloc: Global,
    theorem: &TheoremLeaves,
    leaves: Items<LeafIn>,
) -> Result<TheoremIn, Memory>
    ensures { IfOk result (λ t. t ≡ theorem_with theorem.now leaves) }
{
    Ok(TheoremIn {
        key: theorem.key,
        name: copy_name(alloc, &theorem.name)?,
        place: theorem.place,
        cited: Items::from_slice(alloc, theorem.cited.as_slice())?,
        leaves,
    })
}

/// A theorem with what its leaves come to, and whether one of them ends the run.
fn theorem_by(
    alloc: Global,
    stop: bool,
    shown: &mut IntoIter<Shown>,
    theorem: &TheoremLeaves,
) -> Result<(TheoremIn, bool), Memory>
    ensures { IfOk result (λ r. ((r.0, r.1), shown.new.rest.items)
        ≡ theorem_step (stops stop) shown.old.rest.items theorem.now) }
{
    let (leaves, stopped) = leaves_by(alloc, stop, shown, theorem.leaves.as_slice())?;
    Ok((theorem_with(alloc, theorem, leaves)?, stopped))
}

/// Theorems with what their leaves come to, up to one that ends the run, and whether one does.
fn theorems_by(
    alloc: Global,
    stop: bool,
    shown: &mut IntoIter<Shown>,
    theorems: &[TheoremLeaves],
) -> Result<(Items<TheoremIn>, bool), Memory>
    ensures { IfOk result (λ r. ((r.0, r.1), shown.new.rest.items)
        ≡ theorems_by (stops stop) shown.old.rest.items theorems.now) }
{
    let mut found = Items::new(alloc);
    for theorem in theorems {
        let (told, stopped) = theorem_by(alloc, stop, shown, theorem)?;
        found.push(told)?;
        if stopped {
            return Ok((found, true));
        }
    }
    Ok((found, false))
}

/// A module with what the leaves of its theorems come to, and whether one of them ends the run.
fn module_by(
    alloc: Global,
    stop: bool,
    shown: &mut IntoIter<Shown>,
    chapter: &Chapter,
) -> Result<(ModuleIn, bool), Memory>
    ensures { IfOk result (λ r. ((r.0, r.1), shown.new.rest.items)
        ≡ module_step (stops stop) shown.old.rest.items chapter.now) }
{
    let (theorems, stopped) = theorems_by(alloc, stop, shown, chapter.theorems.as_slice())?;
    let name = Text::of(alloc, chapter.name.bytes())?;
    Ok((ModuleIn { name, theorems }, stopped))
}

/// Modules with what the leaves of their theorems come to, up to one that ends the run, and whether one does.
pub fn modules_by(
    alloc: Global,
    stop: bool,
    mut shown: IntoIter<Shown>,
    chapters: &[Chapter],
) -> Result<(Items<ModuleIn>, bool), Memory>
    ensures { IfOk result (λ r. (r.0, r.1) ≡ (modules_by (stops stop) shown.rest.items chapters.now).0) }
{
    let mut found = Items::new(alloc);
    for chapter in chapters {
        let (told, stopped) = module_by(alloc, stop, &mut shown, chapter)?;
        found.push(told)?;
        if stopped {
            return Ok((found, true));
        }
    }
    Ok((found, false))
}
