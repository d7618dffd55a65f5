//! The forms of leaves.

ghost use Rattle.std.specs.Prelude.{◌≡◌, ◌++◌, IfOk, OnOk};
ghost use Rattle.leaf_jobs.specs.Forms.{form_of_leaf, forms_of_theorem, forms_of_chapter, forms_of};

use canonical_form::{Named, canon};
use core_expr::Memory;
use proof_contexts::{Leaf, LeafKind};
use std::alloc::Global;
use theorem_leaves::{Chapter, TheoremLeaves};

/// Appends the form of a leaf, where it is to be proved.
fn add_leaf(alloc: Global, found: &mut Vec<Named>, leaf: &Leaf) -> Result<(), Memory>
    ensures { OnOk result (found.new.items ≡ found.old.items ++ form_of_leaf leaf.now) }
{
    if let LeafKind::Search(obligation) = &leaf.kind {
        found.push(canon(alloc, obligation)?)?;
    }
    Ok(())
}

/// Appends the forms of a theorem's leaves.
fn add_theorem(alloc: Global, found: &mut Vec<Named>, theorem: &TheoremLeaves) -> Result<(), Memory>
    ensures { OnOk result (found.new.items ≡ found.old.items ++ forms_of_theorem theorem.now) }
{
    for leaf in theorem.leaves.as_slice() {
        add_leaf(alloc, found, leaf)?;
    }
    Ok(())
}

/// Appends the forms of a module's leaves.
fn add_chapter(alloc: Global, found: &mut Vec<Named>, chapter: &Chapter) -> Result<(), Memory>
    ensures { OnOk result (found.new.items ≡ found.old.items ++ forms_of_chapter chapter.now) }
{
    for theorem in chapter.theorems.as_slice() {
        add_theorem(alloc, found, theorem)?;
    }
    Ok(())
}

/// The canonical forms of the leaves that are to be proved, in the order of the report.
pub fn forms(alloc: Global, chapters: &[Chapter]) -> Result<Vec<Named>, Memory>
    ensures { IfOk result (λ v. v.items ≡ forms_of chapters.now) }
{
    let mut found = Vec::new(alloc);
    for chapter in chapters {
        add_chapter(alloc, &mut found, chapter)?;
    }
    Ok(found)
}
