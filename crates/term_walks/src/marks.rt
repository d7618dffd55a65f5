//! Sets and maps of indices.
ghost use Rattle.std.specs.Prelude.{◌≡◌, ◌↔◌, ◌⊎◌, ℕ, OnOk, cond, Some, is_some};
ghost use Rattle.std.specs.Ordering.{nat_cmp};
ghost use Rattle.std.specs.BTreeMap.{is_at};
ghost use Rattle.term_bank.specs.Images.{In, found};
ghost use Rattle.term_walks.specs.Walks.{image_at};

use core_expr::Memory;
use std::collections::{BTreeMap, BTreeSet};

/// Adds an index.
pub fn put(todo: &mut BTreeSet<u64>, index: u64) -> Result<(), Memory>
    ensures { OnOk result ((q : ℕ) → In q todo.new.keys ↔ ((q ≡ index) ⊎ In q todo.old.keys)) }
{
    todo.insert(index)?;
    Ok(())
}

/// Keeps the image of an index.
pub fn keep(images: &mut BTreeMap<u64, u64>, index: u64, image: u64) -> Result<(), Memory>
    ensures { OnOk result ((q : ℕ) → found q images.new.entries
        ≡ cond (is_at (nat_cmp index) q) (Some image) (found q images.old.entries)) }
{
    images.insert(index, image)?;
    Ok(())
}

/// Whether an index has an image.
pub fn has_image(images: &BTreeMap<u64, u64>, index: u64) -> bool
    ensures { result ≡ is_some (found index images.now.entries) }
{
    images.contains_key(&index)
}

/// The image of an index, itself where none is kept.
pub fn image_of(images: &BTreeMap<u64, u64>, index: u64) -> u64
    ensures { result ≡ image_at images.now.entries index }
{
    match images.get(&index) {
        Some(image) => *image,
        None => index,
    }
}
