//! Putting terms in for others, all at once.
ghost use Rattle.std.specs.Prelude.{◌≡◌, ◌<◌, [], length, map, IfOk, OnOk};
ghost use Rattle.term_bank.specs.Banks.{IsDistinct, Extends, HasTree, tree_at};
ghost use Rattle.term_walks.specs.Moved.{moved};
ghost use Rattle.term_walks.specs.Walks.{given, image_at, AreWithin, IsRemade, KeepsImage, IsWalk, AreMoved};

use crate::marks::{has_image, image_of, keep};
use crate::touched::touched;
use core_expr::Memory;
use std::alloc::Global;
use std::collections::BTreeMap;
use term_bank::Bank;

/// The images of the parts.
fn new_parts(alloc: Global, images: &BTreeMap<u64, u64>, parts: &[u64]) -> Result<Vec<u64>, Memory>
    ensures { IfOk result (λ v. v.items ≡ map (image_at images.now.entries) parts.now) }
{
    let mut moved = Vec::new(alloc);
    for part in parts {
        moved.push(image_of(images, *part))?;
    }
    Ok(moved)
}

/// The index of the node at `i` over the images of its parts.
fn move_node(
    bank: &mut Bank,
    alloc: Global,
    images: &BTreeMap<u64, u64>,
    i: u64,
) -> Result<u64, Memory>
    requires node { i < length bank.old }
    requires images { AreWithin (length bank.old) images.now.entries }
    ensures extends { Extends bank.old bank.new }
    ensures distinct { IsDistinct bank.new }
    ensures ok { IfOk result (λ k. IsRemade bank.old bank.new images.now.entries i k) }
{
    bank.count();
    let node = bank.node(i).unwrap();
    let head = node.head;
    let numbers = Vec::from_slice(alloc, node.numbers.as_slice())?;
    let parts = new_parts(alloc, images, node.parts.as_slice())?;
    bank.make(alloc, head, numbers.as_slice(), parts.as_slice())
}

/// Keeps the image of the node at `i`, unless it has one.
fn keep_image(
    bank: &mut Bank,
    alloc: Global,
    images: &mut BTreeMap<u64, u64>,
    i: u64,
) -> Result<(), Memory>
    requires node { i < length bank.old }
    requires images { AreWithin (length bank.old) images.old.entries }
    ensures extends { Extends bank.old bank.new }
    ensures distinct { IsDistinct bank.new }
    ensures ok { OnOk result
        (KeepsImage bank.old bank.new i images.old.entries images.new.entries) }
{
    bank.count();
    if has_image(images, i) {
        return Ok(());
    }
    let image = move_node(bank, alloc, images, i)?;
    keep(images, i, image)
}

/// The images of nodes that stand each before its parts, added to the images that are given.
fn keep_images(
    bank: &mut Bank,
    alloc: Global,
    mut images: BTreeMap<u64, u64>,
    done: &[u64],
    e: u64,
) -> Result<BTreeMap<u64, u64>, Memory>
    requires walk { IsWalk bank.old images.entries e done.now [] }
    requires images { AreWithin (length bank.old) images.entries }
    ensures extends { Extends bank.old bank.new }
    ensures distinct { IsDistinct bank.new }
    ensures ok { IfOk result (λ all.
        AreMoved bank.old bank.new (given bank.old images.entries) all.entries done.now) }
{
    bank.count();
    for k in 0..done.len() {
        let i = done[done.len() - 1 - k];
        keep_image(bank, alloc, &mut images, i)?;
    }
    Ok(images)
}

/// The index of the tree at `e` with the tree at its image for each node that has an image, the outermost first. What is put
/// in is not looked into.
pub fn moved(
    bank: &mut Bank,
    alloc: Global,
    images: BTreeMap<u64, u64>,
    e: u64,
) -> Result<u64, Memory>
    requires start { e < length bank.old }
    requires images { AreWithin (length bank.old) images.entries }
    ensures extends { Extends bank.old bank.new }
    ensures distinct { IsDistinct bank.new }
    ensures ok { IfOk result (λ k.
        HasTree bank.new k (moved (given bank.old images.entries) (tree_at bank.old e))) }
{
    bank.count();
    let done = touched(bank, alloc, &images, e)?;
    let images = keep_images(bank, alloc, images, done.as_slice(), e)?;
    Ok(image_of(&images, e))
}
