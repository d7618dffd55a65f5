ghost use Rattle.std.specs.Prelude.{◌≡◌, ◌<◌, [], true, length, IfOk, OnOk, slice_index_or};
ghost use Rattle.core_expr.specs.Put.{inst, IsScoped};
ghost use Rattle.core_expr.specs.Nodes.{AreBelow};
ghost use Rattle.term_bank.specs.Banks.{IsDistinct, Extends, HasTree, tree_at};
ghost use Rattle.term_bank.specs.Images.{image, moved_tree, needs_image, HasImage, HaveImages, NeedsImages, ImagesOfParts, KeepsImages, AreMoved, AreCovered, IsTouched};
ghost use Rattle.term_bank.specs.Slots.{node_of, reach_count};

use crate::bank::Bank;
use crate::marks::{keep, kept};
use crate::needs::needs_image;
use crate::node::BankNode;
use crate::reach::Reach;
use crate::touched::touched;
use core_expr::Memory;
use std::alloc::Global;
use std::collections::BTreeMap;

/// The part `k` of a node, or its image where it has the node's outermost loose variable.
fn new_part(
    bank: &Bank,
    images: &BTreeMap<u64, u64>,
    node: &BankNode,
    k: u64,
    reach: Reach,
    t: u64,
) -> u64
    requires part { k < length node.now.parts.items }
    requires below { AreBelow (length bank.now) node.now.parts.items }
    requires known { needs_image bank.now (node_of node.now) (reach_count reach) k ≡ true
        → HasImage bank.now (tree_at bank.now t) images.now.entries
        (slice_index_or node.now.parts.items k 0) }
    ensures { HasTree bank.now result (moved_tree bank.now (node_of node.now)
        (reach_count reach) (tree_at bank.now t) k) }
{
    let part = node.parts[k as usize];
    if needs_image(bank, node, k, reach) {
        kept(images, part).unwrap()
    } else {
        part
    }
}

/// The parts of a node, or their images.
fn new_parts(
    alloc: Global,
    bank: &Bank,
    images: &BTreeMap<u64, u64>,
    node: &BankNode,
    reach: Reach,
    t: u64,
) -> Result<Vec<u64>, Memory>
    requires below { AreBelow (length bank.now) node.now.parts.items }
    requires known { NeedsImages bank.now (node_of node.now) (reach_count reach)
        (tree_at bank.now t) images.now.entries }
    ensures { IfOk result (λ is.
        AreMoved bank.now (node_of node.now) (reach_count reach) (tree_at bank.now t)
        (length node.now.parts.items) is.items) }
{
    let mut parts = Vec::new(alloc);
    for k in 0..node.parts.len() {
        parts.push(new_part(bank, images, node, k as u64, reach, t))?;
    }
    Ok(parts)
}

/// The index of the tree at `i` with the tree at `t` for its outermost loose variable.
fn move_node(
    bank: &mut Bank,
    alloc: Global,
    images: &BTreeMap<u64, u64>,
    i: u64,
    t: u64,
) -> Result<u64, Memory>
    requires touched { IsTouched bank.old i }
    requires below { t < length bank.old }
    requires closed { IsScoped 0 (tree_at bank.old t) }
    requires known { ImagesOfParts bank.old i (tree_at bank.old t) images.now.entries }
    ensures extends { Extends bank.old bank.new }
    ensures distinct { IsDistinct bank.new }
    ensures ok { IfOk result (λ k.
        HasTree bank.new k (image (tree_at bank.old t) (tree_at bank.old i))) }
{
    bank.distinct();
    let reach = bank.reach(i);
    let node = bank.node(i).unwrap();
    let head = node.head;
    if head == 5 {
        return Ok(t);
    }
    let numbers = Vec::from_slice(alloc, node.numbers.as_slice())?;
    let parts = new_parts(alloc, bank, images, node, reach, t)?;
    bank.make(alloc, head, numbers.as_slice(), parts.as_slice())
}

/// Keeps the image of the tree at `i`.
fn keep_image(
    bank: &mut Bank,
    alloc: Global,
    images: &mut BTreeMap<u64, u64>,
    i: u64,
    t: u64,
) -> Result<(), Memory>
    requires touched { IsTouched bank.old i }
    requires below { t < length bank.old }
    requires closed { IsScoped 0 (tree_at bank.old t) }
    requires known { ImagesOfParts bank.old i (tree_at bank.old t) images.old.entries }
    ensures extends { Extends bank.old bank.new }
    ensures distinct { IsDistinct bank.new }
    ensures ok { OnOk result (KeepsImages bank.old bank.new
        (tree_at bank.old t) i images.old.entries images.new.entries) }
{
    let image = move_node(bank, alloc, images, i, t)?;
    keep(images, i, image)
}

/// The images of nodes that stand each before its parts.
fn keep_images(
    bank: &mut Bank,
    alloc: Global,
    done: &[u64],
    t: u64,
) -> Result<BTreeMap<u64, u64>, Memory>
    requires covered { AreCovered bank.old done.now [] }
    requires below { t < length bank.old }
    requires closed { IsScoped 0 (tree_at bank.old t) }
    ensures extends { Extends bank.old bank.new }
    ensures distinct { IsDistinct bank.new }
    ensures ok { IfOk result (λ images.
        HaveImages bank.new (tree_at bank.old t) images.entries done.now) }
{
    bank.distinct();
    let mut images: BTreeMap<u64, u64> = BTreeMap::new(alloc);
    for k in 0..done.len() {
        let i = done[done.len() - 1 - k];
        keep_image(bank, alloc, &mut images, i, t)?;
    }
    Ok(images)
}

/// The index of the tree at `body` with the tree at `t` for its one loose variable.
pub fn inst(bank: &mut Bank, alloc: Global, body: u64, t: u64) -> Result<u64, Memory>
    requires body { body < length bank.old }
    requires below { t < length bank.old }
    requires closed { IsScoped 0 (tree_at bank.old t) }
    requires one { IsScoped 1 (tree_at bank.old body) }
    ensures extends { Extends bank.old bank.new }
    ensures distinct { IsDistinct bank.new }
    ensures ok { IfOk result (λ k.
        HasTree bank.new k (inst (tree_at bank.old body) (tree_at bank.old t))) }
{
    bank.distinct();
    if bank.is_closed(body) {
        return Ok(body);
    }
    let done = touched(bank, alloc, body)?;
    let images = keep_images(bank, alloc, done.as_slice(), t)?;
    Ok(kept(&images, body).unwrap())
}
