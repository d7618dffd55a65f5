//! Tasks of the walk that makes a pattern.
ghost use Rattle.std.specs.Prelude.{◌≡◌, ◌<◌, ◌++◌, length, map, IfOk, OnOk};
ghost use Rattle.term_bank.specs.Banks.{IsDistinct, Extends};
ghost use Rattle.term_patterns.specs.Walked.{image_or, IsPartOf, AreWithin, IsVisited, IsBuilt, IsMade, IsTurn, spot_of};
ghost use Rattle.term_patterns.specs.declared.tasks.Task.TheVariants.{Visit};

use crate::images::Images;
use crate::spots::{Spot, is_binder, spots_under};
use core_expr::Memory;
use std::alloc::Global;
use term_bank::Bank;
use term_shapes::{Shape, make};

/// What is to do: find the image of a node at a depth, or make it from those of its parts, which are known by then.
#[derive(Clone, Copy, Debug)]
pub enum Task {
    Visit(Spot),
    Build(Spot),
}

/// The parts of the node at a spot that have to have images first: none where the node is `s`.
fn parts_of(bank: &Bank, alloc: Global, s: u64, spot: Spot) -> Result<Vec<Spot>, Memory>
    requires node { spot.node < length bank.now }
    requires depth { spot.depth < 18446744073709551615 }
    ensures { IfOk result (λ v. IsPartOf bank.now s spot v.items) }
{
    if spot.node == s {
        return Ok(Vec::new(alloc));
    }
    let node = bank.node(spot.node).unwrap();
    spots_under(
        alloc,
        is_binder(node.head),
        spot.depth,
        node.parts.as_slice(),
    )
}

/// Adds a visit of each.
fn add_visits(spots: &[Spot], tasks: &mut Vec<Task>) -> Result<(), Memory>
    ensures { OnOk result (tasks.new.items ≡ tasks.old.items ++ map Visit spots.now) }
{
    for spot in spots {
        tasks.push(Task::Visit(*spot))?;
    }
    Ok(())
}

/// The node's image is known, or its parts are visited before it is made.
fn visit(
    bank: &Bank,
    alloc: Global,
    s: u64,
    spot: Spot,
    images: &Images,
    tasks: &mut Vec<Task>,
) -> Result<(), Memory>
    requires node { spot.node < length bank.now }
    requires depth { spot.depth < 18446744073709551615 }
    ensures { OnOk result
        (IsVisited bank.now s images.now spot tasks.old.items tasks.new.items) }
{
    if images.at(spot).is_some() {
        return Ok(());
    }
    let parts = parts_of(bank, alloc, s, spot)?;
    tasks.push(Task::Build(spot))?;
    add_visits(parts.as_slice(), tasks)
}

/// The image, or the node itself where none is kept.
fn image_or(images: &Images, spot: Spot) -> u64
    ensures { result ≡ image_or images.now spot }
{
    match images.at(spot) {
        Some(image) => image,
        None => spot.node,
    }
}

/// The images of these.
fn images_of(alloc: Global, images: &Images, spots: &[Spot]) -> Result<Vec<u64>, Memory>
    ensures { IfOk result (λ v. v.items ≡ map (image_or images.now) spots.now) }
{
    let mut numbers = Vec::new(alloc);
    for spot in spots {
        numbers.push(image_or(images, *spot))?;
    }
    Ok(numbers)
}

/// The image of a node at a depth over those of its parts; the variable of that depth for `s`.
fn make_image(
    bank: &mut Bank,
    alloc: Global,
    s: u64,
    spot: Spot,
    images: &Images,
) -> Result<u64, Memory>
    requires node { spot.node < length bank.old }
    requires depth { spot.depth < 18446744073709551615 }
    requires images { AreWithin (length bank.old) images.now }
    ensures extends { Extends bank.old bank.new }
    ensures distinct { IsDistinct bank.new }
    ensures ok { IfOk result (λ k. IsMade bank.old bank.new s spot images.now k) }
{
    bank.count();
    if spot.node == s {
        return make(bank, alloc, Shape::Bound(spot.depth));
    }
    let node = bank.node(spot.node).unwrap();
    let head = node.head;
    let spots = spots_under(alloc, is_binder(head), spot.depth, node.parts.as_slice())?;
    let numbers = Vec::from_slice(alloc, node.numbers.as_slice())?;
    let parts = images_of(alloc, images, spots.as_slice())?;
    bank.make(alloc, head, numbers.as_slice(), parts.as_slice())
}

/// The image is made and kept.
fn build(
    bank: &mut Bank,
    alloc: Global,
    s: u64,
    spot: Spot,
    images: &mut Images,
) -> Result<(), Memory>
    requires node { spot.node < length bank.old }
    requires depth { spot.depth < 18446744073709551615 }
    requires images { AreWithin (length bank.old) images.old }
    ensures extends { Extends bank.old bank.new }
    ensures distinct { IsDistinct bank.new }
    ensures ok { OnOk result (IsBuilt bank.old bank.new s spot images.old images.new) }
{
    let image = make_image(bank, alloc, s, spot, images)?;
    images.keep(spot, image)
}

/// The task, which is the latest, is done.
pub fn turn(
    bank: &mut Bank,
    alloc: Global,
    s: u64,
    task: Task,
    tasks: &mut Vec<Task>,
    images: &mut Images,
) -> Result<(), Memory>
    requires node { (spot_of task).node < length bank.old }
    requires depth { (spot_of task).depth < 18446744073709551615 }
    requires images { AreWithin (length bank.old) images.old }
    ensures extends { Extends bank.old bank.new }
    ensures distinct { IsDistinct bank.new }
    ensures ok { OnOk result (IsTurn bank.old bank.new s task tasks.old.items tasks.new.items
        images.old images.new) }
{
    bank.count();
    match task {
        Task::Visit(spot) => visit(bank, alloc, s, spot, images, tasks),
        Task::Build(spot) => build(bank, alloc, s, spot, images),
    }
}
