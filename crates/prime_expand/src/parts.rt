//! Lists of pairs.

ghost use Rattle.std.specs.Prelude.{◌≡◌, ℕ, take, drop, IsTrue, IfOk, OnOk};
ghost use Rattle.core_expr.specs.Heads.{takes};
ghost use Rattle.prime_expand.specs.Both as spec;

use crate::both::Both;
use core_expr::{Expr, Head, Memory};
use std::alloc::Global;

/// The part at a place, which with those after it is taken from the list; TRUE where there is none.
fn take_at(alloc: Global, parts: &mut Vec<Both>, at: usize) -> Result<Both, Memory>
    ensures part { IfOk result (λ b. b ≡ spec.part_at at parts.old.items) }
    ensures rest { OnOk result (parts.new.items ≡ take at parts.old.items) }
{
    parts.truncate(at.saturating_add(1));
    if parts.len() <= at {
        return Both::truth(alloc);
    }
    match parts.pop() {
        Some(part) => Ok(part),
        None => Both::truth(alloc),
    }
}

/// The parts before a place, and those from there on.
pub fn split_at(
    alloc: Global,
    parts: Vec<Both>,
    at: usize,
) -> Result<(Vec<Both>, Vec<Both>), Memory>
    ensures { IfOk result (λ p. (p.0.items ≡ take at parts.items) × (p.1.items ≡ drop at parts.items)) }
{
    let mut parts = parts;
    if parts.len() <= at {
        let none = Vec::new(alloc);
        return Ok((parts, none));
    }
    let rest = parts.split_off(at)?;
    Ok((parts, rest))
}

/// The first part.
pub fn first(alloc: Global, parts: Vec<Both>) -> Result<Both, Memory>
    ensures { IfOk result (λ b. b ≡ spec.part_at 0 parts.items) }
{
    let mut parts = parts;
    take_at(alloc, &mut parts, 0)
}

/// The first two parts.
pub fn first_two(alloc: Global, parts: Vec<Both>) -> Result<(Both, Both), Memory>
    ensures { IfOk result (λ p. p ≡ (spec.part_at 0 parts.items, spec.part_at 1 parts.items)) }
{
    let mut parts = parts;
    let second = take_at(alloc, &mut parts, 1)?;
    let first = take_at(alloc, &mut parts, 0)?;
    Ok((first, second))
}

/// The node with this head over the first part.
pub fn one(alloc: Global, head: Head, parts: Vec<Both>) -> Result<Both, Memory>
    requires { IsTrue (takes head 1) }
    ensures { IfOk result (λ b. b ≡ spec.one head parts.items) }
{
    let part = first(alloc, parts)?;
    Both::unary(alloc, head, part)
}

/// The node with this head over the first two parts.
pub fn two(alloc: Global, head: Head, parts: Vec<Both>) -> Result<Both, Memory>
    requires { IsTrue (takes head 2) }
    ensures { IfOk result (λ b. b ≡ spec.two head parts.items) }
{
    let (first, second) = first_two(alloc, parts)?;
    Both::binary(alloc, head, first, second)
}

/// The node with this head over the first three parts.
pub fn three(alloc: Global, head: Head, parts: Vec<Both>) -> Result<Both, Memory>
    requires { IsTrue (takes head 3) }
    ensures { IfOk result (λ b. b ≡ spec.three head parts.items) }
{
    let mut parts = parts;
    let third = take_at(alloc, &mut parts, 2)?;
    let (first, second) = first_two(alloc, parts)?;
    Both::ternary(alloc, head, first, second, third)
}

/// The cores of the parts, and the primed cores.
pub fn split(alloc: Global, parts: Vec<Both>) -> Result<(Vec<Expr>, Vec<Expr>), Memory>
    ensures { IfOk result (λ p. (p.0.items ≡ spec.plains parts.items) × (p.1.items ≡ spec.primeds parts.items)) }
{
    let mut plains = Vec::new(alloc);
    let mut primeds = Vec::new(alloc);
    for part in parts {
        plains.push(part.plain)?;
        primeds.push(part.primed)?;
    }
    Ok((plains, primeds))
}

/// An Enum or a Tuple of these parts.
pub fn many(alloc: Global, head: Head, parts: Vec<Both>) -> Result<Both, Memory>
    requires { (n : ℕ) → IsTrue (takes head n) }
    ensures { IfOk result (λ b. b ≡ spec.many head parts.items) }
{
    let (plains, primeds) = split(alloc, parts)?;
    let plain = Expr::plain(alloc, head, plains)?;
    let primed = Expr::plain(alloc, head, primeds)?;
    Ok(Both { plain, primed })
}

/// The parts under nodes with this head, nested to the left; one part is itself, and none the leaf.
pub fn joined(alloc: Global, head: Head, none: Head, parts: Vec<Both>) -> Result<Both, Memory>
    requires node { IsTrue (takes head 2) }
    requires leaf { IsTrue (takes none 0) }
    ensures { IfOk result (λ b. b ≡ spec.joined head none parts.items) }
{
    let mut parts = parts.into_iter();
    let Some(mut done) = parts.next() else {
        return Both::leaf(alloc, none);
    };
    for part in parts {
        done = Both::binary(alloc, head, done, part)?;
    }
    Ok(done)
}

/// Every second of the parts.
pub fn seconds(alloc: Global, parts: Vec<Both>) -> Result<Vec<Both>, Memory>
    ensures { IfOk result (λ v. v.items ≡ spec.seconds parts.items) }
{
    let mut parts = parts.into_iter();
    let mut found = Vec::new(alloc);
    while let Some(_) = parts.next() {
        if let Some(part) = parts.next() {
            found.push(part)?;
        }
    }
    Ok(found)
}
