ghost use Rattle.std.specs.Prelude.{◌≡◌, ◌<◌, ◌∷◌, [], ◌++◌, ℕ, length, IfOk, OnErr, IsTrue, slice_index};
ghost use Rattle.core_expr.specs.Nodes.{AreBelow, picked};
ghost use Rattle.term_bank.specs.Banks.{node_over};
ghost use Rattle.core_expr.specs.Nodes.{node_fits, node_kind};
ghost use Rattle.core_expr.specs.Loose.{loose};
ghost use Rattle.term_bank.specs.Loose.{is_binder};
ghost use Rattle.term_bank.specs.Slots.{nodes_of, hashes_of, reaches_of, reach_count, trees, IsHeld, AreLinked, IsAbsent, AreReached};
ghost use Rattle.term_bank.specs.Chains.{hash_of};
ghost use Rattle.term_bank.specs.Loose.{most_loose, loose_over};

use crate::node::{BankNode, Slot};
use crate::reach::Reach;
use core_expr::{Memory, RowKind, kind_for};
use std::alloc::Global;

/// Links the nodes through buckets that are empty.
fn relink(slots: &mut [Slot], buckets: &mut [u64])
    requires some { 0 < length buckets.old }
    requires empty { (b : ℕ) → b < length buckets.old → slice_index buckets.old b ≡ 0 }
    ensures linked { AreLinked slots.new buckets.new }
    ensures nodes { nodes_of slots.new ≡ nodes_of slots.old }
    ensures hashes { hashes_of slots.new ≡ hashes_of slots.old }
    ensures reaches { reaches_of slots.new ≡ reaches_of slots.old }
{
    let size = buckets.len() as u64;
    for i in 0..slots.len() {
        let slot = &mut slots[i];
        let bucket = (slot.hash % size) as usize;
        slot.next = buckets[bucket];
        buckets[bucket] = i as u64 + 1;
    }
}

/// Doubles the buckets.
fn grow(alloc: Global, slots: &mut Vec<Slot>, buckets: &mut Vec<u64>) -> Result<(), Memory>
    requires { IsHeld slots.old.items buckets.old.items }
    ensures held { IsHeld slots.new.items buckets.new.items }
    ensures nodes { nodes_of slots.new.items ≡ nodes_of slots.old.items }
{
    let Some(size) = buckets.len().checked_mul(2) else {
        return Err(Memory);
    };
    let mut fresh: Vec<u64> = vec![in alloc; 0; size]?;
    relink(slots, &mut fresh);
    *buckets = fresh;
    Ok(())
}

/// Doubles the buckets where a further node would outnumber them.
pub fn make_room(alloc: Global, slots: &mut Vec<Slot>, buckets: &mut Vec<u64>) -> Result<(), Memory>
    requires { IsHeld slots.old.items buckets.old.items }
    ensures held { IsHeld slots.new.items buckets.new.items }
    ensures nodes { nodes_of slots.new.items ≡ nodes_of slots.old.items }
{
    if slots.len() >= buckets.len() {
        grow(alloc, slots, buckets)?;
    }
    Ok(())
}

/// Whether a head binds a variable in its last part.
pub fn binds(head: u64) -> bool
    ensures { result ≡ is_binder head }
{
    match kind_for(head, None) {
        RowKind::Binding(_) => true,
        _ => false,
    }
}

fn reach_at(slots: &[Slot], i: u64) -> Reach
    requires { i < length slots.now }
    ensures { reach_count result ≡ slice_index (reaches_of slots.now) i }
{
    slots[i as usize].reach
}

fn widest(slots: &[Slot], parts: &[u64]) -> Reach
    requires below { AreBelow (length slots.now) parts.now }
    requires held { AreReached slots.now }
    ensures { reach_count result ≡ most_loose (picked (trees slots.now) parts.now) }
{
    let mut reach = Reach::Closed;
    for part in parts {
        reach = reach.wider(reach_at(slots, *part));
    }
    reach
}

/// How far the loose variables of a node over these parts go.
fn reach_over(slots: &[Slot], head: u64, numbers: &[u64], parts: &[u64]) -> Reach
    requires form { IsTrue (node_fits head numbers.now (length parts.now)) }
    requires below { AreBelow (length slots.now) parts.now }
    requires held { AreReached slots.now }
    ensures { reach_count result
        ≡ loose_over (node_kind head numbers.now) numbers.now (picked (trees slots.now) parts.now) }
{
    match kind_for(head, None) {
        RowKind::Bound => Reach::Upto(numbers[0]),
        RowKind::Binding(_) => {
            let last = parts.len() - 1;
            let body = reach_at(slots, parts[last]);
            widest(slots, &parts[..last]).wider(body.outside())
        }
        _ => widest(slots, parts),
    }
}

/// Adds a node that is not there.
pub fn add(
    alloc: Global,
    slots: &mut Vec<Slot>,
    buckets: &mut Vec<u64>,
    hash: u64,
    head: u64,
    numbers: &[u64],
    parts: &[u64],
) -> Result<u64, Memory>
    requires held { IsHeld slots.old.items buckets.old.items }
    requires form { IsTrue (node_fits head numbers.now (length parts.now)) }
    requires below { AreBelow (length slots.old.items) parts.now }
    requires hash_is { hash ≡ hash_of (node_over head numbers.now parts.now) }
    requires absent { IsAbsent slots.old.items (node_over head numbers.now parts.now) }
    ensures held { IsHeld slots.new.items buckets.new.items }
    ensures ok { IfOk result (λ i.
        (i ≡ length slots.old.items) × (nodes_of slots.new.items
        ≡ nodes_of slots.old.items ++ node_over head numbers.now parts.now ∷ [])) }
    ensures err { OnErr result (nodes_of slots.new.items ≡ nodes_of slots.old.items) }
{
    let reach = reach_over(slots, head, numbers, parts);
    let numbers = Vec::from_slice(alloc, numbers)?;
    let parts = Vec::from_slice(alloc, parts)?;
    let i = slots.len() as u64;
    let bucket = (hash % buckets.len() as u64) as usize;
    let next = buckets[bucket];
    slots.push(Slot {
        node: BankNode {
            head,
            numbers,
            parts,
        },
        hash,
        next,
        reach,
    })?;
    buckets[bucket] = i + 1;
    Ok(i)
}
