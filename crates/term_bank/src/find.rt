ghost use Rattle.std.specs.Prelude.{◌≡◌, ◌<◌, length, IfSome, IfNone};
ghost use Rattle.term_bank.specs.Banks.{node_over};
ghost use Rattle.term_bank.specs.Slots.{AreLinked, AreHashed, StandsAt, IsAbsent};
ghost use Rattle.term_bank.specs.Chains.{hash_of};

use crate::node::{Slot, agrees};

/// The node with this head, these numbers and these parts, along its chain.
pub fn find(
    slots: &[Slot],
    buckets: &[u64],
    hash: u64,
    head: u64,
    numbers: &[u64],
    parts: &[u64],
) -> Option<u64>
    requires some { 0 < length buckets.now }
    requires linked { AreLinked slots.now buckets.now }
    requires hashed { AreHashed slots.now }
    requires hash_is { hash ≡ hash_of (node_over head numbers.now parts.now) }
    ensures found { IfSome result (λ i.
        StandsAt slots.now i (node_over head numbers.now parts.now)) }
    ensures absent { IfNone result
        (IsAbsent slots.now (node_over head numbers.now parts.now)) }
{
    let size = buckets.len() as u64;
    let bucket = hash % size;
    let mut link = buckets[bucket as usize];
    while link > 0 {
        let i = link - 1;
        let slot = &slots[i as usize];
        if slot.hash == hash && agrees(&slot.node, head, numbers, parts) {
            return Some(i);
        }
        link = slot.next;
    }
    None
}
