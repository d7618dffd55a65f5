ghost use Rattle.std.specs.Prelude.{◌≡◌, ◌↔◌, ◌*◌, ◌^◌, ◌<◌, IsTrue, fold};
ghost use Rattle.term_bank.specs.Slots.{node_of};
ghost use Rattle.term_bank.specs.Chains.{mixed, hash_of};
ghost use Rattle.term_bank.specs.Banks.{node_over};

use crate::reach::Reach;

/// A node: its head number in the table of heads, its numbers, and the indices of its parts.
#[derive(Drop)]
pub struct BankNode {
    pub head: u64,
    pub numbers: Vec<u64>,
    pub parts: Vec<u64>,
}

/// A node with what finds it again: its hash, the link to the next node of its bucket (0 at the end, else one more than its index),
/// and how far its loose variables go.
#[derive(Drop)]
pub struct Slot {
    pub node: BankNode,
    pub hash: u64,
    pub next: u64,
    pub reach: Reach,
}

fn mix(hash: u64, number: u64) -> u64
    ensures { result ≡ mixed hash number }
{
    (hash ^ number).wrapping_mul(1099511628211)
}

fn mix_all(hash: u64, numbers: &[u64]) -> u64
    ensures { result ≡ fold mixed hash numbers.now }
{
    let mut hash = hash;
    for number in numbers {
        hash = mix(hash, *number);
    }
    hash
}

pub fn hash(head: u64, numbers: &[u64], parts: &[u64]) -> u64
    ensures { result ≡ hash_of (node_over head numbers.now parts.now) }
{
    mix_all(mix_all(mix(14695981039346656037, head), numbers), parts)
}

/// Whether the node has this head, these numbers and these parts.
pub fn agrees(node: &BankNode, head: u64, numbers: &[u64], parts: &[u64]) -> bool
    ensures { IsTrue result ↔ (node_of node.now ≡ node_over head numbers.now parts.now) }
{
    node.head == head && node.numbers.as_slice() == numbers && node.parts.as_slice() == parts
}
