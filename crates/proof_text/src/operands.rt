//! Readers of numbers and indices.
ghost use Rattle.std.specs.Prelude.{◌≡◌};
ghost use Rattle.proof_text.specs.Reading.{Reads};
ghost use Rattle.proof_text.specs.Readers.{below, count_test, number_test, numbers, byte_count, index_count, last_of, tail_operands, operands, counted, weak_operands};

use crate::cursor::{Cursor, Fault, Test};
use crate::parts::Operands;
use crate::shape::{Shape, Tail};
use sqlite_items::Items;
use std::alloc::Global;

/// So many numbers, each below the bound.
#[tactic(auto, unfolding(crate::specs::Readers::below))]
pub fn below(
    cursor: &mut Cursor,
    alloc: Global,
    count: u64,
    bound: u64,
) -> Result<Items<u64>, Fault>
    ensures { Reads result (below count bound cursor.old) cursor.new }
{
    let mut items = Items::new(alloc);
    for i in 0..count {
        let item = cursor.number(Test::Below(bound))?;
        items.push(item)?;
    }
    Ok(items)
}

/// Which numbers may tell how many parts follow, behind a table of so many nodes.
fn count_test(nodes: u64) -> Test
    ensures { result ≡ count_test nodes }
{
    if nodes > 0 {
        return Test::Any;
    }
    Test::Below(1)
}

/// Which numbers may stand where so many are left, itself counted.
fn number_test(tail: Tail, nodes: u64, left: u64) -> Test
    ensures { result ≡ number_test tail nodes left }
{
    match tail {
        Tail::Counted => {
            if left == 1 {
                return count_test(nodes);
            }
            Test::Any
        }
        Tail::Fixed(_) | Tail::Bytes => Test::Any,
    }
}

/// The numbers of a node or a step behind a table of so many nodes.
fn numbers(
    cursor: &mut Cursor,
    alloc: Global,
    tail: Tail,
    nodes: u64,
    count: u64,
) -> Result<Items<u64>, Fault>
    ensures { Reads result (numbers tail nodes count cursor.old) cursor.new }
{
    let mut items = Items::new(alloc);
    for i in 0..count {
        let item = cursor.number(number_test(tail, nodes, count - i))?;
        items.push(item)?;
    }
    Ok(items)
}

/// The last of the numbers, 0 where there is none.
fn last_of(numbers: &[u64]) -> u64
    ensures { result ≡ last_of numbers.now }
{
    match numbers.last() {
        Some(last) => *last,
        None => 0,
    }
}

/// How many bytes follow the numbers.
fn byte_count(tail: Tail, numbers: &[u64]) -> u64
    ensures { result ≡ byte_count tail numbers.now }
{
    match tail {
        Tail::Bytes => last_of(numbers),
        Tail::Fixed(_) | Tail::Counted => 0,
    }
}

/// How many indices follow the numbers.
fn index_count(tail: Tail, numbers: &[u64]) -> u64
    ensures { result ≡ index_count tail numbers.now }
{
    match tail {
        Tail::Fixed(count) => count,
        Tail::Counted => last_of(numbers),
        Tail::Bytes => 0,
    }
}

/// So many bytes and so many indices of a table of so many nodes.
#[tactic(auto, unfolding(crate::specs::Readers::tail_operands))]
fn tail_operands(
    cursor: &mut Cursor,
    alloc: Global,
    bytes: u64,
    count: u64,
    nodes: u64,
) -> Result<Operands, Fault>
    ensures { Reads result (tail_operands bytes count nodes cursor.old) cursor.new }
{
    let numbers = below(cursor, alloc, bytes, 256)?;
    let indices = below(cursor, alloc, count, nodes)?;
    Ok(Operands { numbers, indices })
}

/// The numbers and indices of this shape behind a table of so many nodes.
#[tactic(auto, unfolding(crate::specs::Readers::operands))]
pub fn operands(
    cursor: &mut Cursor,
    alloc: Global,
    shape: Shape,
    nodes: u64,
) -> Result<Operands, Fault>
    ensures { Reads result (operands shape nodes cursor.old) cursor.new }
{
    let mut front = numbers(cursor, alloc, shape.tail, nodes, shape.numbers)?;
    let bytes = byte_count(shape.tail, front.as_slice());
    let count = index_count(shape.tail, front.as_slice());
    let Operands { numbers, indices } = tail_operands(cursor, alloc, bytes, count, nodes)?;
    front.append(numbers)?;
    Ok(Operands {
        numbers: front,
        indices,
    })
}

/// Indices of a table of so many nodes behind their number.
#[tactic(auto, unfolding(crate::specs::Readers::counted))]
pub fn counted(cursor: &mut Cursor, alloc: Global, nodes: u64) -> Result<Items<u64>, Fault>
    ensures { Reads result (counted nodes cursor.old) cursor.new }
{
    let count = cursor.number(count_test(nodes))?;
    below(cursor, alloc, count, nodes)
}

/// The operands of weakening behind a table of so many nodes.
#[tactic(auto, unfolding(crate::specs::Readers::weak_operands))]
pub fn weak_operands(cursor: &mut Cursor, alloc: Global, nodes: u64) -> Result<Operands, Fault>
    ensures { Reads result (weak_operands nodes cursor.old) cursor.new }
{
    let mut left = counted(cursor, alloc, nodes)?;
    let right = counted(cursor, alloc, nodes)?;
    let lengths = [left.len() as u64, right.len() as u64];
    let numbers = Items::from_slice(alloc, &lengths)?;
    left.append(right)?;
    Ok(Operands {
        numbers,
        indices: left,
    })
}
