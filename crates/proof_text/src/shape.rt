//! Which numbers follow a head or a rule.
ghost use Rattle.std.specs.Prelude.{◌≡◌, slice_index};
ghost use Rattle.seq_calculus.specs.Lists.{expression_counts, premise_counts};
ghost use Rattle.proof_text.specs.Shapes.{plain_shape, kind_shape, node_shape, step_shape, fixed, premise_count};
ghost use Rattle.core_expr.specs.Heads.{binder_arity};

use core_expr::{Binder, Head, RowKind, kind_for};

/// What follows the numbers of a node or a step.
#[derive(Clone, Copy, Debug)]
pub enum Tail {
    /// So many indices.
    Fixed(u64),
    /// As many indices as the last number tells.
    Counted,
    /// As many bytes as the last number tells.
    Bytes,
}

/// How many numbers a node or a step begins with, and what follows them.
#[derive(Clone, Copy, Debug)]
pub struct Shape {
    pub numbers: u64,
    pub tail: Tail,
}

/// So many numbers and so many indices.
fn fixed(numbers: u64, indices: u64) -> Shape
    ensures { result ≡ fixed numbers indices }
{
    Shape {
        numbers,
        tail: Tail::Fixed(indices),
    }
}

/// The shape of a node whose head binds nothing.
fn plain_shape(head: Head) -> Shape
    ensures { result ≡ plain_shape head }
{
    match head {
        Head::Num => fixed(2, 0),
        Head::Str => Shape {
            numbers: 1,
            tail: Tail::Bytes,
        },
        Head::Enum | Head::Tuple => Shape {
            numbers: 1,
            tail: Tail::Counted,
        },
        Head::True | Head::False | Head::Boolean | Head::Temporal => fixed(0, 0),
        Head::Not | Head::Power | Head::Union | Head::Dom => fixed(0, 1),
        Head::Except | Head::If => fixed(0, 3),
        Head::And
        | Head::Or
        | Head::Imp
        | Head::Iff
        | Head::Eq
        | Head::In
        | Head::Subseteq
        | Head::Cup
        | Head::Cap
        | Head::Diff
        | Head::FunSet
        | Head::Apply => fixed(0, 2),
    }
}

/// The shape of a node whose head binds a variable.
fn binder_shape(binder: Binder) -> Shape
    ensures { result ≡ fixed 0 (binder_arity binder) }
{
    match binder {
        Binder::All | Binder::Ex | Binder::Choose => fixed(0, 1),
        Binder::Filter | Binder::Image | Binder::Fun => fixed(0, 2),
    }
}

/// The shape of a node of this kind.
fn kind_shape(kind: RowKind) -> Shape
    ensures { result ≡ kind_shape kind }
{
    match kind {
        RowKind::Bound => fixed(1, 0),
        RowKind::Symbol(_) => Shape {
            numbers: 2,
            tail: Tail::Counted,
        },
        RowKind::Plain(head) => plain_shape(head),
        RowKind::Binding(binder) => binder_shape(binder),
    }
}

/// The shape of a node with this head number.
#[tactic(auto, unfolding(crate::specs::Shapes::node_shape))]
pub fn node_shape(head: u64) -> Shape
    ensures { result ≡ node_shape head }
{
    if head == 6 {
        return Shape {
            numbers: 2,
            tail: Tail::Counted,
        };
    }
    kind_shape(kind_for(head, None))
}

/// How many expressions a step has, by its rule, where its numbers do not tell.
const EXPRESSIONS: [u64; 22] = [
    1, 0, 0, 0, 1, 1, 1, 2, 2, 2, 2, 2, 2, 2, 2, 2, 1, 1, 2, 1, 3, 0,
];

/// How many premises a step has, by its rule.
const PREMISES: [u64; 22] = [
    0, 0, 0, 1, 2, 1, 1, 1, 2, 2, 1, 2, 1, 2, 2, 1, 1, 1, 1, 0, 1, 1,
];

/// The number at a place of the table, 0 past its end.
fn count_in(table: &[u64], rule: u64) -> u64
    ensures { result ≡ slice_index table.now rule }
{
    match table.get(rule as usize) {
        Some(count) => *count,
        None => 0,
    }
}

/// How many expressions a step has, where its numbers do not tell.
#[tactic(auto, unfolding(seq_calculus::specs::Lists::expression_counts))]
fn expression_count(rule: u64) -> u64
    ensures { result ≡ slice_index expression_counts rule }
{
    count_in(&EXPRESSIONS, rule)
}

/// How many premises a step has.
#[tactic(auto, unfolding(crate::specs::Shapes::premise_count, seq_calculus::specs::Lists::premise_counts))]
pub fn premise_count(rule: u64) -> u64
    ensures { result ≡ premise_count rule }
{
    count_in(&PREMISES, rule)
}

/// The shape of a step with this rule, but for weakening, which writes the length of each of its lists before it.
#[tactic(auto, unfolding(crate::specs::Shapes::step_shape))]
pub fn step_shape(rule: u64) -> Shape
    ensures { result ≡ step_shape rule }
{
    if rule == 21 {
        return Shape {
            numbers: 3,
            tail: Tail::Counted,
        };
    }
    fixed(0, expression_count(rule))
}
