//! The forms of the trees of a bank.
ghost use Rattle.std.specs.Prelude.{◌≡◌, ◌<◌, length};
ghost use Rattle.std.proofs.Common.{get_or};
ghost use Rattle.core_expr.specs.Heads.{subtrees, kind_number};
ghost use Rattle.core_expr.specs.Places.{kind_of};
ghost use Rattle.core_expr.specs.Nodes.{AreBelow, picked};
ghost use Rattle.term_bank.specs.Banks.{tree_at};
ghost use Rattle.term_shapes.specs.Shapes.{plain_shape, binder_shape, shape_over, named_parts, HasShape};

use crate::shape::Shape;
use core_expr::{Binder, Head, RowKind, kind_for};
use term_bank::{Bank, BankNode};

/// The number at a place; 0 past the end.
fn number_at(numbers: &[u64], k: u64) -> u64
    ensures { result ≡ get_or numbers.now k 0 }
{
    match numbers.get(k as usize) {
        Some(number) => *number,
        None => 0,
    }
}

/// The form of a node whose head binds nothing, by its numbers and its parts; a filler for the temporal mark.
fn plain_shape(head: Head, numbers: &[u64], parts: &[u64]) -> Shape
    ensures { result ≡ plain_shape head numbers.now parts.now }
{
    let a = number_at(parts, 0);
    let b = number_at(parts, 1);
    let c = number_at(parts, 2);
    match head {
        Head::True => Shape::True,
        Head::False => Shape::False,
        Head::Num => Shape::Num(number_at(numbers, 0), number_at(numbers, 1)),
        Head::Str => Shape::Str,
        Head::Boolean => Shape::Boolean,
        Head::Not => Shape::Not(a),
        Head::And => Shape::And(a, b),
        Head::Or => Shape::Or(a, b),
        Head::Imp => Shape::Imp(a, b),
        Head::Iff => Shape::Iff(a, b),
        Head::Eq => Shape::Eq(a, b),
        Head::In => Shape::In(a, b),
        Head::Subseteq => Shape::Subseteq(a, b),
        Head::Enum => Shape::Enum,
        Head::Cup => Shape::Cup(a, b),
        Head::Cap => Shape::Cap(a, b),
        Head::Diff => Shape::Diff(a, b),
        Head::Power => Shape::Power(a),
        Head::Union => Shape::Union(a),
        Head::FunSet => Shape::FunSet(a, b),
        Head::Dom => Shape::Dom(a),
        Head::Apply => Shape::Apply(a, b),
        Head::Except => Shape::Except(a, b, c),
        Head::Tuple => Shape::Tuple,
        Head::If => Shape::If(a, b, c),
        Head::Temporal => Shape::True,
    }
}

/// The form of a binder's node.
fn binder_shape(binder: Binder, parts: &[u64]) -> Shape
    ensures { result ≡ binder_shape binder parts.now }
{
    let a = number_at(parts, 0);
    let b = number_at(parts, 1);
    match binder {
        Binder::All => Shape::All(a),
        Binder::Ex => Shape::Ex(a),
        Binder::Filter => Shape::Filter(a, b),
        Binder::Image => Shape::Image(a, b),
        Binder::Fun => Shape::Fun(a, b),
        Binder::Choose => Shape::Choose(a),
    }
}

/// The form of a node.
fn node_shape(node: &BankNode) -> Shape
    ensures { result ≡ shape_over node.now.head node.now.numbers.items node.now.parts.items }
{
    let (numbers, parts) = (node.numbers.as_slice(), node.parts.as_slice());
    if node.head == 6 {
        return Shape::Symbol(number_at(numbers, 0), number_at(numbers, 1));
    }
    match kind_for(node.head, None) {
        RowKind::Bound => Shape::Bound(number_at(numbers, 0)),
        RowKind::Symbol(sym) => Shape::Symbol(sym.number, sym.arity),
        RowKind::Plain(head) => plain_shape(head, numbers, parts),
        RowKind::Binding(binder) => binder_shape(binder, parts),
    }
}

/// The form of the tree at an index. Its parts have smaller indices.
pub fn shape_at(bank: &Bank, i: u64) -> Shape
    requires { i < length bank.now }
    ensures form { HasShape bank.now (tree_at bank.now i) result }
    ensures below { AreBelow i (named_parts result) }
    ensures within { AreBelow (length bank.now) (named_parts result) }
{
    let _count = bank.count();
    node_shape(bank.node(i).unwrap())
}

/// The parts of the tree at an index, a binder's body last.
pub fn parts_at(bank: &Bank, i: u64) -> &[u64]
    requires { i < length bank.now }
    ensures trees { subtrees (tree_at bank.now i) ≡ picked bank.now result.now }
    ensures below { AreBelow i result.now }
    ensures within { AreBelow (length bank.now) result.now }
{
    let _count = bank.count();
    bank.node(i).unwrap().parts.as_slice()
}

/// The head number of the tree at an index, in the table of heads.
pub fn head_at(bank: &Bank, i: u64) -> u64
    requires { i < length bank.now }
    ensures number { result ≡ kind_number (kind_of (tree_at bank.now i)) }
    ensures small { result < 33 }
{
    let _count = bank.count();
    bank.node(i).unwrap().head
}
