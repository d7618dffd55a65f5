//! The nodes of the forms.
ghost use Rattle.std.specs.Prelude.{◌≡◌};
ghost use Rattle.term_shapes.specs.Shapes.{cell_of};

use crate::shape::Shape;

/// A node by its head number, its numbers and its parts.
#[derive(Clone, Copy, Debug)]
pub enum Cell {
    Leaf(u64),
    /// With one number.
    Numbered(u64, u64),
    /// With two numbers.
    Paired(u64, u64, u64),
    One(u64, u64),
    Two(u64, u64, u64),
    Three(u64, u64, u64, u64),
}

/// The node of a form.
pub fn cell_for(shape: Shape) -> Cell
    ensures { result ≡ cell_of shape }
{
    match shape {
        Shape::True => Cell::Leaf(0),
        Shape::False => Cell::Leaf(1),
        Shape::Num(high, low) => Cell::Paired(2, high, low),
        Shape::Str => Cell::Numbered(3, 0),
        Shape::Boolean => Cell::Leaf(4),
        Shape::Bound(i) => Cell::Numbered(5, i),
        Shape::Symbol(number, arity) => Cell::Paired(6, number, arity),
        Shape::Not(a) => Cell::One(7, a),
        Shape::And(a, b) => Cell::Two(8, a, b),
        Shape::Or(a, b) => Cell::Two(9, a, b),
        Shape::Imp(a, b) => Cell::Two(10, a, b),
        Shape::Iff(a, b) => Cell::Two(11, a, b),
        Shape::All(p) => Cell::One(12, p),
        Shape::Ex(p) => Cell::One(13, p),
        Shape::Eq(a, b) => Cell::Two(14, a, b),
        Shape::In(a, b) => Cell::Two(15, a, b),
        Shape::Subseteq(a, b) => Cell::Two(16, a, b),
        Shape::Enum => Cell::Numbered(17, 0),
        Shape::Cup(a, b) => Cell::Two(18, a, b),
        Shape::Cap(a, b) => Cell::Two(19, a, b),
        Shape::Diff(a, b) => Cell::Two(20, a, b),
        Shape::Power(a) => Cell::One(21, a),
        Shape::Union(a) => Cell::One(22, a),
        Shape::Filter(s, p) => Cell::Two(23, s, p),
        Shape::Image(s, e) => Cell::Two(24, s, e),
        Shape::Fun(s, e) => Cell::Two(25, s, e),
        Shape::FunSet(s, t) => Cell::Two(26, s, t),
        Shape::Dom(f) => Cell::One(27, f),
        Shape::Apply(f, a) => Cell::Two(28, f, a),
        Shape::Except(f, a, b) => Cell::Three(29, f, a, b),
        Shape::Tuple => Cell::Numbered(30, 0),
        Shape::If(p, a, b) => Cell::Three(31, p, a, b),
        Shape::Choose(p) => Cell::One(32, p),
    }
}
