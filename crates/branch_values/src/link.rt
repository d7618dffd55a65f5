//! The parts of a formula by its connective.
ghost use Rattle.std.specs.Prelude.{◌≡◌, ◌<◌, length};
ghost use Rattle.core_expr.specs.Nodes.{AreBelow};
ghost use Rattle.term_bank.specs.Banks.{tree_at};
ghost use Rattle.branch_values.specs.Judging.{link_trees, link_parts, linking};

use crate::value::Connective;
use term_bank::Bank;
use term_shapes::{Shape, shape_at};

/// What a formula is by its connective: it has none; it is the Not of a formula; or it joins two formulas.
#[derive(Clone, Copy, Debug)]
pub enum Link {
    Alone,
    Denied(u64),
    Joined(Connective, u64, u64),
}

/// What the formula at an index is by its connective.
pub fn link_at(bank: &Bank, i: u64) -> Link
    requires { i < length bank.now }
    ensures link { link_trees bank.now result ≡ linking (tree_at bank.now i) }
    ensures below { AreBelow i (link_parts result) }
{
    match shape_at(bank, i) {
        Shape::Not(a) => Link::Denied(a),
        Shape::And(a, b) => Link::Joined(Connective::And, a, b),
        Shape::Or(a, b) => Link::Joined(Connective::Or, a, b),
        Shape::Imp(a, b) => Link::Joined(Connective::Imp, a, b),
        Shape::Iff(a, b) => Link::Joined(Connective::Iff, a, b),
        _ => Link::Alone,
    }
}
