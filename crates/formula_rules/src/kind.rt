//! Which formulas are literals, and classes of formulas.
ghost use Rattle.std.specs.Prelude.{◌≡◌, ◌<◌, length};
ghost use Rattle.term_bank.specs.Banks.{tree_at};
ghost use Rattle.search_definition.specs.Splits.{is_literal, is_logical};
ghost use Rattle.formula_rules.specs.Answers.{class_of};

use term_bank::Bank;
use term_shapes::{Shape, head_at, shape_at};

/// Whether the formula's head is a truth constant, a connective or a quantifier.
pub fn is_logical(bank: &Bank, f: u64) -> bool
    requires { f < length bank.now }
    ensures { result ≡ is_logical (tree_at bank.now f) }
{
    match shape_at(bank, f) {
        Shape::True => true,
        Shape::False => true,
        Shape::Not(_) => true,
        Shape::And(_, _) => true,
        Shape::Or(_, _) => true,
        Shape::Imp(_, _) => true,
        Shape::Iff(_, _) => true,
        Shape::All(_) => true,
        Shape::Ex(_) => true,
        _ => false,
    }
}

/// Whether the formula is a literal.
pub fn is_literal(bank: &Bank, f: u64) -> bool
    requires { f < length bank.now }
    ensures { result ≡ is_literal (tree_at bank.now f) }
{
    match shape_at(bank, f) {
        Shape::Not(a) => !is_logical(bank, a),
        _ => !is_logical(bank, f),
    }
}

/// The class of a formula, below 68: its head number, or 34 more than that of what it denies.
pub fn class(bank: &Bank, f: u64) -> u64
    requires { f < length bank.now }
    ensures class { result ≡ class_of (tree_at bank.now f) }
    ensures small { result < 68 }
{
    match shape_at(bank, f) {
        Shape::Not(a) => 34 + head_at(bank, a),
        _ => head_at(bank, f),
    }
}
