//! Rank split.
ghost use Rattle.std.specs.Prelude.{◌<◌, ◌+◌, ◌∷◌, [], length, IfOk, IsTrue};
ghost use Rattle.core_expr.specs.Nodes.{AreBelow, picked};
ghost use Rattle.core_expr.specs.Tree.{not_};
ghost use Rattle.term_bank.specs.Banks.{IsDistinct, Extends, tree_at};
ghost use Rattle.term_shapes.specs.Forms.{are_below, are_forms, grown};
ghost use Rattle.search_definition.specs.Splits.{splitting, split};
ghost use Rattle.formula_rules.specs.Answers.{HasAnswer, trees_at, parted, HasParting, HasPartings};

use crate::given::{Given, Sides, fetch};
use core_expr::Memory;
use search_definition::Rule;
use std::alloc::Global;
use term_bank::Bank;
use term_shapes::{Shape, grow, shape_at};

/// A formula that can be split: the rule, and the formulas of the two sides.
#[derive(Debug, Drop)]
pub struct Parting {
    pub rule: Rule,
    pub left: Vec<u64>,
    pub right: Vec<u64>,
}

/// The sides whose formulas the table of forms over the terms has at these places.
fn parts_as(
    bank: &mut Bank,
    alloc: Global,
    rule: Rule,
    terms: &[u64],
    forms: &[Shape],
    left: &[u64],
    right: &[u64],
) -> Result<Parting, Memory>
    requires terms { AreBelow (length bank.old) terms.now }
    requires forms { IsTrue (are_forms (length terms.now) forms.now) }
    requires left { IsTrue (are_below (length terms.now + length forms.now) left.now) }
    requires right { IsTrue (are_below (length terms.now + length forms.now) right.now) }
    ensures extends { Extends bank.old bank.new }
    ensures distinct { IsDistinct bank.new }
    ensures ok { IfOk result (λ p. HasParting bank.new p (parted rule
        (trees_at (grown (picked bank.old terms.now) forms.now) left.now)
        (trees_at (grown (picked bank.old terms.now) forms.now) right.now))) }
{
    let places = grow(bank, alloc, terms, forms)?;
    let left = fetch(alloc, places.as_slice(), left)?;
    let right = fetch(alloc, places.as_slice(), right)?;
    Ok(Parting { rule, left, right })
}

/// How the Not of a is split.
fn denied_parting(bank: &mut Bank, alloc: Global, a: u64) -> Result<Option<Parting>, Memory>
    requires { a < length bank.old }
    ensures extends { Extends bank.old bank.new }
    ensures distinct { IsDistinct bank.new }
    ensures ok { IfOk result (λ o. HasPartings bank.new o (splitting (not_ (tree_at bank.old a)))) }
{
    let _count = bank.count();
    let forms = &[Shape::Not(0), Shape::Not(1)];
    match shape_at(bank, a) {
        Shape::And(x, y) => {
            let rule = Rule::DeniedConjunction;
            Ok(Some(parts_as(bank, alloc, rule, &[x, y], forms, &[2], &[3])?))
        }
        Shape::Iff(x, y) => {
            let rule = Rule::DeniedEquivalence;
            Ok(Some(parts_as(bank, alloc, rule, &[x, y], forms, &[0, 3], &[2, 1])?))
        }
        _ => Ok(None),
    }
}

/// How a formula is split: None exactly where it is not.
pub fn parting_of(bank: &mut Bank, alloc: Global, f: u64) -> Result<Option<Parting>, Memory>
    requires { f < length bank.old }
    ensures extends { Extends bank.old bank.new }
    ensures distinct { IsDistinct bank.new }
    ensures ok { IfOk result (λ o. HasPartings bank.new o (splitting (tree_at bank.old f))) }
{
    let _count = bank.count();
    match shape_at(bank, f) {
        Shape::Or(x, y) => {
            let rule = Rule::Disjunction;
            Ok(Some(parts_as(bank, alloc, rule, &[x, y], &[], &[0], &[1])?))
        }
        Shape::Imp(x, y) => {
            let rule = Rule::Implication;
            Ok(Some(parts_as(bank, alloc, rule, &[x, y], &[Shape::Not(0)], &[2], &[1])?))
        }
        Shape::Iff(x, y) => {
            let (rule, forms) = (Rule::Equivalence, &[Shape::Not(0), Shape::Not(1)]);
            Ok(Some(parts_as(bank, alloc, rule, &[x, y], forms, &[0, 1], &[2, 3])?))
        }
        Shape::Not(a) => denied_parting(bank, alloc, a),
        _ => Ok(None),
    }
}

/// Rank split: the formula gives its two sides. None exactly where it is not split.
pub fn split(bank: &mut Bank, alloc: Global, f: u64) -> Result<Option<Given>, Memory>
    requires { f < length bank.old }
    ensures extends { Extends bank.old bank.new }
    ensures distinct { IsDistinct bank.new }
    ensures ok { IfOk result (λ o. HasAnswer bank.new o (split (tree_at bank.old f))) }
{
    match parting_of(bank, alloc, f)? {
        Some(Parting { rule, left, right }) => Ok(Some(Given {
            rule,
            named: Vec::from_slice(alloc, &[f])?,
            terms: Vec::new(alloc),
            added: Sides::Both(left, right),
        })),
        None => Ok(None),
    }
}
