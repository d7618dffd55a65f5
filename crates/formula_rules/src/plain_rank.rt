//! Rank plain.
ghost use Rattle.std.specs.Prelude.{◌≡◌, ◌<◌, ◌∷◌, [], length, IfOk};
ghost use Rattle.core_expr.specs.Nodes.{AreBelow};
ghost use Rattle.core_expr.specs.Tree.{not_, in_, eq_, dom_};
ghost use Rattle.core_expr.specs.Put.{IsScoped};
ghost use Rattle.term_bank.specs.Banks.{IsDistinct, Extends, tree_at};
ghost use Rattle.seq_calculus.specs.Schemas.{own_values, values_within};
ghost use Rattle.search_definition.specs.declared.rule.Rule.TheVariants.{FunctionSet};
ghost use Rattle.search_definition.specs.Plain.{left_side, by_left, by_not_left, plain};
ghost use Rattle.formula_rules.specs.Answers.{HasAnswer, HasStep, alone};

use crate::given::{Given, gives};
use crate::left::left_side;
use crate::meaning::{own_values, values_within};
use core_expr::Memory;
use search_definition::Rule;
use std::alloc::Global;
use term_bank::Bank;
use term_shapes::{Shape, shape_at};

/// A left side gives its right side.
fn by_left(bank: &mut Bank, alloc: Global, f: u64) -> Result<Option<Given>, Memory>
    requires within { f < length bank.old }
    requires closed { IsScoped 0 (tree_at bank.old f) }
    ensures extends { Extends bank.old bank.new }
    ensures distinct { IsDistinct bank.new }
    ensures ok { IfOk result (λ o. HasAnswer bank.new o
        (by_left (tree_at bank.old f) (left_side (tree_at bank.old f)))) }
{
    let _count = bank.count();
    match left_side(bank, alloc, f)? {
        Some(left) => {
            let rule = Rule::LeftSide(left.schema);
            Ok(Some(gives(bank, alloc, rule, f, &[left.right], &[], &[0])?))
        }
        None => Ok(None),
    }
}

/// The Not f of the left side a gives the Not of its right side.
fn by_not_left(bank: &mut Bank, alloc: Global, f: u64, a: u64) -> Result<Option<Given>, Memory>
    requires below { AreBelow (length bank.old) (f ∷ a ∷ []) }
    requires closed { IsScoped 0 (tree_at bank.old a) }
    ensures extends { Extends bank.old bank.new }
    ensures distinct { IsDistinct bank.new }
    ensures ok { IfOk result (λ o. HasAnswer bank.new o
        (by_not_left (tree_at bank.old f) (left_side (tree_at bank.old a)))) }
{
    let _count = bank.count();
    match left_side(bank, alloc, a)? {
        Some(left) => {
            let rule = Rule::DeniedLeftSide(left.schema);
            Ok(Some(gives(bank, alloc, rule, f, &[left.right], &[Shape::Not(0)], &[1])?))
        }
        None => Ok(None),
    }
}

/// What the Not f of a gives.
fn by_not(bank: &mut Bank, alloc: Global, f: u64, a: u64) -> Result<Option<Given>, Memory>
    requires below { AreBelow (length bank.old) (f ∷ a ∷ []) }
    requires is_not { tree_at bank.old f ≡ not_ (tree_at bank.old a) }
    requires closed { IsScoped 0 (tree_at bank.old a) }
    ensures extends { Extends bank.old bank.new }
    ensures distinct { IsDistinct bank.new }
    ensures ok { IfOk result (λ o. HasAnswer bank.new o (plain (tree_at bank.old f))) }
{
    let _count = bank.count();
    match shape_at(bank, a) {
        Shape::Not(b) => Ok(Some(gives(bank, alloc, Rule::DoubleNot, f, &[b], &[], &[0])?)),
        Shape::Or(x, y) => {
            let (rule, forms) = (Rule::DeniedDisjunction, &[Shape::Not(0), Shape::Not(1)]);
            Ok(Some(gives(bank, alloc, rule, f, &[x, y], forms, &[2, 3])?))
        }
        Shape::Imp(x, y) => {
            let rule = Rule::DeniedImplication;
            Ok(Some(gives(bank, alloc, rule, f, &[x, y], &[Shape::Not(1)], &[0, 2])?))
        }
        _ => by_not_left(bank, alloc, f, a),
    }
}

/// What the membership f of t in [s -> u] gives.
fn by_function_set(
    bank: &mut Bank,
    alloc: Global,
    f: u64,
    t: u64,
    s: u64,
    u: u64,
) -> Result<Given, Memory>
    requires below { AreBelow (length bank.old) (f ∷ t ∷ s ∷ u ∷ []) }
    requires function { IsScoped 0 (tree_at bank.old t) }
    requires domain { IsScoped 0 (tree_at bank.old s) }
    requires range { IsScoped 0 (tree_at bank.old u) }
    ensures extends { Extends bank.old bank.new }
    ensures distinct { IsDistinct bank.new }
    ensures ok { IfOk result (λ g. HasStep bank.new g (alone FunctionSet (tree_at bank.old f)
        (own_values (tree_at bank.old t) (tree_at bank.old s)
        ∷ eq_ (dom_ (tree_at bank.old t)) (tree_at bank.old s)
        ∷ values_within (tree_at bank.old t) (tree_at bank.old s) (tree_at bank.old u) ∷ []))) }
{
    let own = own_values(bank, alloc, t, s)?;
    let within = values_within(bank, alloc, t, s, u)?;
    let forms = &[Shape::Dom(0), Shape::Eq(4, 1)];
    gives(
        bank,
        alloc,
        Rule::FunctionSet,
        f,
        &[t, s, own, within],
        forms,
        &[2, 5, 3],
    )
}

/// What the membership f of t in s gives.
fn by_member(
    bank: &mut Bank,
    alloc: Global,
    f: u64,
    t: u64,
    s: u64,
) -> Result<Option<Given>, Memory>
    requires below { AreBelow (length bank.old) (f ∷ t ∷ s ∷ []) }
    requires is_member { tree_at bank.old f ≡ in_ (tree_at bank.old t) (tree_at bank.old s) }
    requires closed { IsScoped 0 (tree_at bank.old f) }
    ensures extends { Extends bank.old bank.new }
    ensures distinct { IsDistinct bank.new }
    ensures ok { IfOk result (λ o. HasAnswer bank.new o (plain (tree_at bank.old f))) }
{
    let _count = bank.count();
    match shape_at(bank, s) {
        Shape::FunSet(a, b) => Ok(Some(by_function_set(bank, alloc, f, t, a, b)?)),
        _ => by_left(bank, alloc, f),
    }
}

/// Rank plain: what a closed formula gives by its parts where one branch is enough, or as a left side of a schema or the Not
/// of one. None exactly where the rank does not fit.
pub fn plain(bank: &mut Bank, alloc: Global, f: u64) -> Result<Option<Given>, Memory>
    requires within { f < length bank.old }
    requires closed { IsScoped 0 (tree_at bank.old f) }
    ensures extends { Extends bank.old bank.new }
    ensures distinct { IsDistinct bank.new }
    ensures ok { IfOk result (λ o. HasAnswer bank.new o (plain (tree_at bank.old f))) }
{
    let _count = bank.count();
    match shape_at(bank, f) {
        Shape::Not(a) => by_not(bank, alloc, f, a),
        Shape::And(a, b) => {
            Ok(Some(gives(bank, alloc, Rule::Conjunction, f, &[a, b], &[], &[0, 1])?))
        }
        Shape::In(t, s) => by_member(bank, alloc, f, t, s),
        _ => by_left(bank, alloc, f),
    }
}
