//! The left sides of schemas.
ghost use Rattle.std.specs.Prelude.{◌≡◌, ◌<◌, ◌∷◌, [], length, IfOk};
ghost use Rattle.core_expr.specs.Nodes.{AreBelow};
ghost use Rattle.core_expr.specs.Tree.{eq_, fun_, tuple_};
ghost use Rattle.core_expr.specs.Put.{IsScoped};
ghost use Rattle.core_expr.specs.Heads.{subtrees, parts_of};
ghost use Rattle.term_bank.specs.Banks.{IsDistinct, Extends, HasTree, tree_at};
ghost use Rattle.search_definition.specs.Plain.{left_side};
ghost use Rattle.formula_rules.specs.Answers.{SaysLeft, tuples_mean};

use crate::join::{Join, equal_pairs, join_all};
use crate::meaning::{all_within, same_functions};
use crate::membership::member;
use core_expr::Memory;
use std::alloc::Global;
use term_bank::Bank;
use term_shapes::{Shape, make, parts_at, shape_at};

/// A formula as the left side of a schema: the schema's number, and the index of the right side.
#[derive(Clone, Copy, Debug)]
pub struct LeftSide {
    pub schema: u64,
    pub right: u64,
}

/// An equation whose left side is a function constructor.
fn of_function(
    bank: &mut Bank,
    alloc: Global,
    s: u64,
    d: u64,
    b: u64,
) -> Result<Option<LeftSide>, Memory>
    requires below { AreBelow (length bank.old) (s ∷ d ∷ b ∷ []) }
    requires closed { IsScoped 0 (tree_at bank.old s) }
    ensures extends { Extends bank.old bank.new }
    ensures distinct { IsDistinct bank.new }
    ensures ok { IfOk result (λ o. SaysLeft bank.new o
        (left_side (eq_ (fun_ (tree_at bank.old s) (tree_at bank.old d)) (tree_at bank.old b)))) }
{
    let _count = bank.count();
    match shape_at(bank, b) {
        Shape::Fun(t, e) => Ok(Some(LeftSide {
            schema: 17,
            right: same_functions(bank, alloc, s, d, t, e)?,
        })),
        _ => Ok(None),
    }
}

/// What the equality of two tuples means.
fn same_tuples(bank: &mut Bank, alloc: Global, a: u64, b: u64) -> Result<u64, Memory>
    requires below { AreBelow (length bank.old) (a ∷ b ∷ []) }
    ensures extends { Extends bank.old bank.new }
    ensures distinct { IsDistinct bank.new }
    ensures ok { IfOk result (λ k. HasTree bank.new k
        (tuples_mean (subtrees (tree_at bank.old a)) (subtrees (tree_at bank.old b)))) }
{
    let _count = bank.count();
    let left = Vec::from_slice(alloc, parts_at(bank, a))?;
    let right = Vec::from_slice(alloc, parts_at(bank, b))?;
    if left.len() != right.len() {
        return make(bank, alloc, Shape::False);
    }
    let equations = equal_pairs(bank, alloc, left.as_slice(), right.as_slice())?;
    join_all(bank, alloc, Join::And, equations.as_slice())
}

/// An equation whose left side is a tuple.
fn of_tuple(bank: &mut Bank, alloc: Global, a: u64, b: u64) -> Result<Option<LeftSide>, Memory>
    requires below { AreBelow (length bank.old) (a ∷ b ∷ []) }
    requires tuple { tree_at bank.old a ≡ tuple_ (parts_of (subtrees (tree_at bank.old a))) }
    ensures extends { Extends bank.old bank.new }
    ensures distinct { IsDistinct bank.new }
    ensures ok { IfOk result (λ o. SaysLeft bank.new o
        (left_side (eq_ (tree_at bank.old a) (tree_at bank.old b)))) }
{
    let _count = bank.count();
    match shape_at(bank, b) {
        Shape::Tuple => Ok(Some(LeftSide {
            schema: 20,
            right: same_tuples(bank, alloc, a, b)?,
        })),
        _ => Ok(None),
    }
}

/// An equation as a left side.
fn of_equation(bank: &mut Bank, alloc: Global, a: u64, b: u64) -> Result<Option<LeftSide>, Memory>
    requires below { AreBelow (length bank.old) (a ∷ b ∷ []) }
    requires closed { IsScoped 0 (tree_at bank.old a) }
    ensures extends { Extends bank.old bank.new }
    ensures distinct { IsDistinct bank.new }
    ensures ok { IfOk result (λ o. SaysLeft bank.new o
        (left_side (eq_ (tree_at bank.old a) (tree_at bank.old b)))) }
{
    let _count = bank.count();
    match shape_at(bank, a) {
        Shape::Fun(s, d) => of_function(bank, alloc, s, d, b),
        Shape::Tuple => of_tuple(bank, alloc, a, b),
        _ => Ok(None),
    }
}

/// The closed formula as the left side of a schema: None exactly where it is none.
pub fn left_side(bank: &mut Bank, alloc: Global, f: u64) -> Result<Option<LeftSide>, Memory>
    requires within { f < length bank.old }
    requires closed { IsScoped 0 (tree_at bank.old f) }
    ensures extends { Extends bank.old bank.new }
    ensures distinct { IsDistinct bank.new }
    ensures ok { IfOk result (λ o. SaysLeft bank.new o (left_side (tree_at bank.old f))) }
{
    let _count = bank.count();
    match shape_at(bank, f) {
        Shape::In(t, s) => member(bank, alloc, t, s),
        Shape::Subseteq(a, b) => Ok(Some(LeftSide {
            schema: 10,
            right: all_within(bank, alloc, a, b)?,
        })),
        Shape::Eq(a, b) => of_equation(bank, alloc, a, b),
        _ => Ok(None),
    }
}
