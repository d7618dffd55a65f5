//! What it is to be in a set.
ghost use Rattle.std.specs.Prelude.{◌<◌, ◌∷◌, [], length, IfOk};
ghost use Rattle.core_expr.specs.Nodes.{AreBelow};
ghost use Rattle.core_expr.specs.Tree.{or_, false_};
ghost use Rattle.core_expr.specs.Put.{IsScoped};
ghost use Rattle.core_expr.specs.Heads.{subtrees};
ghost use Rattle.seq_calculus.specs.Schemas.{join, equals_each};
ghost use Rattle.term_bank.specs.Banks.{IsDistinct, Extends, HasTree, tree_at};
ghost use Rattle.search_definition.specs.Plain.{member};
ghost use Rattle.formula_rules.specs.Answers.{IsSubject, SaysLeft};

use crate::join::{Join, equals_each, join_all};
use crate::left::LeftSide;
use crate::meaning::{in_filter, in_functions, some_equals, some_has};
use core_expr::Memory;
use std::alloc::Global;
use term_bank::Bank;
use term_shapes::{Shape, build, make, parts_at, shape_at};

/// That a term equals one of the entries of an enumeration.
fn in_enumeration(bank: &mut Bank, alloc: Global, t: u64, s: u64) -> Result<u64, Memory>
    requires below { AreBelow (length bank.old) (t ∷ s ∷ []) }
    ensures extends { Extends bank.old bank.new }
    ensures distinct { IsDistinct bank.new }
    ensures ok { IfOk result (λ k. HasTree bank.new k (join (λ a b. or_ a b) false_
        (equals_each (tree_at bank.old t) (subtrees (tree_at bank.old s))))) }
{
    let _count = bank.count();
    let entries = Vec::from_slice(alloc, parts_at(bank, s))?;
    let equations = equals_each(bank, alloc, t, entries.as_slice())?;
    join_all(bank, alloc, Join::Or, equations.as_slice())
}

/// That a term is in a set, as the left side of a schema: None exactly where no schema fits the set.
pub fn member(bank: &mut Bank, alloc: Global, t: u64, s: u64) -> Result<Option<LeftSide>, Memory>
    requires below { AreBelow (length bank.old) (t ∷ s ∷ []) }
    requires subject { IsSubject (tree_at bank.old t) }
    requires closed { IsScoped 0 (tree_at bank.old s) }
    ensures extends { Extends bank.old bank.new }
    ensures distinct { IsDistinct bank.new }
    ensures ok { IfOk result (λ o.
        SaysLeft bank.new o (member (tree_at bank.old t) (tree_at bank.old s))) }
{
    let _count = bank.count();
    let (schema, right) = match shape_at(bank, s) {
        Shape::Enum => (1, in_enumeration(bank, alloc, t, s)?),
        Shape::Cup(a, b) => {
            let forms = &[Shape::In(0, 1), Shape::In(0, 2), Shape::Or(3, 4)];
            (2, build(bank, alloc, &[t, a, b], forms)?)
        }
        Shape::Cap(a, b) => {
            let forms = &[Shape::In(0, 1), Shape::In(0, 2), Shape::And(3, 4)];
            (3, build(bank, alloc, &[t, a, b], forms)?)
        }
        Shape::Diff(a, b) => {
            let forms = &[
                Shape::In(0, 1),
                Shape::In(0, 2),
                Shape::Not(4),
                Shape::And(3, 5),
            ];
            (4, build(bank, alloc, &[t, a, b], forms)?)
        }
        Shape::Power(a) => (5, make(bank, alloc, Shape::Subseteq(t, a))?),
        Shape::Union(a) => (6, some_has(bank, alloc, t, a)?),
        Shape::Filter(a, p) => (7, in_filter(bank, alloc, t, a, p)?),
        Shape::Image(a, e) => (8, some_equals(bank, alloc, t, a, e)?),
        Shape::Boolean => {
            let forms = &[
                Shape::True,
                Shape::False,
                Shape::Eq(0, 1),
                Shape::Eq(0, 2),
                Shape::Or(3, 4),
            ];
            (9, build(bank, alloc, &[t], forms)?)
        }
        Shape::FunSet(a, b) => (18, in_functions(bank, alloc, t, a, b)?),
        _ => return Ok(None),
    };
    Ok(Some(LeftSide { schema, right }))
}
