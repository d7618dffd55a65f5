//! Equations that rewrite a term.
ghost use Rattle.std.specs.Prelude.{◌≡◌, ◌<◌, ◌∷◌, [], length, IfOk};
ghost use Rattle.core_expr.specs.Nodes.{AreBelow};
ghost use Rattle.core_expr.specs.Tree.{apply_, dom_, fun_, tuple_, num_};
ghost use Rattle.core_expr.specs.Heads.{subtrees, parts_of};
ghost use Rattle.core_expr.specs.Put.{IsScoped};
ghost use Rattle.seq_calculus.specs.Schemas.{changed_value, nth};
ghost use Rattle.term_bank.specs.Banks.{IsDistinct, Extends, HasTree, tree_at};
ghost use Rattle.search_definition.specs.Plain.{rewrite_of};
ghost use Rattle.formula_rules.specs.Answers.{HasEquation, HasTerm};

use core_expr::Memory;
use std::alloc::Global;
use term_bank::Bank;
use term_shapes::{Shape, build, parts_at, shape_at};

/// The equation of a schema: its number, and the indices of its two sides.
#[derive(Clone, Copy, Debug)]
pub struct Equation {
    pub schema: u64,
    pub from: u64,
    pub to: u64,
}

/// `[x \in DOMAIN f |-> IF x = a THEN b ELSE f[x]]`.
fn changed(bank: &mut Bank, alloc: Global, f: u64, a: u64, b: u64) -> Result<u64, Memory>
    requires below { AreBelow (length bank.old) (f ∷ a ∷ b ∷ []) }
    requires function { IsScoped 0 (tree_at bank.old f) }
    requires place { IsScoped 0 (tree_at bank.old a) }
    requires value { IsScoped 0 (tree_at bank.old b) }
    ensures extends { Extends bank.old bank.new }
    ensures distinct { IsDistinct bank.new }
    ensures ok { IfOk result (λ k. HasTree bank.new k (fun_ (dom_ (tree_at bank.old f))
        (changed_value (tree_at bank.old f) (tree_at bank.old a) (tree_at bank.old b)))) }
{
    build(
        bank,
        alloc,
        &[f, a, b],
        &[
            Shape::Dom(0),
            Shape::Bound(0),
            Shape::Eq(4, 1),
            Shape::Apply(0, 4),
            Shape::If(5, 2, 6),
            Shape::Fun(3, 7),
        ],
    )
}

/// The equation of `DOMAIN f`.
fn of_domain(bank: &Bank, t: u64, f: u64) -> Option<Equation>
    requires below { AreBelow (length bank.now) (t ∷ f ∷ []) }
    requires is_domain { tree_at bank.now t ≡ dom_ (tree_at bank.now f) }
    ensures { HasEquation bank.now result (rewrite_of (tree_at bank.now t)) }
{
    match shape_at(bank, f) {
        Shape::Fun(s, _) => Some(Equation {
            schema: 15,
            from: t,
            to: s,
        }),
        _ => None,
    }
}

/// The part at a place; None exactly past the last.
fn part_at(bank: &Bank, t: u64, k: u64) -> Option<u64>
    requires { t < length bank.now }
    ensures { HasTerm bank.now result (nth (subtrees (tree_at bank.now t)) k) }
{
    let parts = parts_at(bank, t);
    if k >= parts.len() as u64 {
        return None;
    }
    Some(parts[k as usize])
}

/// The equation of the entry k of a tuple, which is counted from 1; None exactly where there is none.
fn of_entry(bank: &Bank, t: u64, f: u64, k: u64) -> Option<Equation>
    requires below { AreBelow (length bank.now) (t ∷ f ∷ []) }
    requires is_entry { tree_at bank.now t ≡ apply_ (tuple_ (parts_of (subtrees (tree_at bank.now f)))) (num_ 0 k) }
    ensures { HasEquation bank.now result (rewrite_of (tree_at bank.now t)) }
{
    if k == 0 {
        return None;
    }
    match part_at(bank, f, k - 1) {
        Some(part) => Some(Equation {
            schema: 21,
            from: t,
            to: part,
        }),
        None => None,
    }
}

/// The equation of a tuple at an argument.
fn of_tuple_at(bank: &Bank, t: u64, f: u64, a: u64) -> Option<Equation>
    requires below { AreBelow (length bank.now) (t ∷ f ∷ a ∷ []) }
    requires is_tuple { tree_at bank.now t
        ≡ apply_ (tuple_ (parts_of (subtrees (tree_at bank.now f)))) (tree_at bank.now a) }
    ensures { HasEquation bank.now result (rewrite_of (tree_at bank.now t)) }
{
    match shape_at(bank, a) {
        Shape::Num(0, k) => of_entry(bank, t, f, k),
        _ => None,
    }
}

/// The equation of `f[a]`.
fn of_application(bank: &Bank, t: u64, f: u64, a: u64) -> Option<Equation>
    requires below { AreBelow (length bank.now) (t ∷ f ∷ a ∷ []) }
    requires is_application { tree_at bank.now t
        ≡ apply_ (tree_at bank.now f) (tree_at bank.now a) }
    ensures { HasEquation bank.now result (rewrite_of (tree_at bank.now t)) }
{
    match shape_at(bank, f) {
        Shape::Tuple => of_tuple_at(bank, t, f, a),
        _ => None,
    }
}

/// The equation that rewrites this very closed term: DOMAIN of a function constructor, an EXCEPT, or a tuple at a numeral in
/// range. None exactly where there is none.
pub fn rewrite_of(bank: &mut Bank, alloc: Global, t: u64) -> Result<Option<Equation>, Memory>
    requires within { t < length bank.old }
    requires closed { IsScoped 0 (tree_at bank.old t) }
    ensures extends { Extends bank.old bank.new }
    ensures distinct { IsDistinct bank.new }
    ensures ok { IfOk result (λ o. HasEquation bank.new o (rewrite_of (tree_at bank.old t))) }
{
    let _count = bank.count();
    match shape_at(bank, t) {
        Shape::Dom(f) => Ok(of_domain(bank, t, f)),
        Shape::Apply(f, a) => Ok(of_application(bank, t, f, a)),
        Shape::Except(f, a, b) => Ok(Some(Equation {
            schema: 19,
            from: t,
            to: changed(bank, alloc, f, a, b)?,
        })),
        _ => Ok(None),
    }
}
