//! Left sides of schemas.
ghost use Rattle.std.specs.Prelude.{◌≡◌, ◌<◌, ◌≤◌, [], ◌∷◌, ◌++◌, ℕ, length, OnOk, IfOk};
ghost use Rattle.core_expr.specs.Tree.{not_, in_, eq_};
ghost use Rattle.core_expr.specs.Nodes.{AreBelow, picked};
ghost use Rattle.term_bank.specs.Banks.{tree_at as bank_tree};
ghost use Rattle.search_definition.specs.Plain.{member, left_side};
ghost use Rattle.proof_writer.specs.Written.{opens, count, tree_at};
ghost use Rattle.proof_writer.specs.Shapes.{first_of, rest_of, iff_left, iff_not};
ghost use Rattle.proof_trees.specs.Simple.{left_side_by, denied_side_by, by_left};
ghost use Rattle.proof_trees.specs.Equated.{iff_back, left_back, member_at};
ghost use Rattle.rule_proofs.specs.Lefts.{IsLeft, AreUnder, IsRight, left_of};

use crate::shapes::{clash, neg_left};
use core_expr::Memory;
use proof_writer::{Inference, Writer};
use sqlite_items::Items;
use std::alloc::Global;
use term_bank::Bank;
use term_shapes::{Shape, parts_at, shape_at};

/// The left side of an equivalence schema: the schema's number, its z and the numbers of its parameters.
#[derive(Debug, Drop)]
pub struct LeftSide {
    pub schema: u64,
    pub z: u64,
    pub params: Items<u64>,
}

/// The left side of this schema with these parameters.
fn left(alloc: Global, schema: u64, z: u64, params: &[u64]) -> Result<Option<LeftSide>, Memory>
    ensures { IfOk result (λ o. o ≡ left_of schema z params.now) }
{
    Ok(Some(LeftSide {
        schema,
        z,
        params: Items::from_slice(alloc, params)?,
    }))
}

/// The left side with these parameters and then those of a list.
fn left_with(
    alloc: Global,
    schema: u64,
    z: u64,
    front: &[u64],
    back: &[u64],
) -> Result<Option<LeftSide>, Memory>
    ensures { IfOk result (λ o. o ≡ left_of schema z (front.now ++ back.now)) }
{
    let mut params = Items::from_slice(alloc, front)?;
    params.append(Items::from_slice(alloc, back)?)?;
    Ok(Some(LeftSide { schema, z, params }))
}

/// The term `t` in the set `x`, as the left side of a schema.
pub fn member(bank: &Bank, alloc: Global, t: u64, x: u64) -> Result<Option<LeftSide>, Memory>
    requires term { t < length bank.now }
    requires set { x < length bank.now }
    ensures is { IfOk result (λ o.
        IsLeft bank.now o (member (bank_tree bank.now t) (bank_tree bank.now x))) }
    ensures under { IfOk result (λ o. AreUnder (length bank.now) o) }
{
    match shape_at(bank, x) {
        Shape::Enum => left_with(alloc, 1, 0, &[t], parts_at(bank, x)),
        Shape::Cup(a, b) => left(alloc, 2, 0, &[t, a, b]),
        Shape::Cap(a, b) => left(alloc, 3, 0, &[t, a, b]),
        Shape::Diff(a, b) => left(alloc, 4, 0, &[t, a, b]),
        Shape::Power(a) => left(alloc, 5, 0, &[t, a]),
        Shape::Union(a) => left(alloc, 6, 0, &[t, a]),
        Shape::Filter(a, p) => left(alloc, 7, 0, &[t, a, p]),
        Shape::Image(a, e) => left(alloc, 8, 0, &[t, a, e]),
        Shape::Boolean => left(alloc, 9, 0, &[t]),
        Shape::FunSet(s, u) => left(alloc, 18, 0, &[t, s, u]),
        _ => Ok(None),
    }
}

/// An equation as the left side of a schema.
fn equation(bank: &Bank, alloc: Global, a: u64, b: u64) -> Result<Option<LeftSide>, Memory>
    requires first { a < length bank.now }
    requires second { b < length bank.now }
    ensures is { IfOk result (λ o.
        IsLeft bank.now o (left_side (eq_ (bank_tree bank.now a) (bank_tree bank.now b)))) }
    ensures under { IfOk result (λ o. AreUnder (length bank.now) o) }
{
    match (shape_at(bank, a), shape_at(bank, b)) {
        (Shape::Fun(s, d), Shape::Fun(t, e)) => left(alloc, 17, 0, &[s, d, t, e]),
        (Shape::Tuple, Shape::Tuple) => {
            let front = parts_at(bank, a);
            left_with(alloc, 20, front.len() as u64, front, parts_at(bank, b))
        }
        _ => Ok(None),
    }
}

/// The formula `f` as the left side of a schema.
pub fn left_side(bank: &Bank, alloc: Global, f: u64) -> Result<Option<LeftSide>, Memory>
    requires { f < length bank.now }
    ensures is { IfOk result (λ o. IsLeft bank.now o (left_side (bank_tree bank.now f))) }
    ensures under { IfOk result (λ o. AreUnder (length bank.now) o) }
{
    match shape_at(bank, f) {
        Shape::In(t, x) => member(bank, alloc, t, x),
        Shape::Subseteq(a, b) => left(alloc, 10, 0, &[a, b]),
        Shape::Eq(a, b) => equation(bank, alloc, a, b),
        _ => Ok(None),
    }
}

/// The schema's instance is f <=> right, and f is on the left of the proof that is made.
fn iff_left(w: &mut Writer, alloc: Global, l: LeftSide, f: u64, right: u64) -> Result<(), Memory>
    requires left { f < count w.old }
    requires right { right < count w.old }
    requires params { AreBelow (count w.old) l.params }
    requires some { 1 ≤ length (opens w.old) }
    ensures trees { w.new.trees ≡ w.old.trees }
    ensures ok { OnOk result (opens w.new
        ≡ iff_left l.schema l.z (picked w.old.trees l.params) (tree_at w.old f) (tree_at w.old right)
        (first_of (opens w.old)) ∷ rest_of (opens w.old)) }
{
    w.infer(alloc, Inference::Axiom(f))?;
    w.swap()?;
    w.infer(alloc, Inference::IffLeft(f, right))?;
    w.schema(alloc, l.schema, l.z, l.params)
}

/// The same, where the right side is on the left of the proof that is made.
fn iff_back(w: &mut Writer, alloc: Global, l: LeftSide, f: u64, right: u64) -> Result<(), Memory>
    requires left { f < count w.old }
    requires right { right < count w.old }
    requires params { AreBelow (count w.old) l.params }
    requires some { 1 ≤ length (opens w.old) }
    ensures trees { w.new.trees ≡ w.old.trees }
    ensures ok { OnOk result (opens w.new
        ≡ iff_back l.schema l.z (picked w.old.trees l.params) (tree_at w.old f) (tree_at w.old right)
        (first_of (opens w.old)) ∷ rest_of (opens w.old)) }
{
    w.infer(alloc, Inference::Axiom(right))?;
    w.swap()?;
    w.infer(alloc, Inference::IffLeft(f, right))?;
    w.schema(alloc, l.schema, l.z, l.params)
}

/// The formula `f`, whose right side is `right`, is on the left.
#[tactic(auto, using(crate::proofs::Lefts::over_left, crate::proofs::Lefts::over_none))]
pub fn left_over(w: &mut Writer, alloc: Global, f: u64, right: u64) -> Result<(), Memory>
    requires left { f < count w.old }
    requires right { right < count w.old }
    requires is { IsRight (left_side (tree_at w.old f)) (tree_at w.old right) }
    requires some { 1 ≤ length (opens w.old) }
    ensures trees { w.new.trees ≡ w.old.trees }
    ensures ok { OnOk result (opens w.new
        ≡ left_side_by (tree_at w.old f) (first_of (opens w.old)) ∷ rest_of (opens w.old)) }
{
    match left_side(w.bank(), alloc, f)? {
        Some(l) => iff_left(w, alloc, l, f, right),
        None => Ok(()),
    }
}

/// The Not of the formula `f`, whose right side is `right`, is on the left.
#[tactic(auto, using(crate::proofs::Lefts::not_left, crate::proofs::Lefts::not_none))]
pub fn not_over(w: &mut Writer, alloc: Global, f: u64, right: u64) -> Result<(), Memory>
    requires left { f < count w.old }
    requires right { right < count w.old }
    requires is { IsRight (left_side (tree_at w.old f)) (tree_at w.old right) }
    requires some { 1 ≤ length (opens w.old) }
    ensures more { count w.old ≤ count w.new }
    ensures same { (i : ℕ) → i < count w.old → tree_at w.new i ≡ tree_at w.old i }
    ensures ok { OnOk result (opens w.new
        ≡ denied_side_by (not_ (tree_at w.old f)) (first_of (opens w.old)) ∷ rest_of (opens w.old)) }
{
    match left_side(w.bank(), alloc, f)? {
        Some(l) => iff_not(w, alloc, l, f, right),
        None => Ok(()),
    }
}

/// The term `c` is in the set `x`, which the formula `f` says, on the left; `right` is what the members of `x` say of `c`.
#[tactic(auto, using(crate::proofs::Lefts::over_left, crate::proofs::Lefts::over_none, crate::proofs::Lefts::right_is))]
pub fn member_over(
    w: &mut Writer,
    alloc: Global,
    c: u64,
    x: u64,
    f: u64,
    right: u64,
) -> Result<(), Memory>
    requires term { c < count w.old }
    requires set { x < count w.old }
    requires left { f < count w.old }
    requires right { right < count w.old }
    requires says { tree_at w.old f ≡ in_ (tree_at w.old c) (tree_at w.old x) }
    requires is { tree_at w.old right ≡ member_at (tree_at w.old c) (tree_at w.old x) }
    requires some { 1 ≤ length (opens w.old) }
    ensures trees { w.new.trees ≡ w.old.trees }
    ensures ok { OnOk result (opens w.new ≡ by_left (in_ (tree_at w.old c) (tree_at w.old x))
        (member (tree_at w.old c) (tree_at w.old x)) (first_of (opens w.old)) ∷ rest_of (opens w.old)) }
{
    match member(w.bank(), alloc, c, x)? {
        Some(l) => iff_left(w, alloc, l, f, right),
        None => Ok(()),
    }
}

/// From a proof that has the formula `f` on the left, which says that `c` is in `x`, one that has `right` there.
#[tactic(auto, using(crate::proofs::Lefts::back_left, crate::proofs::Lefts::back_none, crate::proofs::Lefts::right_is))]
pub fn member_back(
    w: &mut Writer,
    alloc: Global,
    c: u64,
    x: u64,
    f: u64,
    right: u64,
) -> Result<(), Memory>
    requires term { c < count w.old }
    requires set { x < count w.old }
    requires left { f < count w.old }
    requires right { right < count w.old }
    requires says { tree_at w.old f ≡ in_ (tree_at w.old c) (tree_at w.old x) }
    requires is { tree_at w.old right ≡ member_at (tree_at w.old c) (tree_at w.old x) }
    requires some { 1 ≤ length (opens w.old) }
    ensures trees { w.new.trees ≡ w.old.trees }
    ensures ok { OnOk result (opens w.new ≡ left_back (in_ (tree_at w.old c) (tree_at w.old x))
        (member (tree_at w.old c) (tree_at w.old x)) (first_of (opens w.old)) ∷ rest_of (opens w.old)) }
{
    match member(w.bank(), alloc, c, x)? {
        Some(l) => iff_back(w, alloc, l, f, right),
        None => Ok(()),
    }
}

/// The schema's instance is f <=> right, and ~f is on the left of the proof that is made.
#[tactic(auto, using(crate::proofs::Lefts::picked_same, crate::proofs::Lefts::below_wider))]
fn iff_not(w: &mut Writer, alloc: Global, l: LeftSide, f: u64, right: u64) -> Result<(), Memory>
    requires left { f < count w.old }
    requires right { right < count w.old }
    requires params { AreBelow (count w.old) l.params }
    requires some { 1 ≤ length (opens w.old) }
    ensures more { count w.old ≤ count w.new }
    ensures same { (i : ℕ) → i < count w.old → tree_at w.new i ≡ tree_at w.old i }
    ensures ok { OnOk result (opens w.new
        ≡ iff_not l.schema l.z (picked w.old.trees l.params) (tree_at w.old f) (tree_at w.old right)
        (first_of (opens w.old)) ∷ rest_of (opens w.old)) }
{
    neg_left(w, alloc, right)?;
    clash(w, alloc, f)?;
    w.infer(alloc, Inference::IffLeft(f, right))?;
    w.schema(alloc, l.schema, l.z, l.params)
}
