//! The rank term split, at an IF or at a function constructor that is applied.
ghost use Rattle.std.specs.Prelude.{◌≡◌, ◌<◌, ◌≤◌, [], ◌∷◌, ℕ, true, false, List, length, OnOk, IfOk, IfSome, IfNone};
ghost use Rattle.core_expr.specs.Tree.{Tree, if_, apply_, fun_};
ghost use Rattle.core_expr.specs.Nodes.{AreBelow, picked};
ghost use Rattle.core_expr.specs.Put.{IsScoped};
ghost use Rattle.seq_calculus.specs.Calculus.{IsClosed};
ghost use Rattle.proof_writer.specs.Written.{opens, count, tree_at};
ghost use Rattle.proof_writer.specs.Shapes.{first_of, second_of, rest_of, with_schema};
ghost use Rattle.proof_trees.specs.Cuts.{if_then, then_by, else_by, applied_by, term_split_by};
ghost use Rattle.equation_proofs.specs.TermSplits.{is_split, condition_of, when_so, when_not, settled_by};

use crate::replacing::put_for;
use core_expr::Memory;
use proof_writer::{Inference, Writer};
use rule_proofs::{Value, neg_left, show};
use sqlite_items::Items;
use std::alloc::Global;
use term_shapes::{Shape, shape_at};

/// The schema's instance is p => s = t, and p stands: the proof that is left has `f` with t for s.
#[tactic(auto, using(rule_proofs::proofs::Lefts::picked_same, rule_proofs::proofs::Lefts::below_wider))]
fn if_then(
    w: &mut Writer,
    alloc: Global,
    p: u64,
    s: u64,
    t: u64,
    f: u64,
    schema: u64,
    params: &[u64],
) -> Result<(), Memory>
    requires condition { p < count w.old }
    requires first { s < count w.old }
    requires second { t < count w.old }
    requires formula { f < count w.old }
    requires params { AreBelow (count w.old) params.now }
    requires some { 1 ≤ length (opens w.old) }
    ensures more { count w.old ≤ count w.new }
    ensures same { (i : ℕ) → i < count w.old → tree_at w.new i ≡ tree_at w.old i }
    ensures ok { OnOk result (opens w.new ≡ with_schema schema 0 (picked w.old.trees params.now)
        (if_then (tree_at w.old p) (tree_at w.old s) (tree_at w.old t) (tree_at w.old f)
        (first_of (opens w.old))) ∷ rest_of (opens w.old)) }
{
    let equation = w.make(alloc, Shape::Eq(s, t))?;
    put_for(w, alloc, s, t, f)?;
    w.infer(alloc, Inference::Axiom(p))?;
    w.infer(alloc, Inference::ImpLeft(p, equation))?;
    let params = Items::from_slice(alloc, params)?;
    w.schema(alloc, schema, 0, params)
}

/// `u` is IF p THEN x ELSE y, and p stands: the proof that is left has `f` with x for it.
fn then_over(
    w: &mut Writer,
    alloc: Global,
    u: u64,
    p: u64,
    x: u64,
    y: u64,
    f: u64,
) -> Result<(), Memory>
    requires term { u < count w.old }
    requires condition { p < count w.old }
    requires first { x < count w.old }
    requires second { y < count w.old }
    requires formula { f < count w.old }
    requires is { tree_at w.old u ≡ if_ (tree_at w.old p) (tree_at w.old x) (tree_at w.old y) }
    requires some { 1 ≤ length (opens w.old) }
    ensures more { count w.old ≤ count w.new }
    ensures same { (i : ℕ) → i < count w.old → tree_at w.new i ≡ tree_at w.old i }
    ensures ok { OnOk result (opens w.new ≡ then_by (tree_at w.old p) (tree_at w.old x)
        (tree_at w.old y) (tree_at w.old f) (first_of (opens w.old)) ∷ rest_of (opens w.old)) }
{
    if_then(w, alloc, p, u, x, f, 13, &[p, x, y])
}

/// `u` is IF p THEN x ELSE y, and ~p stands: the proof that is left has `f` with y for it.
fn else_over(
    w: &mut Writer,
    alloc: Global,
    u: u64,
    p: u64,
    x: u64,
    y: u64,
    f: u64,
) -> Result<(), Memory>
    requires term { u < count w.old }
    requires condition { p < count w.old }
    requires first { x < count w.old }
    requires second { y < count w.old }
    requires formula { f < count w.old }
    requires is { tree_at w.old u ≡ if_ (tree_at w.old p) (tree_at w.old x) (tree_at w.old y) }
    requires some { 1 ≤ length (opens w.old) }
    ensures more { count w.old ≤ count w.new }
    ensures same { (i : ℕ) → i < count w.old → tree_at w.new i ≡ tree_at w.old i }
    ensures ok { OnOk result (opens w.new ≡ else_by (tree_at w.old p) (tree_at w.old x)
        (tree_at w.old y) (tree_at w.old f) (first_of (opens w.old)) ∷ rest_of (opens w.old)) }
{
    let not = w.make(alloc, Shape::Not(p))?;
    if_then(w, alloc, not, u, y, f, 14, &[p, x, y])
}

/// `u` is [x \in S |-> e][a], and a \in S stands: the proof that is left has `f` with e[a] for it.
fn applied_over(
    w: &mut Writer,
    alloc: Global,
    u: u64,
    a: u64,
    s: u64,
    e: u64,
    f: u64,
) -> Result<(), Memory>
    requires term { u < count w.old }
    requires argument { a < count w.old }
    requires set { s < count w.old }
    requires values { e < count w.old }
    requires formula { f < count w.old }
    requires is { tree_at w.old u
        ≡ apply_ (fun_ (tree_at w.old s) (tree_at w.old e)) (tree_at w.old a) }
    requires closed { IsClosed (tree_at w.old a) }
    requires scoped { IsScoped 1 (tree_at w.old e) }
    requires some { 1 ≤ length (opens w.old) }
    ensures more { count w.old ≤ count w.new }
    ensures same { (i : ℕ) → i < count w.old → tree_at w.new i ≡ tree_at w.old i }
    ensures ok { OnOk result (opens w.new ≡ applied_by (tree_at w.old a) (tree_at w.old s)
        (tree_at w.old e) (tree_at w.old f) (first_of (opens w.old)) ∷ rest_of (opens w.old)) }
{
    let put = w.inst(alloc, e, a)?;
    let member = w.make(alloc, Shape::In(a, s))?;
    if_then(w, alloc, member, u, put, f, 16, &[a, s, e])
}

/// What stands over the proof of the side where the condition of `u` holds.
fn over_so(w: &mut Writer, alloc: Global, u: u64, f: u64) -> Result<(), Memory>
    requires term { u < count w.old }
    requires formula { f < count w.old }
    requires closed { IsClosed (tree_at w.old u) }
    requires some { 1 ≤ length (opens w.old) }
    ensures more { count w.old ≤ count w.new }
    ensures same { (i : ℕ) → i < count w.old → tree_at w.new i ≡ tree_at w.old i }
    ensures ok { OnOk result (opens w.new ≡ when_so (tree_at w.old u) (tree_at w.old f)
        (first_of (opens w.old)) ∷ rest_of (opens w.old)) }
{
    match shape_at(w.bank(), u) {
        Shape::If(p, x, y) => then_over(w, alloc, u, p, x, y, f),
        Shape::Apply(g, a) => match shape_at(w.bank(), g) {
            Shape::Fun(s, e) => applied_over(w, alloc, u, a, s, e, f),
            _ => Ok(()),
        },
        _ => Ok(()),
    }
}

/// What stands over the proof of the side where it does not hold.
fn over_not(w: &mut Writer, alloc: Global, u: u64, f: u64) -> Result<(), Memory>
    requires term { u < count w.old }
    requires formula { f < count w.old }
    requires some { 1 ≤ length (opens w.old) }
    ensures more { count w.old ≤ count w.new }
    ensures same { (i : ℕ) → i < count w.old → tree_at w.new i ≡ tree_at w.old i }
    ensures ok { OnOk result (opens w.new ≡ when_not (tree_at w.old u) (tree_at w.old f)
        (first_of (opens w.old)) ∷ rest_of (opens w.old)) }
{
    match shape_at(w.bank(), u) {
        Shape::If(p, x, y) => else_over(w, alloc, u, p, x, y, f),
        _ => Ok(()),
    }
}

/// The condition by which a term is split: None exactly where it is not.
fn condition(w: &mut Writer, alloc: Global, u: u64) -> Result<Option<u64>, Memory>
    requires { u < count w.old }
    ensures more { count w.old ≤ count w.new }
    ensures same { (i : ℕ) → i < count w.old → tree_at w.new i ≡ tree_at w.old i }
    ensures opens { opens w.new ≡ opens w.old }
    ensures none { IfOk result (λ o. IfNone o (is_split (tree_at w.old u) ≡ false)) }
    ensures some { IfOk result (λ o. IfSome o (λ p. is_split (tree_at w.old u) ≡ true)) }
    ensures within { IfOk result (λ o. IfSome o (λ p. (p < count w.new)
        × (tree_at w.new p ≡ condition_of (tree_at w.old u)))) }
{
    match shape_at(w.bank(), u) {
        Shape::If(p, _, _) => Ok(Some(p)),
        Shape::Apply(g, a) => match shape_at(w.bank(), g) {
            Shape::Fun(s, _) => Ok(Some(w.make(alloc, Shape::In(a, s))?)),
            _ => Ok(None),
        },
        _ => Ok(None),
    }
}

/// A term split that the value of the condition `p` on the grounds settles.
#[tactic(auto, using(rule_proofs::proofs::Lefts::picked_same, rule_proofs::proofs::Lefts::below_wider))]
fn settle(
    w: &mut Writer,
    alloc: Global,
    grounds: &[u64],
    u: u64,
    p: u64,
    f: u64,
) -> Result<(), Memory>
    requires grounds { AreBelow (count w.old) grounds.now }
    requires term { u < count w.old }
    requires condition { p < count w.old }
    requires formula { f < count w.old }
    requires is { tree_at w.old p ≡ condition_of (tree_at w.old u) }
    requires closed { IsClosed (tree_at w.old u) }
    requires some { 1 ≤ length (opens w.old) }
    ensures more { count w.old ≤ count w.new }
    ensures same { (i : ℕ) → i < count w.old → tree_at w.new i ≡ tree_at w.old i }
    ensures ok { OnOk result (opens w.new ≡ settled_by (tree_at w.old u) (tree_at w.old f)
        (picked w.old.trees grounds.now) (first_of (opens w.old)) ∷ rest_of (opens w.old)) }
{
    match show(w, alloc, grounds, p)? {
        Value::Yes => {
            w.swap()?;
            over_so(w, alloc, u, f)?;
            w.swap()?;
            w.infer(alloc, Inference::Cut(p))
        }
        Value::No => {
            let not = w.make(alloc, Shape::Not(p))?;
            w.infer(alloc, Inference::NotRight(p))?;
            w.swap()?;
            over_not(w, alloc, u, f)?;
            w.swap()?;
            w.infer(alloc, Inference::Cut(not))
        }
        Value::Unknown => {
            w.discard();
            Ok(())
        }
    }
}

/// A term split at `u` in the formula `f` that the grounds settle, over the latest proof.
#[tactic(auto, using(rule_proofs::proofs::Lefts::picked_same, rule_proofs::proofs::Lefts::below_wider, crate::proofs::TermSplitLaws::none_split, crate::proofs::TermSplitLaws::one_split))]
pub fn split_settled(
    w: &mut Writer,
    alloc: Global,
    grounds: &[u64],
    u: u64,
    f: u64,
) -> Result<(), Memory>
    requires grounds { AreBelow (count w.old) grounds.now }
    requires term { u < count w.old }
    requires formula { f < count w.old }
    requires closed { IsClosed (tree_at w.old u) }
    requires some { 1 ≤ length (opens w.old) }
    ensures more { count w.old ≤ count w.new }
    ensures same { (i : ℕ) → i < count w.old → tree_at w.new i ≡ tree_at w.old i }
    ensures ok { OnOk result (opens w.new ≡ term_split_by (tree_at w.old u) (tree_at w.old f)
        (picked w.old.trees grounds.now) (first_of (opens w.old) ∷ []) ∷ rest_of (opens w.old)) }
{
    match condition(w, alloc, u)? {
        Some(p) => settle(w, alloc, grounds, u, p, f),
        None => {
            w.discard();
            w.infer(alloc, Inference::TrueRight)
        }
    }
}

/// A term split at `u` in the formula `f` over the proofs of both sides.
#[tactic(auto, using(rule_proofs::proofs::Lefts::picked_same, crate::proofs::TermSplitLaws::none_split, crate::proofs::TermSplitLaws::both_split))]
pub fn split_both(w: &mut Writer, alloc: Global, u: u64, f: u64) -> Result<(), Memory>
    requires term { u < count w.old }
    requires formula { f < count w.old }
    requires closed { IsClosed (tree_at w.old u) }
    requires some { 2 ≤ length (opens w.old) }
    ensures more { count w.old ≤ count w.new }
    ensures same { (i : ℕ) → i < count w.old → tree_at w.new i ≡ tree_at w.old i }
    ensures ok { OnOk result ((gs : List Tree) → opens w.new ≡ term_split_by (tree_at w.old u)
        (tree_at w.old f) gs (first_of (opens w.old) ∷ second_of (opens w.old) ∷ [])
        ∷ rest_of (rest_of (opens w.old))) }
{
    match condition(w, alloc, u)? {
        Some(p) => {
            over_so(w, alloc, u, f)?;
            w.swap()?;
            over_not(w, alloc, u, f)?;
            neg_left(w, alloc, p)?;
            w.infer(alloc, Inference::Cut(p))
        }
        None => {
            w.discard();
            w.discard();
            w.infer(alloc, Inference::TrueRight)
        }
    }
}
