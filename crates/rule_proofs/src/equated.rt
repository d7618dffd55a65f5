//! Function sets and what equations say.
ghost use Rattle.std.specs.Prelude.{◌≡◌, ◌<◌, ◌≤◌, [], ◌∷◌, ℕ, false, length, OnOk, IfOk, IfSome, IfNone};
ghost use Rattle.core_expr.specs.Tree.{not_, imp_, in_, eq_, apply_, fun_, funset_, all_};
ghost use Rattle.core_expr.specs.Tree.Tree.{bound};
ghost use Rattle.core_expr.specs.Put.{inst, IsScoped};
ghost use Rattle.seq_calculus.specs.Calculus.{IsClosed};
ghost use Rattle.term_bank.specs.Banks.{tree_at as bank_tree};
ghost use Rattle.search_definition.specs.Equations.{is_fun};
ghost use Rattle.proof_writer.specs.Written.{opens, count, tree_at};
ghost use Rattle.proof_writer.specs.Shapes.{first_of, rest_of};
ghost use Rattle.proof_trees.specs.Equated.{domain_by, function_set_by, at_body, value_at, values_shown, described_by, function_values_by, not_mirror, denied_by, said_by, other_function_by};

use crate::closing::equal;
use crate::shapes::mirror;
use core_expr::Memory;
use proof_writer::{Inference, Writer};
use sqlite_items::Items;
use std::alloc::Global;
use term_bank::Bank;
use term_shapes::{Shape, shape_at};

/// `u`, which is Fun(S; e), equals `g`; the proof that is left has DOMAIN g = S on the left.
fn domain(w: &mut Writer, alloc: Global, g: u64, s: u64, e: u64, u: u64) -> Result<(), Memory>
    requires function { g < count w.old }
    requires set { s < count w.old }
    requires values { e < count w.old }
    requires whole { u < count w.old }
    requires is { tree_at w.old u ≡ fun_ (tree_at w.old s) (tree_at w.old e) }
    requires some { 1 ≤ length (opens w.old) }
    ensures more { count w.old ≤ count w.new }
    ensures same { (i : ℕ) → i < count w.old → tree_at w.new i ≡ tree_at w.old i }
    ensures ok { OnOk result (opens w.new
        ≡ domain_by (tree_at w.old g) (tree_at w.old s) (tree_at w.old e) (first_of (opens w.old))
        ∷ rest_of (opens w.old)) }
{
    let variable = w.make(alloc, Shape::Bound(0))?;
    let side = w.make(alloc, Shape::Dom(variable))?;
    let pattern = w.make(alloc, Shape::Eq(side, s))?;
    w.infer(alloc, Inference::Replacement(pattern, u, g))?;
    let params = Items::from_slice(alloc, &[s, e])?;
    w.schema(alloc, 15, 0, params)
}

/// `z` is g[c] = e[c], where `u`, which is Fun(S; e), equals `g`, and `c` is in S.
fn value(
    w: &mut Writer,
    alloc: Global,
    g: u64,
    s: u64,
    e: u64,
    u: u64,
    c: u64,
    put: u64,
    z: u64,
    member: u64,
) -> Result<(), Memory>
    requires function { g < count w.old }
    requires set { s < count w.old }
    requires values { e < count w.old }
    requires whole { u < count w.old }
    requires term { c < count w.old }
    requires value { put < count w.old }
    requires equation { z < count w.old }
    requires member { member < count w.old }
    requires is { tree_at w.old u ≡ fun_ (tree_at w.old s) (tree_at w.old e) }
    requires put_is { tree_at w.old put ≡ inst (tree_at w.old e) (tree_at w.old c) }
    requires z_is { tree_at w.old z ≡ eq_ (apply_ (tree_at w.old g) (tree_at w.old c)) (tree_at w.old put) }
    requires member_is { tree_at w.old member ≡ in_ (tree_at w.old c) (tree_at w.old s) }
    ensures more { count w.old ≤ count w.new }
    ensures same { (i : ℕ) → i < count w.old → tree_at w.new i ≡ tree_at w.old i }
    ensures ok { OnOk result (opens w.new ≡ value_at (tree_at w.old g) (tree_at w.old s)
        (tree_at w.old e) (tree_at w.old c) ∷ opens w.old) }
{
    let variable = w.make(alloc, Shape::Bound(0))?;
    let at = w.make(alloc, Shape::Apply(variable, c))?;
    let pattern = w.make(alloc, Shape::Eq(at, put))?;
    let applied = w.make(alloc, Shape::Apply(u, c))?;
    let equation = w.make(alloc, Shape::Eq(applied, put))?;
    w.infer(alloc, Inference::Axiom(z))?;
    w.infer(alloc, Inference::Replacement(pattern, u, g))?;
    w.infer(alloc, Inference::Axiom(member))?;
    w.infer(alloc, Inference::ImpLeft(member, equation))?;
    let params = Items::from_slice(alloc, &[c, s, e])?;
    w.schema(alloc, 16, 0, params)
}

/// ~(s = t) is on the left; the proof that is left has ~(t = s) there.
fn not_mirror(w: &mut Writer, alloc: Global, s: u64, t: u64) -> Result<(), Memory>
    requires first { s < count w.old }
    requires second { t < count w.old }
    requires some { 1 ≤ length (opens w.old) }
    ensures more { count w.old ≤ count w.new }
    ensures same { (i : ℕ) → i < count w.old → tree_at w.new i ≡ tree_at w.old i }
    ensures ok { OnOk result (opens w.new ≡ not_mirror (tree_at w.old s) (tree_at w.old t)
        (first_of (opens w.old)) ∷ rest_of (opens w.old)) }
{
    let equation = w.make(alloc, Shape::Eq(s, t))?;
    let mirrored = w.make(alloc, Shape::Eq(t, s))?;
    let not = w.make(alloc, Shape::Not(mirrored))?;
    w.infer(alloc, Inference::Axiom(equation))?;
    mirror(w, alloc, t, s)?;
    w.infer(alloc, Inference::NotLeft(equation))?;
    w.infer(alloc, Inference::NotRight(mirrored))?;
    w.infer(alloc, Inference::Cut(not))
}

/// ~(g = u) and g = v are on the left; the proof that is left has ~(v = u) there.
fn denied(w: &mut Writer, alloc: Global, g: u64, u: u64, v: u64) -> Result<(), Memory>
    requires function { g < count w.old }
    requires first { u < count w.old }
    requires second { v < count w.old }
    requires some { 1 ≤ length (opens w.old) }
    ensures more { count w.old ≤ count w.new }
    ensures same { (i : ℕ) → i < count w.old → tree_at w.new i ≡ tree_at w.old i }
    ensures ok { OnOk result (opens w.new
        ≡ denied_by (tree_at w.old g) (tree_at w.old u) (tree_at w.old v) (first_of (opens w.old))
        ∷ rest_of (opens w.old)) }
{
    let variable = w.make(alloc, Shape::Bound(0))?;
    let equation = w.make(alloc, Shape::Eq(variable, u))?;
    let pattern = w.make(alloc, Shape::Not(equation))?;
    w.infer(alloc, Inference::Replacement(pattern, g, v))
}

/// The formula `h` says which function `g` is, either way round, and ~(g = u) stands.
fn said(w: &mut Writer, alloc: Global, h: u64, g: u64, u: u64) -> Result<(), Memory>
    requires said { h < count w.old }
    requires function { g < count w.old }
    requires other { u < count w.old }
    requires some { 1 ≤ length (opens w.old) }
    ensures more { count w.old ≤ count w.new }
    ensures same { (i : ℕ) → i < count w.old → tree_at w.new i ≡ tree_at w.old i }
    ensures ok { OnOk result (opens w.new
        ≡ said_by (tree_at w.old h) (tree_at w.old g) (tree_at w.old u) (first_of (opens w.old))
        ∷ rest_of (opens w.old)) }
{
    match shape_at(w.bank(), h) {
        Shape::Eq(c, d) => {
            if equal(w.bank(), c, g) {
                return denied(w, alloc, g, u, d);
            }
            denied(w, alloc, g, u, c)?;
            mirror(w, alloc, c, g)
        }
        _ => Ok(()),
    }
}

/// The formula under the Not, `f`, says which function `g` would be, either way round, and `h` says which it is.
fn other(w: &mut Writer, alloc: Global, f: u64, h: u64, g: u64) -> Result<(), Memory>
    requires denied { f < count w.old }
    requires said { h < count w.old }
    requires function { g < count w.old }
    requires some { 1 ≤ length (opens w.old) }
    ensures more { count w.old ≤ count w.new }
    ensures same { (i : ℕ) → i < count w.old → tree_at w.new i ≡ tree_at w.old i }
    ensures ok { OnOk result (opens w.new ≡ other_function_by (not_ (tree_at w.old f))
        (tree_at w.old h) (tree_at w.old g) (first_of (opens w.old)) ∷ rest_of (opens w.old)) }
{
    match shape_at(w.bank(), f) {
        Shape::Eq(a, b) => {
            if equal(w.bank(), a, g) {
                return said(w, alloc, h, g, b);
            }
            said(w, alloc, h, g, a)?;
            not_mirror(w, alloc, a, g)
        }
        _ => Ok(()),
    }
}

/// The formula `f` says that `g` is not some function, and `h` says which it is.
pub fn other_function(w: &mut Writer, alloc: Global, f: u64, h: u64, g: u64) -> Result<(), Memory>
    requires denied { f < count w.old }
    requires said { h < count w.old }
    requires function { g < count w.old }
    requires some { 1 ≤ length (opens w.old) }
    ensures more { count w.old ≤ count w.new }
    ensures same { (i : ℕ) → i < count w.old → tree_at w.new i ≡ tree_at w.old i }
    ensures ok { OnOk result (opens w.new ≡ other_function_by (tree_at w.old f) (tree_at w.old h)
        (tree_at w.old g) (first_of (opens w.old)) ∷ rest_of (opens w.old)) }
{
    match shape_at(w.bank(), f) {
        Shape::Not(a) => other(w, alloc, a, h, g),
        _ => Ok(()),
    }
}

/// The body of the formula that `g` takes the values `e` on `s`.
fn body_of(w: &mut Writer, alloc: Global, g: u64, s: u64, e: u64) -> Result<u64, Memory>
    requires function { g < count w.old }
    requires set { s < count w.old }
    requires values { e < count w.old }
    ensures more { count w.old ≤ count w.new }
    ensures same { (i : ℕ) → i < count w.old → tree_at w.new i ≡ tree_at w.old i }
    ensures opens { opens w.new ≡ opens w.old }
    ensures ok { IfOk result (λ k. (k < count w.new)
        × (tree_at w.new k ≡ at_body (tree_at w.old g) (tree_at w.old s) (tree_at w.old e))) }
{
    let variable = w.make(alloc, Shape::Bound(0))?;
    let member = w.make(alloc, Shape::In(variable, s))?;
    let applied = w.make(alloc, Shape::Apply(g, variable))?;
    let equation = w.make(alloc, Shape::Eq(applied, e))?;
    w.make(alloc, Shape::Imp(member, equation))
}

/// `u`, which is Fun(S; e), equals `g`: `g` takes the values `e` on S, which is shown at `c`.
fn values(
    w: &mut Writer,
    alloc: Global,
    g: u64,
    s: u64,
    e: u64,
    u: u64,
    c: u64,
    body: u64,
) -> Result<(), Memory>
    requires function { g < count w.old }
    requires set { s < count w.old }
    requires values { e < count w.old }
    requires whole { u < count w.old }
    requires term { c < count w.old }
    requires body { body < count w.old }
    requires is { tree_at w.old u ≡ fun_ (tree_at w.old s) (tree_at w.old e) }
    requires body_is { tree_at w.old body
        ≡ at_body (tree_at w.old g) (tree_at w.old s) (tree_at w.old e) }
    requires closed { IsClosed (tree_at w.old c) }
    requires scoped { IsScoped 1 (tree_at w.old e) }
    ensures more { count w.old ≤ count w.new }
    ensures same { (i : ℕ) → i < count w.old → tree_at w.new i ≡ tree_at w.old i }
    ensures ok { OnOk result (opens w.new ≡ values_shown (tree_at w.old g) (tree_at w.old s)
        (tree_at w.old e) (tree_at w.old c) ∷ opens w.old) }
{
    let member = w.make(alloc, Shape::In(c, s))?;
    let put = w.inst(alloc, e, c)?;
    let applied = w.make(alloc, Shape::Apply(g, c))?;
    let equation = w.make(alloc, Shape::Eq(applied, put))?;
    value(w, alloc, g, s, e, u, c, put, equation, member)?;
    w.infer(alloc, Inference::ImpRight(member, equation))?;
    w.infer(alloc, Inference::AllRight(body))
}

/// `u`, which is Fun(S; e), equals `g`; the proof that is left has g's domain and values on the left.
#[tactic(auto, using(crate::proofs::Scopes::body_scoped))]
fn described(w: &mut Writer, alloc: Global, g: u64, s: u64, e: u64, u: u64) -> Result<(), Memory>
    requires function { g < count w.old }
    requires set { s < count w.old }
    requires values { e < count w.old }
    requires whole { u < count w.old }
    requires is { tree_at w.old u ≡ fun_ (tree_at w.old s) (tree_at w.old e) }
    requires closed { IsClosed (tree_at w.old g) }
    requires closed_set { IsClosed (tree_at w.old s) }
    requires scoped { IsScoped 1 (tree_at w.old e) }
    requires some { 1 ≤ length (opens w.old) }
    ensures more { count w.old ≤ count w.new }
    ensures same { (i : ℕ) → i < count w.old → tree_at w.new i ≡ tree_at w.old i }
    ensures ok { OnOk result (opens w.new ≡ described_by (tree_at w.old g) (tree_at w.old s)
        (tree_at w.old e) (first_of (opens w.old)) ∷ rest_of (opens w.old)) }
{
    let body = body_of(w, alloc, g, s, e)?;
    let not = w.make(alloc, Shape::Not(body))?;
    let chosen = w.make(alloc, Shape::Choose(not))?;
    let all = w.make(alloc, Shape::All(body))?;
    values(w, alloc, g, s, e, u, chosen, body)?;
    w.infer(alloc, Inference::Cut(all))?;
    domain(w, alloc, g, s, e, u)
}

/// The set and the values of a function constructor: None exactly where the term is none.
fn constructor(bank: &Bank, x: u64) -> Option<(u64, u64)>
    requires { x < length bank.now }
    ensures none { IfNone result (is_fun (bank_tree bank.now x) ≡ false) }
    ensures some { IfSome result (λ p. bank_tree bank.now x
        ≡ fun_ (bank_tree bank.now p.0) (bank_tree bank.now p.1)) }
    ensures within { IfSome result (λ p. (p.0 < length bank.now) × (p.1 < length bank.now)) }
{
    match shape_at(bank, x) {
        Shape::Fun(s, e) => Some((s, e)),
        _ => None,
    }
}

/// An equation of the two, one of which is a function constructor, stands as the formula.
#[tactic(auto, using(crate::proofs::Scopes::values_first, crate::proofs::Scopes::values_none))]
fn function_equation(w: &mut Writer, alloc: Global, a: u64, b: u64) -> Result<(), Memory>
    requires first { a < count w.old }
    requires second { b < count w.old }
    requires closed_first { IsClosed (tree_at w.old a) }
    requires closed_second { IsClosed (tree_at w.old b) }
    requires some { 1 ≤ length (opens w.old) }
    ensures more { count w.old ≤ count w.new }
    ensures same { (i : ℕ) → i < count w.old → tree_at w.new i ≡ tree_at w.old i }
    ensures ok { OnOk result (opens w.new
        ≡ function_values_by (eq_ (tree_at w.old a) (tree_at w.old b)) (first_of (opens w.old))
        ∷ rest_of (opens w.old)) }
{
    if let Some((s, e)) = constructor(w.bank(), b) {
        described(w, alloc, a, s, e, b)?;
        return mirror(w, alloc, a, b);
    }
    if let Some((s, e)) = constructor(w.bank(), a) {
        return described(w, alloc, b, s, e, a);
    }
    Ok(())
}

/// The formula `f` is an equation of a function with a function constructor.
pub fn function_values(w: &mut Writer, alloc: Global, f: u64) -> Result<(), Memory>
    requires below { f < count w.old }
    requires closed { IsClosed (tree_at w.old f) }
    requires some { 1 ≤ length (opens w.old) }
    ensures more { count w.old ≤ count w.new }
    ensures same { (i : ℕ) → i < count w.old → tree_at w.new i ≡ tree_at w.old i }
    ensures ok { OnOk result (opens w.new
        ≡ function_values_by (tree_at w.old f) (first_of (opens w.old)) ∷ rest_of (opens w.old)) }
{
    match shape_at(w.bank(), f) {
        Shape::Eq(a, b) => function_equation(w, alloc, a, b),
        _ => Ok(()),
    }
}

/// The formulas that say of `f` to be in [S -> T] what a function is, as one conjunction over the equation `e`.
fn function_parts(
    w: &mut Writer,
    alloc: Global,
    s: u64,
    t: u64,
    variable: u64,
    v: u64,
) -> Result<u64, Memory>
    requires set { s < count w.old }
    requires target { t < count w.old }
    requires variable { variable < count w.old }
    requires value { v < count w.old }
    requires is { tree_at w.old variable ≡ bound 0 }
    ensures more { count w.old ≤ count w.new }
    ensures same { (i : ℕ) → i < count w.old → tree_at w.new i ≡ tree_at w.old i }
    ensures opens { opens w.new ≡ opens w.old }
    ensures ok { IfOk result (λ k. (k < count w.new) × (tree_at w.new k
        ≡ all_ (imp_ (in_ (bound 0) (tree_at w.old s)) (in_ (tree_at w.old v) (tree_at w.old t))))) }
{
    let member = w.make(alloc, Shape::In(variable, s))?;
    let within = w.make(alloc, Shape::In(v, t))?;
    let body = w.make(alloc, Shape::Imp(member, within))?;
    w.make(alloc, Shape::All(body))
}

/// `f` says that `g` is in [S -> T].
fn function_set_at(
    w: &mut Writer,
    alloc: Global,
    f: u64,
    g: u64,
    s: u64,
    t: u64,
) -> Result<(), Memory>
    requires below { f < count w.old }
    requires function { g < count w.old }
    requires set { s < count w.old }
    requires target { t < count w.old }
    requires is { tree_at w.old f ≡ in_ (tree_at w.old g) (funset_ (tree_at w.old s) (tree_at w.old t)) }
    requires some { 1 ≤ length (opens w.old) }
    ensures more { count w.old ≤ count w.new }
    ensures same { (i : ℕ) → i < count w.old → tree_at w.new i ≡ tree_at w.old i }
    ensures ok { OnOk result (opens w.new
        ≡ function_set_by (in_ (tree_at w.old g) (funset_ (tree_at w.old s) (tree_at w.old t)))
        (first_of (opens w.old)) ∷ rest_of (opens w.old)) }
{
    let variable = w.make(alloc, Shape::Bound(0))?;
    let value = w.make(alloc, Shape::Apply(g, variable))?;
    let all = function_parts(w, alloc, s, t, variable, value)?;
    let whole = w.make(alloc, Shape::Fun(s, value))?;
    let equation = w.make(alloc, Shape::Eq(g, whole))?;
    let both = w.make(alloc, Shape::And(equation, all))?;
    domain(w, alloc, g, s, value, whole)?;
    mirror(w, alloc, g, whole)?;
    w.infer(alloc, Inference::AndLeft(equation, all))?;
    w.infer(alloc, Inference::Axiom(f))?;
    w.swap()?;
    w.infer(alloc, Inference::IffLeft(f, both))?;
    let params = Items::from_slice(alloc, &[g, s, t])?;
    w.schema(alloc, 18, 0, params)
}

/// The formula `f` says that a function is in a function set.
pub fn function_set(w: &mut Writer, alloc: Global, f: u64) -> Result<(), Memory>
    requires below { f < count w.old }
    requires some { 1 ≤ length (opens w.old) }
    ensures more { count w.old ≤ count w.new }
    ensures same { (i : ℕ) → i < count w.old → tree_at w.new i ≡ tree_at w.old i }
    ensures ok { OnOk result (opens w.new
        ≡ function_set_by (tree_at w.old f) (first_of (opens w.old)) ∷ rest_of (opens w.old)) }
{
    if let Shape::In(g, x) = shape_at(w.bank(), f) {
        if let Shape::FunSet(s, t) = shape_at(w.bank(), x) {
            return function_set_at(w, alloc, f, g, s, t);
        }
    }
    Ok(())
}
