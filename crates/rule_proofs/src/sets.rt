//! Equations of sets, and their Nots.
ghost use Rattle.std.specs.Prelude.{◌≡◌, ◌<◌, ◌≤◌, [], ◌∷◌, ℕ, length, OnOk, IfOk};
ghost use Rattle.core_expr.specs.Tree.{not_, eq_, all_};
ghost use Rattle.seq_calculus.specs.Calculus.{IsClosed};
ghost use Rattle.search_definition.specs.Equations.{same_members};
ghost use Rattle.proof_writer.specs.Written.{opens, count, tree_at};
ghost use Rattle.proof_writer.specs.Shapes.{first_of, rest_of};
ghost use Rattle.proof_trees.specs.Equated.{member_at, moved_by, same_body, members_shown, same_members_by, carried_by, elements_body, elements_shown, extension_by};
ghost use Rattle.rule_proofs.specs.Cases.{AddsMembers, DeniesMembers};

use crate::left::{member_back, member_over};
use crate::shapes::{clash, mirror};
use core_expr::Memory;
use proof_writer::{Inference, Writer};
use sqlite_items::Items;
use std::alloc::Global;
use term_shapes::{Shape, shape_at};

/// `l` and `r` are what the members of `s` and of `t` say of `c`: the first stands, with s = t, and the second is to show.
fn moved(
    w: &mut Writer,
    alloc: Global,
    c: u64,
    s: u64,
    t: u64,
    l: u64,
    r: u64,
) -> Result<(), Memory>
    requires term { c < count w.old }
    requires first { s < count w.old }
    requires second { t < count w.old }
    requires left { l < count w.old }
    requires right { r < count w.old }
    requires left_is { tree_at w.old l ≡ member_at (tree_at w.old c) (tree_at w.old s) }
    requires right_is { tree_at w.old r ≡ member_at (tree_at w.old c) (tree_at w.old t) }
    ensures more { count w.old ≤ count w.new }
    ensures same { (i : ℕ) → i < count w.old → tree_at w.new i ≡ tree_at w.old i }
    ensures ok { OnOk result (opens w.new
        ≡ moved_by (tree_at w.old c) (tree_at w.old s) (tree_at w.old t) ∷ opens w.old) }
{
    let variable = w.make(alloc, Shape::Bound(0))?;
    let pattern = w.make(alloc, Shape::In(c, variable))?;
    let in_first = w.make(alloc, Shape::In(c, s))?;
    let in_second = w.make(alloc, Shape::In(c, t))?;
    w.infer(alloc, Inference::Axiom(r))?;
    member_over(w, alloc, c, t, in_second, r)?;
    w.infer(alloc, Inference::Replacement(pattern, s, t))?;
    member_back(w, alloc, c, s, in_first, l)
}

/// What a body says at a term, as an equivalence: its two sides.
#[tactic(auto, using(crate::proofs::Scopes::same_scoped, crate::proofs::Scopes::same_at))]
fn sides_at(
    w: &mut Writer,
    alloc: Global,
    s: u64,
    t: u64,
    body: u64,
    c: u64,
) -> Result<(u64, u64), Memory>
    requires first { s < count w.old }
    requires second { t < count w.old }
    requires body { body < count w.old }
    requires term { c < count w.old }
    requires is { tree_at w.old body ≡ same_body (tree_at w.old s) (tree_at w.old t) }
    requires closed_first { IsClosed (tree_at w.old s) }
    requires closed_second { IsClosed (tree_at w.old t) }
    requires closed { IsClosed (tree_at w.old c) }
    ensures more { count w.old ≤ count w.new }
    ensures same { (i : ℕ) → i < count w.old → tree_at w.new i ≡ tree_at w.old i }
    ensures opens { opens w.new ≡ opens w.old }
    ensures first { IfOk result (λ p. (p.0 < count w.new)
        × (tree_at w.new p.0 ≡ member_at (tree_at w.old c) (tree_at w.old s))) }
    ensures second { IfOk result (λ p. (p.1 < count w.new)
        × (tree_at w.new p.1 ≡ member_at (tree_at w.old c) (tree_at w.old t))) }
{
    let at = w.inst(alloc, body, c)?;
    match shape_at(w.bank(), at) {
        Shape::Iff(l, r) => Ok((l, r)),
        _ => Ok((c, c)),
    }
}

/// s = t gives that both have the same members, whose body is `body`; that is shown at `c`.
fn members(w: &mut Writer, alloc: Global, s: u64, t: u64, body: u64, c: u64) -> Result<(), Memory>
    requires first { s < count w.old }
    requires second { t < count w.old }
    requires body { body < count w.old }
    requires term { c < count w.old }
    requires is { tree_at w.old body ≡ same_body (tree_at w.old s) (tree_at w.old t) }
    requires closed_first { IsClosed (tree_at w.old s) }
    requires closed_second { IsClosed (tree_at w.old t) }
    requires closed { IsClosed (tree_at w.old c) }
    ensures more { count w.old ≤ count w.new }
    ensures same { (i : ℕ) → i < count w.old → tree_at w.new i ≡ tree_at w.old i }
    ensures ok { OnOk result (opens w.new
        ≡ members_shown (tree_at w.old s) (tree_at w.old t) (tree_at w.old c) ∷ opens w.old) }
{
    let (l, r) = sides_at(w, alloc, s, t, body, c)?;
    moved(w, alloc, c, t, s, r, l)?;
    mirror(w, alloc, s, t)?;
    moved(w, alloc, c, s, t, l, r)?;
    w.infer(alloc, Inference::IffRight(l, r))?;
    w.infer(alloc, Inference::AllRight(body))
}

/// The formula `f` is an equation of sets, and `added` says that both have the same members.
#[tactic(auto, using(crate::proofs::Scopes::same_scoped))]
pub fn same_members(w: &mut Writer, alloc: Global, f: u64, added: u64) -> Result<(), Memory>
    requires below { f < count w.old }
    requires added { added < count w.old }
    requires closed { IsClosed (tree_at w.old f) }
    requires is { AddsMembers (tree_at w.old f) (tree_at w.old added) }
    requires some { 1 ≤ length (opens w.old) }
    ensures more { count w.old ≤ count w.new }
    ensures same { (i : ℕ) → i < count w.old → tree_at w.new i ≡ tree_at w.old i }
    ensures ok { OnOk result (opens w.new
        ≡ same_members_by (tree_at w.old f) (first_of (opens w.old)) ∷ rest_of (opens w.old)) }
{
    if let Shape::Eq(s, t) = shape_at(w.bank(), f) {
        if let Shape::All(body) = shape_at(w.bank(), added) {
            let not = w.make(alloc, Shape::Not(body))?;
            let chosen = w.make(alloc, Shape::Choose(not))?;
            members(w, alloc, s, t, body, chosen)?;
            return w.infer(alloc, Inference::Cut(added));
        }
    }
    Ok(())
}

/// `fx` says that `c` is in `x`, and `l <=> r` what it is to be in `x` and in `y`, in some order; `mx` and `my` are the sides.
fn carried(
    w: &mut Writer,
    alloc: Global,
    c: u64,
    x: u64,
    y: u64,
    l: u64,
    r: u64,
    mx: u64,
    my: u64,
) -> Result<(), Memory>
    requires term { c < count w.old }
    requires first { x < count w.old }
    requires second { y < count w.old }
    requires left { l < count w.old }
    requires right { r < count w.old }
    requires says_first { mx < count w.old }
    requires says_second { my < count w.old }
    requires first_is { tree_at w.old mx ≡ member_at (tree_at w.old c) (tree_at w.old x) }
    requires second_is { tree_at w.old my ≡ member_at (tree_at w.old c) (tree_at w.old y) }
    ensures more { count w.old ≤ count w.new }
    ensures same { (i : ℕ) → i < count w.old → tree_at w.new i ≡ tree_at w.old i }
    ensures ok { OnOk result (opens w.new ≡ carried_by (tree_at w.old c) (tree_at w.old x)
        (tree_at w.old y) (tree_at w.old l) (tree_at w.old r) ∷ opens w.old) }
{
    let in_first = w.make(alloc, Shape::In(c, x))?;
    let in_second = w.make(alloc, Shape::In(c, y))?;
    w.infer(alloc, Inference::Axiom(mx))?;
    w.infer(alloc, Inference::Axiom(in_second))?;
    member_back(w, alloc, c, y, in_second, my)?;
    w.infer(alloc, Inference::IffLeft(l, r))?;
    member_over(w, alloc, c, x, in_first, mx)
}

/// What is in both has the same elements: at `c`, over the body `body` of the formula that they have the same members and
/// the body `target` of the one that is to show.
fn elements(
    w: &mut Writer,
    alloc: Global,
    a: u64,
    b: u64,
    body: u64,
    target: u64,
    c: u64,
) -> Result<(), Memory>
    requires first { a < count w.old }
    requires second { b < count w.old }
    requires body { body < count w.old }
    requires target { target < count w.old }
    requires term { c < count w.old }
    requires is { tree_at w.old body ≡ same_body (tree_at w.old a) (tree_at w.old b) }
    requires target_is { tree_at w.old target ≡ elements_body (tree_at w.old a) (tree_at w.old b) }
    requires closed_first { IsClosed (tree_at w.old a) }
    requires closed_second { IsClosed (tree_at w.old b) }
    requires closed { IsClosed (tree_at w.old c) }
    ensures more { count w.old ≤ count w.new }
    ensures same { (i : ℕ) → i < count w.old → tree_at w.new i ≡ tree_at w.old i }
    ensures ok { OnOk result (opens w.new
        ≡ elements_shown (tree_at w.old a) (tree_at w.old b) (tree_at w.old c) ∷ opens w.old) }
{
    let (l, r) = sides_at(w, alloc, a, b, body, c)?;
    let in_first = w.make(alloc, Shape::In(c, a))?;
    let in_second = w.make(alloc, Shape::In(c, b))?;
    carried(w, alloc, c, b, a, l, r, r, l)?;
    carried(w, alloc, c, a, b, l, r, l, r)?;
    w.infer(alloc, Inference::IffRight(in_first, in_second))?;
    w.infer(alloc, Inference::AllLeft(body, c))?;
    w.infer(alloc, Inference::AllRight(target))
}

/// The body of the formula that two sets have the same elements.
fn elements_of(w: &mut Writer, alloc: Global, a: u64, b: u64) -> Result<u64, Memory>
    requires first { a < count w.old }
    requires second { b < count w.old }
    ensures more { count w.old ≤ count w.new }
    ensures same { (i : ℕ) → i < count w.old → tree_at w.new i ≡ tree_at w.old i }
    ensures opens { opens w.new ≡ opens w.old }
    ensures ok { IfOk result (λ k. (k < count w.new)
        × (tree_at w.new k ≡ elements_body (tree_at w.old a) (tree_at w.old b))) }
{
    let variable = w.make(alloc, Shape::Bound(0))?;
    let in_first = w.make(alloc, Shape::In(variable, a))?;
    let in_second = w.make(alloc, Shape::In(variable, b))?;
    w.make(alloc, Shape::Iff(in_first, in_second))
}

/// `equation` says a = b, and `denial` is the Not of `all`, which says with the body `body` that they have the same members.
#[tactic(auto, using(crate::proofs::Scopes::elements_scoped))]
fn extension_at(
    w: &mut Writer,
    alloc: Global,
    a: u64,
    b: u64,
    equation: u64,
    denial: u64,
    all: u64,
    body: u64,
) -> Result<(), Memory>
    requires first { a < count w.old }
    requires second { b < count w.old }
    requires equation { equation < count w.old }
    requires denial { denial < count w.old }
    requires all { all < count w.old }
    requires body { body < count w.old }
    requires equation_is { tree_at w.old equation ≡ eq_ (tree_at w.old a) (tree_at w.old b) }
    requires denial_is { tree_at w.old denial ≡ not_ (tree_at w.old all) }
    requires all_is { tree_at w.old all ≡ all_ (tree_at w.old body) }
    requires is { tree_at w.old body ≡ same_body (tree_at w.old a) (tree_at w.old b) }
    requires closed_first { IsClosed (tree_at w.old a) }
    requires closed_second { IsClosed (tree_at w.old b) }
    requires some { 1 ≤ length (opens w.old) }
    ensures more { count w.old ≤ count w.new }
    ensures same { (i : ℕ) → i < count w.old → tree_at w.new i ≡ tree_at w.old i }
    ensures ok { OnOk result (opens w.new
        ≡ extension_by (not_ (eq_ (tree_at w.old a) (tree_at w.old b))) (first_of (opens w.old))
        ∷ rest_of (opens w.old)) }
{
    let target = elements_of(w, alloc, a, b)?;
    let not = w.make(alloc, Shape::Not(target))?;
    let chosen = w.make(alloc, Shape::Choose(not))?;
    let elements_all = w.make(alloc, Shape::All(target))?;
    clash(w, alloc, equation)?;
    elements(w, alloc, a, b, body, target, chosen)?;
    w.infer(alloc, Inference::ImpLeft(elements_all, equation))?;
    let params = Items::from_slice(alloc, &[a, b])?;
    w.schema(alloc, 11, 0, params)?;
    w.infer(alloc, Inference::NotRight(all))?;
    w.infer(alloc, Inference::Cut(denial))
}

/// The formula `f` is the Not of an equation of sets, and `added` says that they do not have the same members.
pub fn extension(w: &mut Writer, alloc: Global, f: u64, added: u64) -> Result<(), Memory>
    requires below { f < count w.old }
    requires added { added < count w.old }
    requires closed { IsClosed (tree_at w.old f) }
    requires is { DeniesMembers (tree_at w.old f) (tree_at w.old added) }
    requires some { 1 ≤ length (opens w.old) }
    ensures more { count w.old ≤ count w.new }
    ensures same { (i : ℕ) → i < count w.old → tree_at w.new i ≡ tree_at w.old i }
    ensures ok { OnOk result (opens w.new
        ≡ extension_by (tree_at w.old f) (first_of (opens w.old)) ∷ rest_of (opens w.old)) }
{
    if let Shape::Not(equation) = shape_at(w.bank(), f) {
        if let Shape::Eq(a, b) = shape_at(w.bank(), equation) {
            if let Shape::Not(all) = shape_at(w.bank(), added) {
                if let Shape::All(body) = shape_at(w.bank(), all) {
                    return extension_at(w, alloc, a, b, equation, added, all, body);
                }
            }
        }
    }
    Ok(())
}
