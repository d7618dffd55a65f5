//! What equations and their Nots say of members, domains and values, and rank extension.
ghost use Rattle.std.specs.Prelude.{◌≡◌, ◌<◌, ◌∷◌, [], length, nat_eq, IfOk};
ghost use Rattle.core_expr.specs.Nodes.{AreBelow};
ghost use Rattle.core_expr.specs.Tree.{not_, eq_, dom_};
ghost use Rattle.core_expr.specs.Put.{IsScoped};
ghost use Rattle.term_bank.specs.Banks.{IsDistinct, Extends, HasTree, tree_at};
ghost use Rattle.search_definition.specs.Terms.{when};
ghost use Rattle.search_definition.specs.Equations.{is_set, is_fun, members, same_members, fun_of, extension};
ghost use Rattle.formula_rules.specs.Answers.{HasAnswer, HasTerm};

use crate::given::{Given, gives};
use crate::membership::member;
use core_expr::Memory;
use search_definition::Rule;
use std::alloc::Global;
use term_bank::Bank;
use term_shapes::{Shape, build, make, shape_at};

/// Whether the term is built by a set constructor.
pub fn is_set(bank: &Bank, t: u64) -> bool
    requires { t < length bank.now }
    ensures { result ≡ is_set (tree_at bank.now t) }
{
    match shape_at(bank, t) {
        Shape::Boolean => true,
        Shape::Enum => true,
        Shape::Cup(_, _) => true,
        Shape::Cap(_, _) => true,
        Shape::Diff(_, _) => true,
        Shape::Power(_) => true,
        Shape::Union(_) => true,
        Shape::FunSet(_, _) => true,
        Shape::Filter(_, _) => true,
        Shape::Image(_, _) => true,
        _ => false,
    }
}

/// Whether the term is a function constructor.
pub fn is_fun(bank: &Bank, t: u64) -> bool
    requires { t < length bank.now }
    ensures { result ≡ is_fun (tree_at bank.now t) }
{
    match shape_at(bank, t) {
        Shape::Fun(_, _) => true,
        _ => false,
    }
}

/// That the variable of the innermost binder is in the set, put by its schema where one fits.
pub fn members(bank: &mut Bank, alloc: Global, s: u64) -> Result<u64, Memory>
    requires within { s < length bank.old }
    requires closed { IsScoped 0 (tree_at bank.old s) }
    ensures extends { Extends bank.old bank.new }
    ensures distinct { IsDistinct bank.new }
    ensures ok { IfOk result (λ k. HasTree bank.new k (members (tree_at bank.old s))) }
{
    let variable = make(bank, alloc, Shape::Bound(0))?;
    match member(bank, alloc, variable, s)? {
        Some(left) => Ok(left.right),
        None => make(bank, alloc, Shape::In(variable, s)),
    }
}

/// That two sets have the same members.
pub fn same_members(bank: &mut Bank, alloc: Global, a: u64, b: u64) -> Result<u64, Memory>
    requires below { AreBelow (length bank.old) (a ∷ b ∷ []) }
    requires left { IsScoped 0 (tree_at bank.old a) }
    requires right { IsScoped 0 (tree_at bank.old b) }
    ensures extends { Extends bank.old bank.new }
    ensures distinct { IsDistinct bank.new }
    ensures ok { IfOk result (λ k. HasTree bank.new k
        (same_members (tree_at bank.old a) (tree_at bank.old b))) }
{
    let left = members(bank, alloc, a)?;
    let right = members(bank, alloc, b)?;
    build(
        bank,
        alloc,
        &[left, right],
        &[Shape::Iff(0, 1), Shape::All(2)],
    )
}

/// `DOMAIN g = s`.
pub fn domain_is(bank: &mut Bank, alloc: Global, g: u64, s: u64) -> Result<u64, Memory>
    requires { AreBelow (length bank.old) (g ∷ s ∷ []) }
    ensures extends { Extends bank.old bank.new }
    ensures distinct { IsDistinct bank.new }
    ensures ok { IfOk result (λ k. HasTree bank.new k
        (eq_ (dom_ (tree_at bank.old g)) (tree_at bank.old s))) }
{
    build(bank, alloc, &[g, s], &[Shape::Dom(0), Shape::Eq(2, 1)])
}

/// `~(s = t)`.
pub fn not_equal(bank: &mut Bank, alloc: Global, s: u64, t: u64) -> Result<u64, Memory>
    requires { AreBelow (length bank.old) (s ∷ t ∷ []) }
    ensures extends { Extends bank.old bank.new }
    ensures distinct { IsDistinct bank.new }
    ensures ok { IfOk result (λ k. HasTree bank.new k
        (not_ (eq_ (tree_at bank.old s) (tree_at bank.old t)))) }
{
    build(bank, alloc, &[s, t], &[Shape::Eq(0, 1), Shape::Not(2)])
}

/// The term, where the two are one.
fn when_same(t: u64, a: u64, g: u64) -> Option<u64>
    ensures { result ≡ when (nat_eq a g) t }
{
    if a == g { Some(t) } else { None }
}

/// The function constructor that the formula f says the function g to be: None exactly where it says none.
pub fn fun_of(bank: &Bank, g: u64, f: u64) -> Option<u64>
    requires { AreBelow (length bank.now) (g ∷ f ∷ []) }
    ensures { HasTerm bank.now result (fun_of (tree_at bank.now g) (tree_at bank.now f)) }
{
    let _count = bank.count();
    match shape_at(bank, f) {
        Shape::Eq(a, b) => {
            if is_fun(bank, b) {
                when_same(b, a, g)
            } else if is_fun(bank, a) {
                when_same(a, b, g)
            } else {
                None
            }
        }
        _ => None,
    }
}

/// The Not f of an equation with a set constructor on a side gives that the sides do not have the same members.
fn members_differ(
    bank: &mut Bank,
    alloc: Global,
    f: u64,
    a: u64,
    b: u64,
) -> Result<Option<Given>, Memory>
    requires below { AreBelow (length bank.old) (f ∷ a ∷ b ∷ []) }
    requires is_not { tree_at bank.old f ≡ not_ (eq_ (tree_at bank.old a) (tree_at bank.old b)) }
    requires left { IsScoped 0 (tree_at bank.old a) }
    requires right { IsScoped 0 (tree_at bank.old b) }
    ensures extends { Extends bank.old bank.new }
    ensures distinct { IsDistinct bank.new }
    ensures ok { IfOk result (λ o. HasAnswer bank.new o (extension (tree_at bank.old f))) }
{
    let _count = bank.count();
    if !is_set(bank, a) && !is_set(bank, b) {
        return Ok(None);
    }
    let same = same_members(bank, alloc, a, b)?;
    Ok(Some(gives(
        bank,
        alloc,
        Rule::Members,
        f,
        &[same],
        &[Shape::Not(0)],
        &[1],
    )?))
}

/// What the Not f of q gives by rank extension.
fn denied_extension(bank: &mut Bank, alloc: Global, f: u64, q: u64) -> Result<Option<Given>, Memory>
    requires below { AreBelow (length bank.old) (f ∷ q ∷ []) }
    requires is_not { tree_at bank.old f ≡ not_ (tree_at bank.old q) }
    requires closed { IsScoped 0 (tree_at bank.old q) }
    ensures extends { Extends bank.old bank.new }
    ensures distinct { IsDistinct bank.new }
    ensures ok { IfOk result (λ o. HasAnswer bank.new o (extension (tree_at bank.old f))) }
{
    let _count = bank.count();
    match shape_at(bank, q) {
        Shape::Eq(a, b) => members_differ(bank, alloc, f, a, b),
        _ => Ok(None),
    }
}

/// Rank extension: `~(A = B)` with a set constructor on a side gives that A and B do not have the same members. None exactly
/// where the rank does not fit.
pub fn extension(bank: &mut Bank, alloc: Global, f: u64) -> Result<Option<Given>, Memory>
    requires within { f < length bank.old }
    requires closed { IsScoped 0 (tree_at bank.old f) }
    ensures extends { Extends bank.old bank.new }
    ensures distinct { IsDistinct bank.new }
    ensures ok { IfOk result (λ o. HasAnswer bank.new o (extension (tree_at bank.old f))) }
{
    let _count = bank.count();
    match shape_at(bank, f) {
        Shape::Not(q) => denied_extension(bank, alloc, f, q),
        _ => Ok(None),
    }
}
