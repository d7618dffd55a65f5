//! Rank derive.
ghost use Rattle.std.specs.Prelude.{◌≡◌, ◌<◌, ◌∷◌, [], false, length, IfOk};
ghost use Rattle.core_expr.specs.Nodes.{AreBelow};
ghost use Rattle.core_expr.specs.Tree.{not_, eq_, fun_};
ghost use Rattle.core_expr.specs.Put.{IsScoped};
ghost use Rattle.core_expr.specs.Terms.{same};
ghost use Rattle.term_bank.specs.Banks.{IsDistinct, Extends, HasTree, tree_at};
ghost use Rattle.search_definition.specs.Terms.{either, or_else, first_some};
ghost use Rattle.search_definition.specs.Branches.{alive};
ghost use Rattle.search_definition.specs.Equations.{is_set, is_fun, lacks, derive, derive_set, derive_fun, derive_not, describes, other_function};
ghost use Rattle.branch_state.specs.Parts.{Holds, shown};
ghost use Rattle.branch_state.specs.Shown.{placed_at};
ghost use Rattle.formula_rules.specs.Answers.{HasAnswer};
ghost use Rattle.rank_rules.specs.Ranked.{branch_of, AreKnown, own_of};
ghost use Rattle.rank_rules.specs.Deriving.{described_of, IsDescribed, where_live};

use crate::standing::stands;
use branch_state::{Parts, entry, length};
use core_expr::Memory;
use formula_rules::{
    Given, adds, at_all, domain_is, fun_of, is_fun, is_set, not_equal, same_members, same_term,
};
use search_definition::Rule;
use std::alloc::Global;
use term_bank::Bank;
use term_shapes::{Shape, build, shape_at};

/// Whether one of the terms is built by a set constructor.
fn one_is_set(bank: &Bank, s: u64, t: u64) -> bool
    requires { AreBelow (length bank.now) (s ∷ t ∷ []) }
    ensures { result ≡ either (is_set (tree_at bank.now s)) (is_set (tree_at bank.now t)) }
{
    is_set(bank, s) || is_set(bank, t)
}

/// Whether one of the formulas does not stand on the branch.
fn lacks(bank: &Bank, parts: &Parts, f: u64, g: u64) -> bool
    requires held { Holds parts.now }
    requires known { AreKnown (length bank.now) (shown parts.now).now }
    requires below { AreBelow (length bank.now) (f ∷ g ∷ []) }
    ensures { result ≡ lacks (branch_of bank.now (shown parts.now).now)
        (tree_at bank.now f) (tree_at bank.now g) }
{
    !stands(bank, parts, f) || !stands(bank, parts, g)
}

/// Case 0: the equation f of s with t, one of them by a set constructor, gives that they have the same members, unless that
/// stands on the branch.
fn derive_set(
    bank: &mut Bank,
    alloc: Global,
    parts: &Parts,
    f: u64,
    s: u64,
    t: u64,
) -> Result<Option<Given>, Memory>
    requires held { Holds parts.now }
    requires known { AreKnown (length bank.old) (shown parts.now).now }
    requires below { AreBelow (length bank.old) (f ∷ s ∷ t ∷ []) }
    requires equation { tree_at bank.old f ≡ eq_ (tree_at bank.old s) (tree_at bank.old t) }
    requires left { IsScoped 0 (tree_at bank.old s) }
    requires right { IsScoped 0 (tree_at bank.old t) }
    ensures extends { Extends bank.old bank.new }
    ensures distinct { IsDistinct bank.new }
    ensures ok { IfOk result (λ o. HasAnswer bank.new o (derive_set
        (branch_of bank.old (shown parts.now).now) (tree_at bank.old s) (tree_at bank.old t))) }
{
    let _count = bank.count();
    if !one_is_set(bank, s, t) {
        return Ok(None);
    }
    let same = same_members(bank, alloc, s, t)?;
    if stands(bank, parts, same) {
        return Ok(None);
    }
    let rule = Rule::SameMembers;
    Ok(Some(adds(bank, alloc, rule, &[f], &[], &[same], &[], &[0])?))
}

/// What g gives by itself at the variable of the innermost binder.
fn own_value(bank: &mut Bank, alloc: Global, g: u64) -> Result<u64, Memory>
    requires within { g < length bank.old }
    requires closed { IsScoped 0 (tree_at bank.old g) }
    ensures extends { Extends bank.old bank.new }
    ensures distinct { IsDistinct bank.new }
    ensures ok { IfOk result (λ k. HasTree bank.new k (own_of (tree_at bank.old g))) }
{
    build(bank, alloc, &[g], &[Shape::Bound(0), Shape::Apply(0, 1)])
}

/// The function constructor over s with the body e, which f says the function g to be, gives g's domain and values, unless both
/// stand on the branch.
fn add_values(
    bank: &mut Bank,
    alloc: Global,
    parts: &Parts,
    f: u64,
    g: u64,
    s: u64,
    e: u64,
) -> Result<Option<Given>, Memory>
    requires held { Holds parts.now }
    requires known { AreKnown (length bank.old) (shown parts.now).now }
    requires below { AreBelow (length bank.old) (f ∷ g ∷ s ∷ e ∷ []) }
    requires function { IsScoped 0 (tree_at bank.old g) }
    requires domain { IsScoped 0 (tree_at bank.old s) }
    requires plain { is_fun (tree_at bank.old g) ≡ false }
    requires other { same (tree_at bank.old e) (own_of (tree_at bank.old g)) ≡ false }
    ensures extends { Extends bank.old bank.new }
    ensures distinct { IsDistinct bank.new }
    ensures ok { IfOk result (λ o. HasAnswer bank.new o (derive_fun
        (branch_of bank.old (shown parts.now).now) (tree_at bank.old f) (tree_at bank.old g)
        (fun_ (tree_at bank.old s) (tree_at bank.old e)))) }
{
    let domain = domain_is(bank, alloc, g, s)?;
    let values = at_all(bank, alloc, g, s, e)?;
    if !lacks(bank, parts, domain, values) {
        return Ok(None);
    }
    let rule = Rule::FunctionValues;
    Ok(Some(adds(
        bank,
        alloc,
        rule,
        &[f],
        &[g],
        &[domain, values],
        &[],
        &[0, 1],
    )?))
}

/// The same, where g is no function constructor and e is more than g's own value.
fn derive_values(
    bank: &mut Bank,
    alloc: Global,
    parts: &Parts,
    f: u64,
    g: u64,
    s: u64,
    e: u64,
) -> Result<Option<Given>, Memory>
    requires held { Holds parts.now }
    requires known { AreKnown (length bank.old) (shown parts.now).now }
    requires below { AreBelow (length bank.old) (f ∷ g ∷ s ∷ e ∷ []) }
    requires function { IsScoped 0 (tree_at bank.old g) }
    requires domain { IsScoped 0 (tree_at bank.old s) }
    ensures extends { Extends bank.old bank.new }
    ensures distinct { IsDistinct bank.new }
    ensures ok { IfOk result (λ o. HasAnswer bank.new o (derive_fun
        (branch_of bank.old (shown parts.now).now) (tree_at bank.old f) (tree_at bank.old g)
        (fun_ (tree_at bank.old s) (tree_at bank.old e)))) }
{
    let _count = bank.count();
    if is_fun(bank, g) {
        return Ok(None);
    }
    let own = own_value(bank, alloc, g)?;
    if same_term(bank, e, own) {
        return Ok(None);
    }
    add_values(bank, alloc, parts, f, g, s, e)
}

/// Case 1: f says that g is u. Where u alone is a function constructor, that gives g's domain and values, unless both stand on
/// the branch.
fn derive_fun(
    bank: &mut Bank,
    alloc: Global,
    parts: &Parts,
    f: u64,
    g: u64,
    u: u64,
) -> Result<Option<Given>, Memory>
    requires held { Holds parts.now }
    requires known { AreKnown (length bank.old) (shown parts.now).now }
    requires below { AreBelow (length bank.old) (f ∷ g ∷ u ∷ []) }
    requires left { IsScoped 0 (tree_at bank.old g) }
    requires right { IsScoped 0 (tree_at bank.old u) }
    ensures extends { Extends bank.old bank.new }
    ensures distinct { IsDistinct bank.new }
    ensures ok { IfOk result (λ o. HasAnswer bank.new o (derive_fun
        (branch_of bank.old (shown parts.now).now) (tree_at bank.old f) (tree_at bank.old g)
        (tree_at bank.old u))) }
{
    let _count = bank.count();
    match shape_at(bank, u) {
        Shape::Fun(s, e) => derive_values(bank, alloc, parts, f, g, s, e),
        _ => Ok(None),
    }
}

/// What the equation f of s with t gives: the first case that adds something new.
fn derive_equation(
    bank: &mut Bank,
    alloc: Global,
    parts: &Parts,
    f: u64,
    s: u64,
    t: u64,
) -> Result<Option<Given>, Memory>
    requires held { Holds parts.now }
    requires known { AreKnown (length bank.old) (shown parts.now).now }
    requires below { AreBelow (length bank.old) (f ∷ s ∷ t ∷ []) }
    requires equation { tree_at bank.old f ≡ eq_ (tree_at bank.old s) (tree_at bank.old t) }
    requires left { IsScoped 0 (tree_at bank.old s) }
    requires right { IsScoped 0 (tree_at bank.old t) }
    ensures extends { Extends bank.old bank.new }
    ensures distinct { IsDistinct bank.new }
    ensures ok { IfOk result (λ o. HasAnswer bank.new o
        (derive (branch_of bank.old (shown parts.now).now) (tree_at bank.old f))) }
{
    match derive_set(bank, alloc, parts, f, s, t)? {
        Some(given) => Ok(Some(given)),
        None => either_fun(bank, alloc, parts, f, s, t),
    }
}

/// What f gives, by which s is t, or else by which t is s.
fn either_fun(
    bank: &mut Bank,
    alloc: Global,
    parts: &Parts,
    f: u64,
    s: u64,
    t: u64,
) -> Result<Option<Given>, Memory>
    requires held { Holds parts.now }
    requires known { AreKnown (length bank.old) (shown parts.now).now }
    requires below { AreBelow (length bank.old) (f ∷ s ∷ t ∷ []) }
    requires left { IsScoped 0 (tree_at bank.old s) }
    requires right { IsScoped 0 (tree_at bank.old t) }
    ensures extends { Extends bank.old bank.new }
    ensures distinct { IsDistinct bank.new }
    ensures ok { IfOk result (λ o. HasAnswer bank.new o (or_else
        (derive_fun (branch_of bank.old (shown parts.now).now) (tree_at bank.old f)
        (tree_at bank.old s) (tree_at bank.old t))
        (derive_fun (branch_of bank.old (shown parts.now).now) (tree_at bank.old f)
        (tree_at bank.old t) (tree_at bank.old s)))) }
{
    match derive_fun(bank, alloc, parts, f, s, t)? {
        Some(given) => Ok(Some(given)),
        None => derive_fun(bank, alloc, parts, f, t, s),
    }
}

/// A formula with the function constructor that it says some function to be.
#[derive(Clone, Copy, Debug)]
pub struct Telling {
    pub formula: u64,
    pub function: u64,
}

/// What the entry says g to be, where it is live.
fn described_at(bank: &Bank, parts: &Parts, g: u64, i: u64) -> Option<Telling>
    requires held { Holds parts.now }
    requires known { AreKnown (length bank.now) (shown parts.now).now }
    requires function { g < length bank.now }
    requires within { i < length (shown parts.now).now }
    ensures { IsDescribed bank.now result (where_live (placed_at (shown parts.now).now i).live
        (describes (tree_at bank.now g) (tree_at bank.now (placed_at (shown parts.now).now i).formula))) }
{
    let item = entry(parts, i);
    if !item.live {
        return None;
    }
    match fun_of(bank, g, item.formula) {
        Some(function) => Some(Telling {
            formula: item.formula,
            function,
        }),
        None => None,
    }
}

/// The oldest live entry that says which function constructor g is: None exactly where none does.
fn described(bank: &Bank, parts: &Parts, g: u64) -> Option<Telling>
    requires held { Holds parts.now }
    requires known { AreKnown (length bank.now) (shown parts.now).now }
    requires function { g < length bank.now }
    ensures { IsDescribed bank.now result (first_some (describes (tree_at bank.now g))
        (alive (branch_of bank.now (shown parts.now).now))) }
{
    for i in 0..length(parts) {
        match described_at(bank, parts, g, i) {
            Some(telling) => return Some(telling),
            None => {}
        }
    }
    None
}

/// The Not of u with what some entry says g to be, unless it stands on the branch.
fn add_other(
    bank: &mut Bank,
    alloc: Global,
    parts: &Parts,
    f: u64,
    g: u64,
    u: u64,
    d: Telling,
) -> Result<Option<Given>, Memory>
    requires held { Holds parts.now }
    requires known { AreKnown (length bank.old) (shown parts.now).now }
    requires below { AreBelow (length bank.old) (f ∷ g ∷ u ∷ d.formula ∷ d.function ∷ []) }
    ensures extends { Extends bank.old bank.new }
    ensures distinct { IsDistinct bank.new }
    ensures ok { IfOk result (λ o. HasAnswer bank.new o (other_function
        (branch_of bank.old (shown parts.now).now) (tree_at bank.old f) (tree_at bank.old g)
        (tree_at bank.old u) (described_of bank.old d))) }
{
    let other = not_equal(bank, alloc, d.function, u)?;
    if stands(bank, parts, other) {
        return Ok(None);
    }
    let rule = Rule::OtherFunction;
    Ok(Some(adds(
        bank,
        alloc,
        rule,
        &[f, d.formula],
        &[g],
        &[other],
        &[],
        &[0],
    )?))
}

/// Case 2: f says that g is not the function constructor u; the oldest live entry that says which function constructor g is
/// gives that this one is not u.
fn derive_not(
    bank: &mut Bank,
    alloc: Global,
    parts: &Parts,
    f: u64,
    g: u64,
    u: u64,
) -> Result<Option<Given>, Memory>
    requires held { Holds parts.now }
    requires known { AreKnown (length bank.old) (shown parts.now).now }
    requires below { AreBelow (length bank.old) (f ∷ g ∷ u ∷ []) }
    ensures extends { Extends bank.old bank.new }
    ensures distinct { IsDistinct bank.new }
    ensures ok { IfOk result (λ o. HasAnswer bank.new o (derive_not
        (branch_of bank.old (shown parts.now).now) (tree_at bank.old f) (tree_at bank.old g)
        (tree_at bank.old u))) }
{
    let _count = bank.count();
    if !is_fun(bank, u) {
        return Ok(None);
    }
    if is_fun(bank, g) {
        return Ok(None);
    }
    match described(bank, parts, g) {
        Some(telling) => add_other(bank, alloc, parts, f, g, u, telling),
        None => Ok(None),
    }
}

/// What f, the Not of an equation of s with t, gives.
fn derive_denied(
    bank: &mut Bank,
    alloc: Global,
    parts: &Parts,
    f: u64,
    s: u64,
    t: u64,
) -> Result<Option<Given>, Memory>
    requires held { Holds parts.now }
    requires known { AreKnown (length bank.old) (shown parts.now).now }
    requires below { AreBelow (length bank.old) (f ∷ s ∷ t ∷ []) }
    requires is_not { tree_at bank.old f ≡ not_ (eq_ (tree_at bank.old s) (tree_at bank.old t)) }
    ensures extends { Extends bank.old bank.new }
    ensures distinct { IsDistinct bank.new }
    ensures ok { IfOk result (λ o. HasAnswer bank.new o
        (derive (branch_of bank.old (shown parts.now).now) (tree_at bank.old f))) }
{
    match derive_not(bank, alloc, parts, f, s, t)? {
        Some(given) => Ok(Some(given)),
        None => derive_not(bank, alloc, parts, f, t, s),
    }
}

/// What the Not f of q gives.
fn derive_not_of(
    bank: &mut Bank,
    alloc: Global,
    parts: &Parts,
    f: u64,
    q: u64,
) -> Result<Option<Given>, Memory>
    requires held { Holds parts.now }
    requires known { AreKnown (length bank.old) (shown parts.now).now }
    requires below { AreBelow (length bank.old) (f ∷ q ∷ []) }
    requires is_not { tree_at bank.old f ≡ not_ (tree_at bank.old q) }
    ensures extends { Extends bank.old bank.new }
    ensures distinct { IsDistinct bank.new }
    ensures ok { IfOk result (λ o. HasAnswer bank.new o
        (derive (branch_of bank.old (shown parts.now).now) (tree_at bank.old f))) }
{
    let _count = bank.count();
    match shape_at(bank, q) {
        Shape::Eq(s, t) => derive_denied(bank, alloc, parts, f, s, t),
        _ => Ok(None),
    }
}

/// Rank derive: what a closed equation or its Not says of members, domains and values. None exactly where it adds nothing new.
pub fn derive(
    bank: &mut Bank,
    alloc: Global,
    parts: &Parts,
    f: u64,
) -> Result<Option<Given>, Memory>
    requires held { Holds parts.now }
    requires known { AreKnown (length bank.old) (shown parts.now).now }
    requires within { f < length bank.old }
    requires closed { IsScoped 0 (tree_at bank.old f) }
    ensures extends { Extends bank.old bank.new }
    ensures distinct { IsDistinct bank.new }
    ensures ok { IfOk result (λ o. HasAnswer bank.new o
        (derive (branch_of bank.old (shown parts.now).now) (tree_at bank.old f))) }
{
    let _count = bank.count();
    match shape_at(bank, f) {
        Shape::Eq(s, t) => derive_equation(bank, alloc, parts, f, s, t),
        Shape::Not(q) => derive_not_of(bank, alloc, parts, f, q),
        _ => Ok(None),
    }
}
