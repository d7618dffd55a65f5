//! How a literal is split at a subterm.
ghost use Rattle.std.specs.Prelude.{◌≡◌, ◌<◌, ◌∷◌, [], length, IfOk};
ghost use Rattle.core_expr.specs.Nodes.{AreBelow};
ghost use Rattle.core_expr.specs.Tree.{apply_, if_, fun_};
ghost use Rattle.core_expr.specs.Put.{IsScoped, inst};
ghost use Rattle.term_bank.specs.Banks.{IsDistinct, Extends, HasTree, tree_at};
ghost use Rattle.search_definition.specs.Terms.{replace};
ghost use Rattle.literal_ranks.specs.Dividing.{at_if, at_application, dividing, HasDivision, HasDivisions};

use core_expr::Memory;
use search_definition::Rule;
use std::alloc::Global;
use term_bank::Bank;
use term_shapes::{Shape, make, shape_at};
use term_walks::replace;

/// How a literal is split at a subterm: the rule, the formula whose value decides which side there is, and the formulas of
/// the two sides.
#[derive(Debug, Drop)]
pub struct Division {
    pub rule: Rule,
    pub condition: u64,
    pub left: Vec<u64>,
    pub right: Vec<u64>,
}

/// How f is split at u, which is `IF p THEN x ELSE y`: p with x put for u, or `~p` with y.
fn conditional(
    bank: &mut Bank,
    alloc: Global,
    f: u64,
    u: u64,
    p: u64,
    x: u64,
    y: u64,
) -> Result<Division, Memory>
    requires below { AreBelow (length bank.old) (f ∷ u ∷ p ∷ x ∷ y ∷ []) }
    requires is_if { tree_at bank.old u
        ≡ if_ (tree_at bank.old p) (tree_at bank.old x) (tree_at bank.old y) }
    requires closed { IsScoped 0 (tree_at bank.old u) }
    ensures extends { Extends bank.old bank.new }
    ensures distinct { IsDistinct bank.new }
    ensures ok { IfOk result (λ d. HasDivision bank.new d (at_if (tree_at bank.old f)
        (tree_at bank.old p) (tree_at bank.old x) (tree_at bank.old y))) }
{
    let then = replace(bank, alloc, u, x, f)?;
    let otherwise = replace(bank, alloc, u, y, f)?;
    let denial = make(bank, alloc, Shape::Not(p))?;
    Ok(Division {
        rule: Rule::Conditional,
        condition: p,
        left: Vec::from_slice(alloc, &[p, then])?,
        right: Vec::from_slice(alloc, &[denial, otherwise])?,
    })
}

/// f with the body e at a put for u.
fn valued(bank: &mut Bank, alloc: Global, f: u64, u: u64, e: u64, a: u64) -> Result<u64, Memory>
    requires below { AreBelow (length bank.old) (f ∷ u ∷ e ∷ a ∷ []) }
    requires closed { IsScoped 0 (tree_at bank.old u) }
    requires body { IsScoped 1 (tree_at bank.old e) }
    requires argument { IsScoped 0 (tree_at bank.old a) }
    ensures extends { Extends bank.old bank.new }
    ensures distinct { IsDistinct bank.new }
    ensures ok { IfOk result (λ k. HasTree bank.new k (replace (tree_at bank.old u)
        (inst (tree_at bank.old e) (tree_at bank.old a)) (tree_at bank.old f))) }
{
    let value = bank.inst(alloc, e, a)?;
    replace(bank, alloc, u, value, f)
}

/// How f is split at u, which is `[x \in s |-> e][a]`: `a \in s` with e at a put for u, or `~(a \in s)`.
fn application(
    bank: &mut Bank,
    alloc: Global,
    f: u64,
    u: u64,
    s: u64,
    e: u64,
    a: u64,
) -> Result<Division, Memory>
    requires below { AreBelow (length bank.old) (f ∷ u ∷ s ∷ e ∷ a ∷ []) }
    requires is_application { tree_at bank.old u
        ≡ apply_ (fun_ (tree_at bank.old s) (tree_at bank.old e)) (tree_at bank.old a) }
    requires closed { IsScoped 0 (tree_at bank.old u) }
    ensures extends { Extends bank.old bank.new }
    ensures distinct { IsDistinct bank.new }
    ensures ok { IfOk result (λ d. HasDivision bank.new d (at_application (tree_at bank.old f)
        (tree_at bank.old s) (tree_at bank.old e) (tree_at bank.old a))) }
{
    let replaced = valued(bank, alloc, f, u, e, a)?;
    let condition = make(bank, alloc, Shape::In(a, s))?;
    let denial = make(bank, alloc, Shape::Not(condition))?;
    Ok(Division {
        rule: Rule::Application,
        condition,
        left: Vec::from_slice(alloc, &[condition, replaced])?,
        right: Vec::from_slice(alloc, &[denial])?,
    })
}

/// How f is split at u, which is g applied to a: None exactly where g is no function constructor.
fn applied(
    bank: &mut Bank,
    alloc: Global,
    f: u64,
    u: u64,
    g: u64,
    a: u64,
) -> Result<Option<Division>, Memory>
    requires below { AreBelow (length bank.old) (f ∷ u ∷ g ∷ a ∷ []) }
    requires is_application { tree_at bank.old u
        ≡ apply_ (tree_at bank.old g) (tree_at bank.old a) }
    requires closed { IsScoped 0 (tree_at bank.old u) }
    ensures extends { Extends bank.old bank.new }
    ensures distinct { IsDistinct bank.new }
    ensures ok { IfOk result (λ o. HasDivisions bank.new o
        (dividing (tree_at bank.old f) (tree_at bank.old u))) }
{
    let _count = bank.count();
    match shape_at(bank, g) {
        Shape::Fun(s, e) => Ok(Some(application(bank, alloc, f, u, s, e, a)?)),
        _ => Ok(None),
    }
}

/// How f is split at u: None exactly where u is no IF and no application of a function constructor.
pub fn division_of(
    bank: &mut Bank,
    alloc: Global,
    f: u64,
    u: u64,
) -> Result<Option<Division>, Memory>
    requires below { AreBelow (length bank.old) (f ∷ u ∷ []) }
    requires closed { IsScoped 0 (tree_at bank.old u) }
    ensures extends { Extends bank.old bank.new }
    ensures distinct { IsDistinct bank.new }
    ensures ok { IfOk result (λ o. HasDivisions bank.new o
        (dividing (tree_at bank.old f) (tree_at bank.old u))) }
{
    let _count = bank.count();
    match shape_at(bank, u) {
        Shape::If(p, x, y) => Ok(Some(conditional(bank, alloc, f, u, p, x, y)?)),
        Shape::Apply(g, a) => applied(bank, alloc, f, u, g, a),
        _ => Ok(None),
    }
}
