//! What schemas say of functions and sets under a binder.
ghost use Rattle.std.specs.Prelude.{◌<◌, ◌∷◌, [], length, IfOk};
ghost use Rattle.core_expr.specs.Tree.{in_, eq_, and_, ex_, imp_, all_};
ghost use Rattle.core_expr.specs.Tree.Tree.{bound};
ghost use Rattle.core_expr.specs.Nodes.{AreBelow};
ghost use Rattle.core_expr.specs.Put.{IsScoped, shift, inst};
ghost use Rattle.seq_calculus.specs.Schemas.{own_values, values_within, values_equal};
ghost use Rattle.term_bank.specs.Banks.{IsDistinct, Extends, HasTree, tree_at};
ghost use Rattle.search_definition.specs.Equations.{at_all};
ghost use Rattle.formula_rules.specs.Answers.{IsSubject};

use core_expr::Memory;
use std::alloc::Global;
use term_bank::Bank;
use term_shapes::{Shape, build, make};

/// The term under one more binder.
pub fn raised(bank: &mut Bank, alloc: Global, t: u64) -> Result<u64, Memory>
    requires within { t < length bank.old }
    requires subject { IsSubject (tree_at bank.old t) }
    ensures extends { Extends bank.old bank.new }
    ensures distinct { IsDistinct bank.new }
    ensures ok { IfOk result (λ k. HasTree bank.new k (shift 0 1 (tree_at bank.old t))) }
{
    let _count = bank.count();
    if bank.is_closed(t) {
        return Ok(t);
    }
    make(bank, alloc, Shape::Bound(1))
}

/// The body with the term for its variable.
pub fn put_in(bank: &mut Bank, alloc: Global, p: u64, t: u64) -> Result<u64, Memory>
    requires below { AreBelow (length bank.old) (p ∷ t ∷ []) }
    requires body { IsScoped 1 (tree_at bank.old p) }
    requires subject { IsSubject (tree_at bank.old t) }
    ensures extends { Extends bank.old bank.new }
    ensures distinct { IsDistinct bank.new }
    ensures ok { IfOk result (λ k.
        HasTree bank.new k (inst (tree_at bank.old p) (tree_at bank.old t))) }
{
    let _count = bank.count();
    if bank.is_closed(t) {
        return bank.inst(alloc, p, t);
    }
    Ok(p)
}

/// `\E x : (x \in a /\ t \in x)`.
pub fn some_has(bank: &mut Bank, alloc: Global, t: u64, a: u64) -> Result<u64, Memory>
    requires below { AreBelow (length bank.old) (t ∷ a ∷ []) }
    requires subject { IsSubject (tree_at bank.old t) }
    requires closed { IsScoped 0 (tree_at bank.old a) }
    ensures extends { Extends bank.old bank.new }
    ensures distinct { IsDistinct bank.new }
    ensures ok { IfOk result (λ k. HasTree bank.new k
        (ex_ (and_ (in_ (bound 0) (shift 0 1 (tree_at bank.old a)))
        (in_ (shift 0 1 (tree_at bank.old t)) (bound 0))))) }
{
    let up = raised(bank, alloc, t)?;
    build(
        bank,
        alloc,
        &[up, a],
        &[
            Shape::Bound(0),
            Shape::In(2, 1),
            Shape::In(0, 2),
            Shape::And(3, 4),
            Shape::Ex(5),
        ],
    )
}

/// `\E x : (x \in a /\ t = e)`, where e has the variable.
pub fn some_equals(bank: &mut Bank, alloc: Global, t: u64, a: u64, e: u64) -> Result<u64, Memory>
    requires below { AreBelow (length bank.old) (t ∷ a ∷ e ∷ []) }
    requires subject { IsSubject (tree_at bank.old t) }
    requires closed { IsScoped 0 (tree_at bank.old a) }
    ensures extends { Extends bank.old bank.new }
    ensures distinct { IsDistinct bank.new }
    ensures ok { IfOk result (λ k. HasTree bank.new k
        (ex_ (and_ (in_ (bound 0) (shift 0 1 (tree_at bank.old a)))
        (eq_ (shift 0 1 (tree_at bank.old t)) (tree_at bank.old e))))) }
{
    let up = raised(bank, alloc, t)?;
    build(
        bank,
        alloc,
        &[up, a, e],
        &[
            Shape::Bound(0),
            Shape::In(3, 1),
            Shape::Eq(0, 2),
            Shape::And(4, 5),
            Shape::Ex(6),
        ],
    )
}

/// `f = [x \in s |-> f[x]]`.
pub fn own_values(bank: &mut Bank, alloc: Global, f: u64, s: u64) -> Result<u64, Memory>
    requires below { AreBelow (length bank.old) (f ∷ s ∷ []) }
    requires subject { IsSubject (tree_at bank.old f) }
    ensures extends { Extends bank.old bank.new }
    ensures distinct { IsDistinct bank.new }
    ensures ok { IfOk result (λ k. HasTree bank.new k
        (own_values (tree_at bank.old f) (tree_at bank.old s))) }
{
    let up = raised(bank, alloc, f)?;
    build(
        bank,
        alloc,
        &[f, up, s],
        &[
            Shape::Bound(0),
            Shape::Apply(1, 3),
            Shape::Fun(2, 4),
            Shape::Eq(0, 5),
        ],
    )
}

/// `\A x : (x \in s => f[x] \in t)`.
pub fn values_within(bank: &mut Bank, alloc: Global, f: u64, s: u64, t: u64) -> Result<u64, Memory>
    requires below { AreBelow (length bank.old) (f ∷ s ∷ t ∷ []) }
    requires subject { IsSubject (tree_at bank.old f) }
    requires domain { IsScoped 0 (tree_at bank.old s) }
    requires range { IsScoped 0 (tree_at bank.old t) }
    ensures extends { Extends bank.old bank.new }
    ensures distinct { IsDistinct bank.new }
    ensures ok { IfOk result (λ k. HasTree bank.new k
        (values_within (tree_at bank.old f) (tree_at bank.old s) (tree_at bank.old t))) }
{
    let up = raised(bank, alloc, f)?;
    build(
        bank,
        alloc,
        &[up, s, t],
        &[
            Shape::Bound(0),
            Shape::In(3, 1),
            Shape::Apply(0, 3),
            Shape::In(5, 2),
            Shape::Imp(4, 6),
            Shape::All(7),
        ],
    )
}

/// `f = [x \in s |-> f[x]] /\ \A x : (x \in s => f[x] \in t)`.
pub fn in_functions(bank: &mut Bank, alloc: Global, f: u64, s: u64, t: u64) -> Result<u64, Memory>
    requires below { AreBelow (length bank.old) (f ∷ s ∷ t ∷ []) }
    requires subject { IsSubject (tree_at bank.old f) }
    requires domain { IsScoped 0 (tree_at bank.old s) }
    requires range { IsScoped 0 (tree_at bank.old t) }
    ensures extends { Extends bank.old bank.new }
    ensures distinct { IsDistinct bank.new }
    ensures ok { IfOk result (λ k. HasTree bank.new k
        (and_ (own_values (tree_at bank.old f) (tree_at bank.old s))
        (values_within (tree_at bank.old f) (tree_at bank.old s) (tree_at bank.old t)))) }
{
    let own = own_values(bank, alloc, f, s)?;
    let within = values_within(bank, alloc, f, s, t)?;
    make(bank, alloc, Shape::And(own, within))
}

/// `t \in a /\ P[t]`.
pub fn in_filter(bank: &mut Bank, alloc: Global, t: u64, a: u64, p: u64) -> Result<u64, Memory>
    requires below { AreBelow (length bank.old) (t ∷ a ∷ p ∷ []) }
    requires subject { IsSubject (tree_at bank.old t) }
    requires body { IsScoped 1 (tree_at bank.old p) }
    ensures extends { Extends bank.old bank.new }
    ensures distinct { IsDistinct bank.new }
    ensures ok { IfOk result (λ k. HasTree bank.new k
        (and_ (in_ (tree_at bank.old t) (tree_at bank.old a))
        (inst (tree_at bank.old p) (tree_at bank.old t)))) }
{
    let instance = put_in(bank, alloc, p, t)?;
    build(
        bank,
        alloc,
        &[t, a, instance],
        &[Shape::In(0, 1), Shape::And(3, 2)],
    )
}

/// `\A x : (x \in a => x \in b)`.
pub fn all_within(bank: &mut Bank, alloc: Global, a: u64, b: u64) -> Result<u64, Memory>
    requires below { AreBelow (length bank.old) (a ∷ b ∷ []) }
    requires left { IsScoped 0 (tree_at bank.old a) }
    requires right { IsScoped 0 (tree_at bank.old b) }
    ensures extends { Extends bank.old bank.new }
    ensures distinct { IsDistinct bank.new }
    ensures ok { IfOk result (λ k. HasTree bank.new k
        (all_ (imp_ (in_ (bound 0) (shift 0 1 (tree_at bank.old a)))
        (in_ (bound 0) (shift 0 1 (tree_at bank.old b)))))) }
{
    build(
        bank,
        alloc,
        &[a, b],
        &[
            Shape::Bound(0),
            Shape::In(2, 0),
            Shape::In(2, 1),
            Shape::Imp(3, 4),
            Shape::All(5),
        ],
    )
}

/// `s = t /\ \A x : (x \in s => d = e)`, where d and e have the variable.
pub fn same_functions(
    bank: &mut Bank,
    alloc: Global,
    s: u64,
    d: u64,
    t: u64,
    e: u64,
) -> Result<u64, Memory>
    requires below { AreBelow (length bank.old) (s ∷ d ∷ t ∷ e ∷ []) }
    requires closed { IsScoped 0 (tree_at bank.old s) }
    ensures extends { Extends bank.old bank.new }
    ensures distinct { IsDistinct bank.new }
    ensures ok { IfOk result (λ k. HasTree bank.new k
        (and_ (eq_ (tree_at bank.old s) (tree_at bank.old t))
        (values_equal (tree_at bank.old s) (tree_at bank.old d) (tree_at bank.old e)))) }
{
    build(
        bank,
        alloc,
        &[s, d, t, e],
        &[
            Shape::Eq(0, 2),
            Shape::Bound(0),
            Shape::In(5, 0),
            Shape::Eq(1, 3),
            Shape::Imp(6, 7),
            Shape::All(8),
            Shape::And(4, 9),
        ],
    )
}

/// `\A x : (x \in s => g[x] = e)`, where e has the variable.
pub fn at_all(bank: &mut Bank, alloc: Global, g: u64, s: u64, e: u64) -> Result<u64, Memory>
    requires below { AreBelow (length bank.old) (g ∷ s ∷ e ∷ []) }
    requires function { IsScoped 0 (tree_at bank.old g) }
    requires domain { IsScoped 0 (tree_at bank.old s) }
    ensures extends { Extends bank.old bank.new }
    ensures distinct { IsDistinct bank.new }
    ensures ok { IfOk result (λ k. HasTree bank.new k
        (at_all (tree_at bank.old g) (tree_at bank.old s) (tree_at bank.old e))) }
{
    build(
        bank,
        alloc,
        &[g, s, e],
        &[
            Shape::Bound(0),
            Shape::In(3, 1),
            Shape::Apply(0, 3),
            Shape::Eq(5, 2),
            Shape::Imp(4, 6),
            Shape::All(7),
        ],
    )
}
