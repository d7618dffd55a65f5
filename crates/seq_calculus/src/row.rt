//! The formulas of the schemas, one by one.
ghost use Rattle.std.specs.Prelude.{◌≡◌, [], Some, IsTrue, IfOk};
ghost use Rattle.core_expr.specs.Tree.{iff_, in_, apply_, if_};
ghost use Rattle.core_expr.specs.Tree.Tree.{bound, node};
ghost use Rattle.core_expr.specs.Tree.Parts.{end, part};
ghost use Rattle.core_expr.specs.Put.{shift, IsScoped};
ghost use Rattle.core_expr.specs.Heads.{takes};
ghost use Rattle.seq_calculus.specs.Schemas.{if_closed, about_boolean, about_choice, about_power, about_union, about_subset, about_extensionality, about_domain, about_difference, about_filter, about_image, about_then, about_otherwise, about_application, own_values, values_within, about_function_set, about_except, changed_value, values_equal, about_functions, joined};

use core_expr::{Binder, Expr, Head, Memory};
use std::alloc::Global;

/// The formula, where it is closed.
pub(crate) fn if_closed(formula: Expr) -> Option<Expr>
    ensures { result ≡ if_closed (Some formula) }
{
    if formula.is_closed() {
        return Some(formula);
    }
    None
}

/// The node with this head over copies of these.
pub(crate) fn pair(alloc: Global, head: Head, a: &Expr, b: &Expr) -> Result<Expr, Memory>
    requires { IsTrue (takes head 2) }
    ensures { IfOk result (λ e. e ≡ node head [] (part a.now (part b.now end))) }
{
    Expr::binary(alloc, head, a.copy(alloc)?, b.copy(alloc)?)
}

/// `x \in a`, where x is the variable of the innermost binder.
fn inside(alloc: Global, a: &Expr) -> Result<Expr, Memory>
    ensures { IfOk result (λ e. e ≡ in_ (bound 0) (shift 0 1 a.now)) }
{
    Expr::binary(alloc, Head::In, Expr::bound(alloc, 0)?, a.lift(alloc, 1)?)
}

/// `f[x]`, where x is the variable of the innermost binder.
fn value(alloc: Global, f: &Expr) -> Result<Expr, Memory>
    ensures { IfOk result (λ e. e ≡ apply_ (shift 0 1 f.now) (bound 0)) }
{
    Expr::binary(
        alloc,
        Head::Apply,
        f.lift(alloc, 1)?,
        Expr::bound(alloc, 0)?,
    )
}

/// `IF p THEN a ELSE b`, of copies.
fn conditional(alloc: Global, p: &Expr, a: &Expr, b: &Expr) -> Result<Expr, Memory>
    ensures { IfOk result (λ e. e ≡ if_ p.now a.now b.now) }
{
    let whole = p.copy(alloc)?;
    Expr::ternary(alloc, Head::If, whole, a.copy(alloc)?, b.copy(alloc)?)
}

/// `t \in set <=> meaning`.
pub(crate) fn membership(alloc: Global, t: &Expr, set: Expr, meaning: Expr) -> Result<Expr, Memory>
    ensures { IfOk result (λ e. e ≡ iff_ (in_ t.now set) meaning) }
{
    let left = Expr::binary(alloc, Head::In, t.copy(alloc)?, set)?;
    Expr::binary(alloc, Head::Iff, left, meaning)
}

/// `t \in BOOLEAN <=> (t = TRUE \/ t = FALSE)`.
pub(crate) fn boolean(alloc: Global, t: &Expr) -> Result<Expr, Memory>
    ensures { IfOk result (λ e. e ≡ about_boolean t.now) }
{
    let yes = pair(alloc, Head::Eq, t, &Expr::leaf(alloc, Head::True)?)?;
    let no = pair(alloc, Head::Eq, t, &Expr::leaf(alloc, Head::False)?)?;
    let meaning = Expr::binary(alloc, Head::Or, yes, no)?;
    membership(alloc, t, Expr::leaf(alloc, Head::Boolean)?, meaning)
}

/// `(\E x : P) => P[CHOOSE x : P]`.
pub(crate) fn choice(alloc: Global, p: &Expr) -> Result<Expr, Memory>
    requires { IsScoped 1 p.now }
    ensures { IfOk result (λ e. e ≡ about_choice p.now) }
{
    let chosen = Expr::quantified(alloc, Binder::Choose, p.copy(alloc)?)?;
    let instance = p.inst(alloc, &chosen)?;
    let exists = Expr::quantified(alloc, Binder::Ex, p.copy(alloc)?)?;
    Expr::binary(alloc, Head::Imp, exists, instance)
}

/// `t \in SUBSET a <=> t \subseteq a`.
pub(crate) fn power(alloc: Global, t: &Expr, a: &Expr) -> Result<Expr, Memory>
    ensures { IfOk result (λ e. e ≡ about_power t.now a.now) }
{
    let subsets = Expr::unary(alloc, Head::Power, a.copy(alloc)?)?;
    membership(alloc, t, subsets, pair(alloc, Head::Subseteq, t, a)?)
}

/// `t \in UNION a <=> \E x : (x \in a /\ t \in x)`.
pub(crate) fn union(alloc: Global, t: &Expr, a: &Expr) -> Result<Expr, Memory>
    ensures { IfOk result (λ e. e ≡ about_union t.now a.now) }
{
    let element = Expr::binary(alloc, Head::In, t.lift(alloc, 1)?, Expr::bound(alloc, 0)?)?;
    let body = Expr::binary(alloc, Head::And, inside(alloc, a)?, element)?;
    let meaning = Expr::quantified(alloc, Binder::Ex, body)?;
    let whole = Expr::unary(alloc, Head::Union, a.copy(alloc)?)?;
    membership(alloc, t, whole, meaning)
}

/// `a \subseteq b <=> \A x : (x \in a => x \in b)`.
pub(crate) fn subset(alloc: Global, a: &Expr, b: &Expr) -> Result<Expr, Memory>
    ensures { IfOk result (λ e. e ≡ about_subset a.now b.now) }
{
    let body = Expr::binary(alloc, Head::Imp, inside(alloc, a)?, inside(alloc, b)?)?;
    let meaning = Expr::quantified(alloc, Binder::All, body)?;
    Expr::binary(
        alloc,
        Head::Iff,
        pair(alloc, Head::Subseteq, a, b)?,
        meaning,
    )
}

/// `(\A x : (x \in a <=> x \in b)) => a = b`.
pub(crate) fn extensionality(alloc: Global, a: &Expr, b: &Expr) -> Result<Expr, Memory>
    ensures { IfOk result (λ e. e ≡ about_extensionality a.now b.now) }
{
    let body = Expr::binary(alloc, Head::Iff, inside(alloc, a)?, inside(alloc, b)?)?;
    let same = Expr::quantified(alloc, Binder::All, body)?;
    Expr::binary(alloc, Head::Imp, same, pair(alloc, Head::Eq, a, b)?)
}

/// `DOMAIN [x \in s |-> e] = s`.
pub(crate) fn domain(alloc: Global, s: &Expr, e: &Expr) -> Result<Expr, Memory>
    ensures { IfOk result (λ r. r ≡ about_domain s.now e.now) }
{
    let function = Expr::ranged(alloc, Binder::Fun, s.copy(alloc)?, e.copy(alloc)?)?;
    let domain = Expr::unary(alloc, Head::Dom, function)?;
    Expr::binary(alloc, Head::Eq, domain, s.copy(alloc)?)
}

/// `t \in (a SET b) <=> (t \in a CONNECTIVE t \in b)`.
pub(crate) fn joined(
    alloc: Global,
    set: Head,
    connective: Head,
    t: &Expr,
    a: &Expr,
    b: &Expr,
) -> Result<Expr, Memory>
    requires set_fits { IsTrue (takes set 2) }
    requires connective_fits { IsTrue (takes connective 2) }
    ensures { IfOk result (λ e. e ≡ joined set connective t.now a.now b.now) }
{
    let left = pair(alloc, Head::In, t, a)?;
    let meaning = Expr::binary(alloc, connective, left, pair(alloc, Head::In, t, b)?)?;
    membership(alloc, t, pair(alloc, set, a, b)?, meaning)
}

/// `t \in a \ b <=> (t \in a /\ ~(t \in b))`.
pub(crate) fn difference(alloc: Global, t: &Expr, a: &Expr, b: &Expr) -> Result<Expr, Memory>
    ensures { IfOk result (λ e. e ≡ about_difference t.now a.now b.now) }
{
    let outside = Expr::unary(alloc, Head::Not, pair(alloc, Head::In, t, b)?)?;
    let meaning = Expr::binary(alloc, Head::And, pair(alloc, Head::In, t, a)?, outside)?;
    membership(alloc, t, pair(alloc, Head::Diff, a, b)?, meaning)
}

/// `t \in {x \in a : P} <=> (t \in a /\ P[t])`.
pub(crate) fn filter(alloc: Global, t: &Expr, a: &Expr, p: &Expr) -> Result<Expr, Memory>
    requires closed { IsScoped 0 t.now }
    requires one { IsScoped 1 p.now }
    ensures { IfOk result (λ e. e ≡ about_filter t.now a.now p.now) }
{
    let whole = Expr::ranged(alloc, Binder::Filter, a.copy(alloc)?, p.copy(alloc)?)?;
    let left = pair(alloc, Head::In, t, a)?;
    let meaning = Expr::binary(alloc, Head::And, left, p.inst(alloc, t)?)?;
    membership(alloc, t, whole, meaning)
}

/// `t \in {e : x \in a} <=> \E x : (x \in a /\ t = e)`.
pub(crate) fn image(alloc: Global, t: &Expr, a: &Expr, e: &Expr) -> Result<Expr, Memory>
    ensures { IfOk result (λ r. r ≡ about_image t.now a.now e.now) }
{
    let whole = Expr::ranged(alloc, Binder::Image, a.copy(alloc)?, e.copy(alloc)?)?;
    let equal = Expr::binary(alloc, Head::Eq, t.lift(alloc, 1)?, e.copy(alloc)?)?;
    let body = Expr::binary(alloc, Head::And, inside(alloc, a)?, equal)?;
    let meaning = Expr::quantified(alloc, Binder::Ex, body)?;
    membership(alloc, t, whole, meaning)
}

/// `p => (IF p THEN a ELSE b) = a`.
pub(crate) fn then(alloc: Global, p: &Expr, a: &Expr, b: &Expr) -> Result<Expr, Memory>
    ensures { IfOk result (λ e. e ≡ about_then p.now a.now b.now) }
{
    let equal = pair(alloc, Head::Eq, &conditional(alloc, p, a, b)?, a)?;
    Expr::binary(alloc, Head::Imp, p.copy(alloc)?, equal)
}

/// `~p => (IF p THEN a ELSE b) = b`.
pub(crate) fn otherwise(alloc: Global, p: &Expr, a: &Expr, b: &Expr) -> Result<Expr, Memory>
    ensures { IfOk result (λ e. e ≡ about_otherwise p.now a.now b.now) }
{
    let equal = pair(alloc, Head::Eq, &conditional(alloc, p, a, b)?, b)?;
    let not = Expr::unary(alloc, Head::Not, p.copy(alloc)?)?;
    Expr::binary(alloc, Head::Imp, not, equal)
}

/// `a \in s => [x \in s |-> e][a] = e[a]`.
pub(crate) fn application(alloc: Global, a: &Expr, s: &Expr, e: &Expr) -> Result<Expr, Memory>
    requires closed { IsScoped 0 a.now }
    requires one { IsScoped 1 e.now }
    ensures { IfOk result (λ r. r ≡ about_application a.now s.now e.now) }
{
    let function = Expr::ranged(alloc, Binder::Fun, s.copy(alloc)?, e.copy(alloc)?)?;
    let applied = Expr::binary(alloc, Head::Apply, function, a.copy(alloc)?)?;
    let equal = Expr::binary(alloc, Head::Eq, applied, e.inst(alloc, a)?)?;
    Expr::binary(alloc, Head::Imp, pair(alloc, Head::In, a, s)?, equal)
}

/// `f = [x \in s |-> f[x]]`.
fn own_values(alloc: Global, f: &Expr, s: &Expr) -> Result<Expr, Memory>
    ensures { IfOk result (λ e. e ≡ own_values f.now s.now) }
{
    let function = Expr::ranged(alloc, Binder::Fun, s.copy(alloc)?, value(alloc, f)?)?;
    Expr::binary(alloc, Head::Eq, f.copy(alloc)?, function)
}

/// `\A x : (x \in s => f[x] \in t)`.
fn values_within(alloc: Global, f: &Expr, s: &Expr, t: &Expr) -> Result<Expr, Memory>
    ensures { IfOk result (λ e. e ≡ values_within f.now s.now t.now) }
{
    let within = Expr::binary(alloc, Head::In, value(alloc, f)?, t.lift(alloc, 1)?)?;
    let body = Expr::binary(alloc, Head::Imp, inside(alloc, s)?, within)?;
    Expr::quantified(alloc, Binder::All, body)
}

/// `f \in [s -> t] <=> (f = [x \in s |-> f[x]] /\ \A x : (x \in s => f[x] \in t))`.
pub(crate) fn function_set(alloc: Global, f: &Expr, s: &Expr, t: &Expr) -> Result<Expr, Memory>
    ensures { IfOk result (λ e. e ≡ about_function_set f.now s.now t.now) }
{
    let own = own_values(alloc, f, s)?;
    let meaning = Expr::binary(alloc, Head::And, own, values_within(alloc, f, s, t)?)?;
    membership(alloc, f, pair(alloc, Head::FunSet, s, t)?, meaning)
}

/// `IF x = a THEN b ELSE f[x]`, where x is the variable of the innermost binder.
fn changed_value(alloc: Global, f: &Expr, a: &Expr, b: &Expr) -> Result<Expr, Memory>
    ensures { IfOk result (λ e. e ≡ changed_value f.now a.now b.now) }
{
    let test = Expr::binary(alloc, Head::Eq, Expr::bound(alloc, 0)?, a.lift(alloc, 1)?)?;
    Expr::ternary(alloc, Head::If, test, b.lift(alloc, 1)?, value(alloc, f)?)
}

/// `[f EXCEPT ![a] = b] = [x \in DOMAIN f |-> IF x = a THEN b ELSE f[x]]`.
pub(crate) fn except(alloc: Global, f: &Expr, a: &Expr, b: &Expr) -> Result<Expr, Memory>
    ensures { IfOk result (λ e. e ≡ about_except f.now a.now b.now) }
{
    let whole = f.copy(alloc)?;
    let whole = Expr::ternary(alloc, Head::Except, whole, a.copy(alloc)?, b.copy(alloc)?)?;
    let domain = Expr::unary(alloc, Head::Dom, f.copy(alloc)?)?;
    let function = Expr::ranged(alloc, Binder::Fun, domain, changed_value(alloc, f, a, b)?)?;
    Expr::binary(alloc, Head::Eq, whole, function)
}

/// `\A x : (x \in s => d = e)`.
fn values_equal(alloc: Global, s: &Expr, d: &Expr, e: &Expr) -> Result<Expr, Memory>
    ensures { IfOk result (λ r. r ≡ values_equal s.now d.now e.now) }
{
    let equal = pair(alloc, Head::Eq, d, e)?;
    let body = Expr::binary(alloc, Head::Imp, inside(alloc, s)?, equal)?;
    Expr::quantified(alloc, Binder::All, body)
}

/// `[x \in s |-> d] = [x \in t |-> e] <=> (s = t /\ \A x : (x \in s => d = e))`.
pub(crate) fn function_equality(
    alloc: Global,
    s: &Expr,
    d: &Expr,
    t: &Expr,
    e: &Expr,
) -> Result<Expr, Memory>
    ensures { IfOk result (λ r. r ≡ about_functions s.now d.now t.now e.now) }
{
    let left = Expr::ranged(alloc, Binder::Fun, s.copy(alloc)?, d.copy(alloc)?)?;
    let right = Expr::ranged(alloc, Binder::Fun, t.copy(alloc)?, e.copy(alloc)?)?;
    let whole = Expr::binary(alloc, Head::Eq, left, right)?;
    let values = values_equal(alloc, s, d, e)?;
    let meaning = Expr::binary(alloc, Head::And, pair(alloc, Head::Eq, s, t)?, values)?;
    Expr::binary(alloc, Head::Iff, whole, meaning)
}
