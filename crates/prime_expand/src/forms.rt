//! The forms of expressions that lead to several nodes.

ghost use Rattle.std.specs.Prelude.{◌≡◌, map, IfOk};
ghost use Rattle.core_expr.specs.Tree.{eq_, in_, apply_, str_};
ghost use Rattle.core_expr.specs.Tree.Tree.{bound};
ghost use Rattle.core_expr.specs.declared.head.Head.TheVariants.{False, Not, Or, Apply};
ghost use Rattle.prime_expand.specs.Both.{on_both, same, unary, binary, joined};
ghost use Rattle.prime_expand.specs.Forms as spec;

use crate::both::Both;
use crate::parts::{joined, many};
use core_expr::{Binder, Expr, Head, Memory, Text};
use std::alloc::Global;

/// `v' = v`.
pub fn unchanged(alloc: Global, v: Both) -> Result<Both, Memory>
    ensures { IfOk result (λ b. b ≡ spec.unchanged v) }
{
    let primed = v.primed.copy(alloc)?;
    let next = Both::same(alloc, primed)?;
    Both::binary(alloc, Head::Eq, next, v)
}

/// `[A]_v`.
pub fn boxed(alloc: Global, a: Both, v: Both) -> Result<Both, Memory>
    ensures { IfOk result (λ b. b ≡ spec.boxed a v) }
{
    let kept = unchanged(alloc, v)?;
    Both::binary(alloc, Head::Or, a, kept)
}

/// `<<A>>_v`.
pub fn angled(alloc: Global, a: Both, v: Both) -> Result<Both, Memory>
    ensures { IfOk result (λ b. b ≡ spec.angled a v) }
{
    let kept = unchanged(alloc, v)?;
    let changed = Both::unary(alloc, Head::Not, kept)?;
    Both::binary(alloc, Head::And, a, changed)
}

/// `r[k]`, with both as they were.
fn applied(alloc: Global, r: &Both, k: &Both) -> Result<Both, Memory>
    ensures { IfOk result (λ b. b ≡ binary Apply r.now k.now) }
{
    let r = r.copy(alloc)?;
    let k = k.copy(alloc)?;
    Both::binary(alloc, Head::Apply, r, k)
}

/// `r[k1]..[kn]`.
pub fn along(alloc: Global, r: &Both, keys: &[Both]) -> Result<Both, Memory>
    ensures { IfOk result (λ b. b ≡ spec.along r.now keys.now) }
{
    let mut done = r.copy(alloc)?;
    for key in keys {
        let key = key.copy(alloc)?;
        done = Both::binary(alloc, Head::Apply, done, key)?;
    }
    Ok(done)
}

/// A value on the way of a path, and the key that follows it.
#[derive(Drop)]
struct Turn {
    value: Both,
    key: Both,
}

/// The values on the way of a path, from the outermost, each with its key.
fn way(alloc: Global, r: Both, keys: Vec<Both>) -> Result<Vec<Turn>, Memory>
    ensures { IfOk result (λ v. map (λ (t : Turn). (t.value, t.key)) v.items ≡ spec.way r keys.items) }
{
    let mut value = r;
    let mut turns = Vec::new(alloc);
    for key in keys {
        let next = applied(alloc, &value, &key)?;
        turns.push(Turn { value, key })?;
        value = next;
    }
    Ok(turns)
}

/// `[r EXCEPT ![k1]..[kn] = v]`.
#[tactic(auto, using(crate::proofs::Ways::updated_rebuilt))]
pub fn updated(alloc: Global, r: Both, keys: Vec<Both>, v: Both) -> Result<Both, Memory>
    ensures { IfOk result (λ b. b ≡ spec.updated r keys.items v) }
{
    let mut turns = way(alloc, r, keys)?;
    let mut value = v;
    while let Some(turn) = turns.pop() {
        value = Both::ternary(alloc, Head::Except, turn.value, turn.key, value)?;
    }
    Ok(value)
}

/// `x = h`, where x is the variable of the innermost binder.
fn is_field(alloc: Global, field: &Text) -> Result<Both, Memory>
    ensures { IfOk result (λ b. b ≡ same (eq_ (bound 0) (str_ field.now))) }
{
    let variable = Both::variable(alloc, 0)?;
    let field = Both::string(alloc, field.bytes())?;
    Both::binary(alloc, Head::Eq, variable, field)
}

/// The value of the field that the variable of the innermost binder is; the last without a test.
#[tactic(auto, using(crate::proofs::Ways::tested_last))]
fn field_value(alloc: Global, fields: &[Text], values: Vec<Both>) -> Result<Both, Memory>
    ensures { IfOk result (λ b. b ≡ spec.field_value fields.now values.items) }
{
    let mut values = values;
    values.truncate(fields.len() + 1);
    let Some(mut rest) = values.pop() else {
        return Both::truth(alloc);
    };
    while let Some(value) = values.pop() {
        let test = is_field(alloc, &fields[values.len()])?;
        rest = Both::ternary(alloc, Head::If, test, value, rest)?;
    }
    Ok(rest)
}

/// The field of the variable of the innermost binder is in its set.
fn field_condition(alloc: Global, field: &Text, set: Both) -> Result<Both, Memory>
    ensures { IfOk result (λ b. b ≡ on_both (in_ (apply_ (bound 0) (str_ field.now))) set) }
{
    let variable = Both::variable(alloc, 0)?;
    let field = Both::string(alloc, field.bytes())?;
    let value = Both::binary(alloc, Head::Apply, variable, field)?;
    Both::binary(alloc, Head::In, value, set)
}

/// The conditions on all fields.
fn field_conditions(alloc: Global, fields: &[Text], sets: Vec<Both>) -> Result<Vec<Both>, Memory>
    ensures { IfOk result (λ v. v.items ≡ spec.field_conditions fields.now sets.items) }
{
    let mut sets = sets.into_iter();
    let mut done = Vec::new(alloc);
    for field in fields {
        let Some(set) = sets.next() else {
            return Ok(done);
        };
        done.push(field_condition(alloc, field, set)?)?;
    }
    Ok(done)
}

/// The set of the fields' names.
fn field_names(alloc: Global, fields: &[Text]) -> Result<Both, Memory>
    ensures { IfOk result (λ b. b ≡ same (spec.field_names fields.now)) }
{
    let mut names = Vec::new(alloc);
    for field in fields {
        names.push(Expr::text(alloc, field.bytes())?)?;
    }
    let names = Expr::plain(alloc, Head::Enum, names)?;
    Both::same(alloc, names)
}

/// `[h1 |-> v1, ..]`, where the values stand under one binder.
pub fn record_of(alloc: Global, fields: &[Text], values: Vec<Both>) -> Result<Both, Memory>
    ensures { IfOk result (λ b. b ≡ spec.record_of fields.now values.items) }
{
    let value = field_value(alloc, fields, values)?;
    let names = field_names(alloc, fields)?;
    Both::ranged(alloc, Binder::Fun, names, value)
}

/// `[h1 : S1, ..]`, from the sets and from the sets as they stand under one binder.
pub fn records_of(
    alloc: Global,
    fields: &[Text],
    sets: Vec<Both>,
    inner: Vec<Both>,
) -> Result<Both, Memory>
    ensures { IfOk result (λ b. b ≡ spec.records_of fields.now sets.items inner.items) }
{
    let names = field_names(alloc, fields)?;
    let sets = many(alloc, Head::Enum, sets)?;
    let values = Both::unary(alloc, Head::Union, sets)?;
    let functions = Both::binary(alloc, Head::FunSet, names, values)?;
    let conditions = field_conditions(alloc, fields, inner)?;
    let condition = joined(alloc, Head::And, Head::True, conditions)?;
    Both::ranged(alloc, Binder::Filter, functions, condition)
}

/// An arm of a CASE: the variable of the innermost binder is the value, where the guard is true.
fn arm(alloc: Global, guard: Both, value: Both) -> Result<Both, Memory>
    ensures { IfOk result (λ b. b ≡ spec.arm guard value) }
{
    let variable = Both::variable(alloc, 0)?;
    let equation = Both::binary(alloc, Head::Eq, variable, value)?;
    Both::binary(alloc, Head::And, guard, equation)
}

/// No guard is true.
fn otherwise(alloc: Global, guards: Vec<Both>) -> Result<Both, Memory>
    ensures { IfOk result (λ b. b ≡ unary Not (joined Or False guards.items)) }
{
    let some = joined(alloc, Head::Or, Head::False, guards)?;
    Both::unary(alloc, Head::Not, some)
}

/// The arms of a CASE, whose guards and values stand in turn; a value without a guard is that of OTHER.
fn arms(alloc: Global, parts: Vec<Both>) -> Result<Vec<Both>, Memory>
    ensures { IfOk result (λ v. v.items ≡ spec.arms (spec.otherwise parts.items) parts.items) }
{
    let mut parts = parts.into_iter();
    let mut guards = Vec::new(alloc);
    let mut done = Vec::new(alloc);
    while let Some(part) = parts.next() {
        let Some(value) = parts.next() else {
            let other = otherwise(alloc, guards)?;
            done.push(arm(alloc, other, part)?)?;
            return Ok(done);
        };
        guards.push(part.copy(alloc)?)?;
        done.push(arm(alloc, part, value)?)?;
    }
    Ok(done)
}

/// A CASE, whose parts stand under one binder.
pub fn case_of(alloc: Global, parts: Vec<Both>) -> Result<Both, Memory>
    ensures { IfOk result (λ b. b ≡ spec.case_of parts.items) }
{
    let arms = arms(alloc, parts)?;
    let chosen = joined(alloc, Head::Or, Head::False, arms)?;
    Both::quantified(alloc, Binder::Choose, chosen)
}
