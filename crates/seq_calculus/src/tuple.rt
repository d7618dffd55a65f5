//! The instances about sets and tuples that are written out.
ghost use Rattle.std.specs.Prelude.{◌≡◌, [], length, IsTrue, IfOk};
ghost use Rattle.core_expr.specs.Tree.{enum_, tuple_};
ghost use Rattle.core_expr.specs.Tree.Tree.{node};
ghost use Rattle.core_expr.specs.Tree.Parts.{end, part};
ghost use Rattle.core_expr.specs.Heads.{takes, parts_of};
ghost use Rattle.seq_calculus.specs.Schemas.{if_closed, about_enumeration, tuple_meaning, about_tuples, about_entry, join, join_from, equals_each, equal_pairs, row1, row20, row21};

use crate::row::{if_closed, membership, pair};
use core_expr::{Expr, Head, Memory};
use std::alloc::Global;

/// Copies of these.
fn copies(alloc: Global, items: &[Expr]) -> Result<Vec<Expr>, Memory>
    ensures { IfOk result (λ v. v.items ≡ items.now) }
{
    let mut out = Vec::new(alloc);
    for item in items {
        out.push(item.copy(alloc)?)?;
    }
    Ok(out)
}

/// `{items}`.
fn set_of(alloc: Global, items: &[Expr]) -> Result<Expr, Memory>
    ensures { IfOk result (λ e. e ≡ enum_ (parts_of items.now)) }
{
    Expr::plain(alloc, Head::Enum, copies(alloc, items)?)
}

/// `<<items>>`.
fn tuple_of(alloc: Global, items: &[Expr]) -> Result<Expr, Memory>
    ensures { IfOk result (λ e. e ≡ tuple_ (parts_of items.now)) }
{
    Expr::plain(alloc, Head::Tuple, copies(alloc, items)?)
}

/// `t = item` for each of the items.
fn equations_with(alloc: Global, t: &Expr, items: &[Expr]) -> Result<Vec<Expr>, Memory>
    ensures { IfOk result (λ v. v.items ≡ equals_each t.now items.now) }
{
    let mut out = Vec::new(alloc);
    for item in items {
        out.push(pair(alloc, Head::Eq, t, item)?)?;
    }
    Ok(out)
}

/// The equation of each two that stand at the same place.
fn equations(alloc: Global, left: &[Expr], right: &[Expr]) -> Result<Vec<Expr>, Memory>
    requires { length left.now ≡ length right.now }
    ensures { IfOk result (λ v. v.items ≡ equal_pairs left.now right.now) }
{
    let mut out = Vec::new(alloc);
    for i in 0..left.len() {
        out.push(pair(alloc, Head::Eq, &left[i], &right[i])?)?;
    }
    Ok(out)
}

/// What follows the first, joined to it from the left.
fn join_after(alloc: Global, connective: Head, first: &Expr, rest: &[Expr]) -> Result<Expr, Memory>
    requires { IsTrue (takes connective 2) }
    ensures { IfOk result (λ e.
        e ≡ join_from (λ a b. node connective [] (part a (part b end))) first.now rest.now) }
{
    let mut joined = first.copy(alloc)?;
    for item in rest {
        joined = Expr::binary(alloc, connective, joined, item.copy(alloc)?)?;
    }
    Ok(joined)
}

/// The items joined from the left, one by itself, or the head `none` where there are no items.
fn join(alloc: Global, connective: Head, none: Head, items: &[Expr]) -> Result<Expr, Memory>
    requires connective_fits { IsTrue (takes connective 2) }
    requires none_fits { IsTrue (takes none 0) }
    ensures { IfOk result (λ e. e ≡ join (λ a b. node connective [] (part a (part b end)))
        (node none [] end) items.now) }
{
    if items.is_empty() {
        return Expr::leaf(alloc, none);
    }
    join_after(alloc, connective, &items[0], &items[1..])
}

/// `t \in {elements} <=> (t = the first \/ .. \/ t = the last)`.
fn build_enumeration(alloc: Global, t: &Expr, elements: &[Expr]) -> Result<Expr, Memory>
    ensures { IfOk result (λ e. e ≡ about_enumeration t.now elements.now) }
{
    let equations = equations_with(alloc, t, elements)?;
    let meaning = join(alloc, Head::Or, Head::False, equations.as_slice())?;
    membership(alloc, t, set_of(alloc, elements)?, meaning)
}

/// The closed instance about a set whose elements are listed: the parameters are the term and the elements.
pub(crate) fn enumeration(alloc: Global, params: &[Expr]) -> Result<Option<Expr>, Memory>
    ensures { IfOk result (λ o. o ≡ if_closed (row1 0 params.now)) }
{
    if params.is_empty() {
        return Ok(None);
    }
    Ok(if_closed(build_enumeration(alloc, &params[0], &params[1..])?))
}

/// What the equality of these tuples means: each two entries are equal, or FALSE where they are not as many.
fn tuple_meaning(alloc: Global, left: &[Expr], right: &[Expr]) -> Result<Expr, Memory>
    ensures { IfOk result (λ e. e ≡ tuple_meaning left.now right.now) }
{
    if left.len() != right.len() {
        return Expr::leaf(alloc, Head::False);
    }
    let equations = equations(alloc, left, right)?;
    join(alloc, Head::And, Head::True, equations.as_slice())
}

/// `<<left>> = <<right>> <=>` what it means.
fn build_tuples(alloc: Global, left: &[Expr], right: &[Expr]) -> Result<Expr, Memory>
    ensures { IfOk result (λ e. e ≡ about_tuples left.now right.now) }
{
    let whole = Expr::binary(
        alloc,
        Head::Eq,
        tuple_of(alloc, left)?,
        tuple_of(alloc, right)?,
    )?;
    Expr::binary(alloc, Head::Iff, whole, tuple_meaning(alloc, left, right)?)
}

/// The closed instance about two tuples: the first `number` parameters are the entries of the first.
pub(crate) fn tuple_equality(
    alloc: Global,
    number: u64,
    params: &[Expr],
) -> Result<Option<Expr>, Memory>
    ensures { IfOk result (λ o. o ≡ if_closed (row20 number params.now)) }
{
    if number > params.len() as u64 {
        return Ok(None);
    }
    let at = number as usize;
    Ok(if_closed(build_tuples(alloc, &params[..at], &params[at..])?))
}

/// `<<params>>[number] = entry`.
fn build_entry(alloc: Global, number: u64, entry: &Expr, params: &[Expr]) -> Result<Expr, Memory>
    ensures { IfOk result (λ e. e ≡ about_entry params.now number entry.now) }
{
    let applied = Expr::binary(
        alloc,
        Head::Apply,
        tuple_of(alloc, params)?,
        Expr::numeral(alloc, 0, number)?,
    )?;
    Expr::binary(alloc, Head::Eq, applied, entry.copy(alloc)?)
}

/// The closed instance about the entry `number`, from 1, of the tuple of the parameters.
pub(crate) fn tuple_entry(
    alloc: Global,
    number: u64,
    params: &[Expr],
) -> Result<Option<Expr>, Memory>
    ensures { IfOk result (λ o. o ≡ if_closed (row21 number params.now)) }
{
    if number == 0 {
        return Ok(None);
    }
    if number > params.len() as u64 {
        return Ok(None);
    }
    let entry = &params[(number - 1) as usize];
    Ok(if_closed(build_entry(alloc, number, entry, params)?))
}
