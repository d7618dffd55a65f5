//! The closed instance of a schema, by its number.
ghost use Rattle.std.specs.Prelude.{◌≡◌, ◌↔◌, Some, IsTrue, IfOk};
ghost use Rattle.core_expr.specs.Put.{IsScoped};
ghost use Rattle.seq_calculus.specs.Schemas.{if_closed, closed_instance, of_one, of_two, of_three, of_four, about_functions, row22};
ghost use Rattle.seq_calculus.specs.Families.{row_of, formula_of_one, formula_of_two, formula_of_three};

use crate::literal::literals;
use crate::row::{
    application, boolean, choice, difference, domain, except, extensionality, filter,
    function_equality, function_set, if_closed, image, joined, otherwise, power, subset, then,
    union,
};
use crate::schema::{OfOne, OfThree, OfTwo, Schema, schema_at};
use crate::tuple::{enumeration, tuple_entry, tuple_equality};
use core_expr::{Expr, Head, Memory};
use std::alloc::Global;

/// Whether the first is closed, and the second has at most one loose variable.
fn are_two_scoped(a: &Expr, b: &Expr) -> bool
    ensures { IsTrue result ↔ (IsScoped 0 a.now × IsScoped 1 b.now) }
{
    a.is_closed() && b.is_scoped(1)
}

/// Whether the first two are closed, and the third has at most one loose variable.
fn are_three_scoped(a: &Expr, b: &Expr, c: &Expr) -> bool
    ensures { IsTrue result ↔ (IsScoped 0 a.now × IsScoped 0 b.now × IsScoped 1 c.now) }
{
    a.is_closed() && b.is_closed() && c.is_scoped(1)
}

/// Whether the first and the third are closed, and the others have at most one loose variable.
fn are_four_scoped(s: &Expr, d: &Expr, t: &Expr, e: &Expr) -> bool
    ensures { IsTrue result
        ↔ (IsScoped 0 s.now × IsScoped 1 d.now × IsScoped 0 t.now × IsScoped 1 e.now) }
{
    are_two_scoped(s, d) && are_two_scoped(t, e)
}

/// The formula of such a schema.
fn build_one(alloc: Global, schema: OfOne, a: &Expr) -> Result<Expr, Memory>
    requires { IsScoped 1 a.now }
    ensures { IfOk result (λ e. e ≡ formula_of_one schema a.now) }
{
    match schema {
        OfOne::Boolean => boolean(alloc, a),
        OfOne::Choice => choice(alloc, a),
    }
}

/// The closed formula of such a schema.
fn closed_one(alloc: Global, schema: OfOne, a: &Expr) -> Result<Option<Expr>, Memory>
    ensures { IfOk result (λ o. o ≡ if_closed (Some (formula_of_one schema a.now))) }
{
    if !a.is_scoped(1) {
        return Ok(None);
    }
    Ok(if_closed(build_one(alloc, schema, a)?))
}

/// The formula of such a schema.
fn build_two(alloc: Global, schema: OfTwo, a: &Expr, b: &Expr) -> Result<Expr, Memory>
    ensures { IfOk result (λ e. e ≡ formula_of_two schema a.now b.now) }
{
    match schema {
        OfTwo::Power => power(alloc, a, b),
        OfTwo::Union => union(alloc, a, b),
        OfTwo::Subset => subset(alloc, a, b),
        OfTwo::Extensionality => extensionality(alloc, a, b),
        OfTwo::Domain => domain(alloc, a, b),
    }
}

/// The closed formula of such a schema.
fn closed_two(alloc: Global, schema: OfTwo, a: &Expr, b: &Expr) -> Result<Option<Expr>, Memory>
    ensures { IfOk result (λ o. o ≡ if_closed (Some (formula_of_two schema a.now b.now))) }
{
    if !are_two_scoped(a, b) {
        return Ok(None);
    }
    Ok(if_closed(build_two(alloc, schema, a, b)?))
}

/// The formula of such a schema.
fn build_three(alloc: Global, schema: OfThree, a: &Expr, b: &Expr, c: &Expr) -> Result<Expr, Memory>
    requires first { IsScoped 0 a.now }
    requires third { IsScoped 1 c.now }
    ensures { IfOk result (λ e. e ≡ formula_of_three schema a.now b.now c.now) }
{
    match schema {
        OfThree::Cup => joined(alloc, Head::Cup, Head::Or, a, b, c),
        OfThree::Cap => joined(alloc, Head::Cap, Head::And, a, b, c),
        OfThree::Difference => difference(alloc, a, b, c),
        OfThree::Filter => filter(alloc, a, b, c),
        OfThree::Image => image(alloc, a, b, c),
        OfThree::Then => then(alloc, a, b, c),
        OfThree::Otherwise => otherwise(alloc, a, b, c),
        OfThree::Application => application(alloc, a, b, c),
        OfThree::FunctionSet => function_set(alloc, a, b, c),
        OfThree::Except => except(alloc, a, b, c),
    }
}

/// The closed formula of such a schema.
fn closed_three(
    alloc: Global,
    schema: OfThree,
    a: &Expr,
    b: &Expr,
    c: &Expr,
) -> Result<Option<Expr>, Memory>
    ensures { IfOk result (λ o. o ≡ if_closed (Some (formula_of_three schema a.now b.now c.now))) }
{
    if !are_three_scoped(a, b, c) {
        return Ok(None);
    }
    Ok(if_closed(build_three(alloc, schema, a, b, c)?))
}

/// The closed formula about two functions that are written out.
fn closed_functions(
    alloc: Global,
    s: &Expr,
    d: &Expr,
    t: &Expr,
    e: &Expr,
) -> Result<Option<Expr>, Memory>
    ensures { IfOk result (λ o. o ≡ if_closed (Some (about_functions s.now d.now t.now e.now))) }
{
    if !are_four_scoped(s, d, t, e) {
        return Ok(None);
    }
    Ok(if_closed(function_equality(alloc, s, d, t, e)?))
}

/// The closed instance of a schema with one parameter.
fn for_one(alloc: Global, schema: OfOne, params: &[Expr]) -> Result<Option<Expr>, Memory>
    ensures { IfOk result (λ o. o ≡ if_closed (of_one (formula_of_one schema) 0 params.now)) }
{
    if params.len() != 1 {
        return Ok(None);
    }
    closed_one(alloc, schema, &params[0])
}

/// The closed instance of a schema with two parameters.
fn for_two(alloc: Global, schema: OfTwo, params: &[Expr]) -> Result<Option<Expr>, Memory>
    ensures { IfOk result (λ o. o ≡ if_closed (of_two (formula_of_two schema) 0 params.now)) }
{
    if params.len() != 2 {
        return Ok(None);
    }
    closed_two(alloc, schema, &params[0], &params[1])
}

/// The closed instance of a schema with three parameters.
fn for_three(alloc: Global, schema: OfThree, params: &[Expr]) -> Result<Option<Expr>, Memory>
    ensures { IfOk result (λ o. o ≡ if_closed (of_three (formula_of_three schema) 0 params.now)) }
{
    if params.len() != 3 {
        return Ok(None);
    }
    closed_three(alloc, schema, &params[0], &params[1], &params[2])
}

/// The closed instance about two functions that are written out.
fn for_functions(alloc: Global, params: &[Expr]) -> Result<Option<Expr>, Memory>
    ensures { IfOk result (λ o. o ≡ if_closed (of_four about_functions 0 params.now)) }
{
    if params.len() != 4 {
        return Ok(None);
    }
    closed_functions(alloc, &params[0], &params[1], &params[2], &params[3])
}

/// The closed instance about two literals.
fn for_literals(alloc: Global, params: &[Expr]) -> Result<Option<Expr>, Memory>
    ensures { IfOk result (λ o. o ≡ if_closed (row22 0 params.now)) }
{
    if params.len() != 2 {
        return Ok(None);
    }
    literals(alloc, &params[0], &params[1])
}

/// The closed instance of a schema with the number 0.
fn for_zero(alloc: Global, schema: Schema, params: &[Expr]) -> Result<Option<Expr>, Memory>
    ensures { IfOk result (λ o. o ≡ if_closed (row_of schema 0 params.now)) }
{
    match schema {
        Schema::Enumeration => enumeration(alloc, params),
        Schema::One(schema) => for_one(alloc, schema, params),
        Schema::Two(schema) => for_two(alloc, schema, params),
        Schema::Three(schema) => for_three(alloc, schema, params),
        Schema::FunctionEquality => for_functions(alloc, params),
        Schema::TupleEquality => tuple_equality(alloc, 0, params),
        Schema::TupleEntry => tuple_entry(alloc, 0, params),
        Schema::Literals => for_literals(alloc, params),
    }
}

/// The closed instance of a schema with a number from 1.
fn for_number(
    alloc: Global,
    schema: Schema,
    number: u64,
    params: &[Expr],
) -> Result<Option<Expr>, Memory>
    requires { ¬ (number ≡ 0) }
    ensures { IfOk result (λ o. o ≡ if_closed (row_of schema number params.now)) }
{
    match schema {
        Schema::TupleEquality => tuple_equality(alloc, number, params),
        Schema::TupleEntry => tuple_entry(alloc, number, params),
        _ => Ok(None),
    }
}

/// The closed instance of a schema.
fn for_schema(
    alloc: Global,
    schema: Schema,
    number: u64,
    params: &[Expr],
) -> Result<Option<Expr>, Memory>
    ensures { IfOk result (λ o. o ≡ if_closed (row_of schema number params.now)) }
{
    if number == 0 {
        return for_zero(alloc, schema, params);
    }
    for_number(alloc, schema, number, params)
}

/// The instance of the schema `schema`, from 1 to 22, with this number and these parameters. The number is how many
/// parameters are the entries of the first of two tuples (20), which entry of a tuple is meant, from 1 (21), and 0 for every
/// other schema. None exactly where there is no such schema, the number or the number of parameters does not fit, or the
/// formula is not closed.
pub fn instance_of(
    alloc: Global,
    schema: u64,
    number: u64,
    params: &Vec<Expr>,
) -> Result<Option<Expr>, Memory>
    ensures { IfOk result (λ o. o ≡ closed_instance schema number params.now.items) }
{
    match schema_at(schema) {
        Some(schema) => for_schema(alloc, schema, number, params.as_slice()),
        None => Ok(None),
    }
}
