//! Tests of the instances of schemas.
use crate::nodes::{apply, choose, constant};
use core_expr::{Binder, Expr, Head, Memory};
use seq_calculus::instance_of;
use std::alloc::Global;
use std::test::Fail;

/// How many nodes the instance has, 0 where there is none.
fn size(alloc: Global, schema: u64, number: u64, params: &Vec<Expr>) -> Result<u64, Memory> {
    match instance_of(alloc, schema, number, params)? {
        Some(e) => Ok(e.length()),
        None => Ok(0),
    }
}

/// How many nodes the instance has for the constants 0, 1 and 2.
fn size_for_three(alloc: Global, schema: u64, number: u64) -> Result<u64, Memory> {
    let first = constant(alloc, 0)?;
    let second = constant(alloc, 1)?;
    let third = constant(alloc, 2)?;
    let params = vec![in alloc; first, second, third]?;
    size(alloc, schema, number, &params)
}

#[test]
fn instances_of_three_constants(rt: HostRuntime) -> Result<(), Fail> {
    // a schema, its number, and how many nodes the instance has
    let rows: [[u64; 3]; 10] = [
        [0, 0, 0],
        [1, 0, 13],
        [2, 0, 13],
        [2, 1, 0],
        [5, 0, 0],
        [14, 0, 9],
        [20, 1, 8],
        [21, 2, 8],
        [21, 4, 0],
        [23, 0, 0],
    ];
    for row in &rows {
        let got = size_for_three(rt.alloc(), row[0], row[1])?;
        assert_eq!(rt; got, row[2], "schema {}", row[0]);
    }
    Ok(())
}

/// Whether the instance for this parameter is `want`.
fn gives(alloc: Global, schema: u64, param: Expr, want: &Expr) -> Result<bool, Memory> {
    let params = vec![in alloc; param]?;
    match instance_of(alloc, schema, 0, &params)? {
        Some(e) => Ok(e.same(want)),
        None => Ok(false),
    }
}

/// `c0 \in BOOLEAN <=> c0 = TRUE \/ c0 = FALSE`
fn about_boolean(alloc: Global) -> Result<Expr, Memory> {
    let left = Expr::binary(
        alloc,
        Head::In,
        constant(alloc, 0)?,
        Expr::leaf(alloc, Head::Boolean)?,
    )?;
    let first = Expr::binary(
        alloc,
        Head::Eq,
        constant(alloc, 0)?,
        Expr::leaf(alloc, Head::True)?,
    )?;
    let second = Expr::binary(
        alloc,
        Head::Eq,
        constant(alloc, 0)?,
        Expr::leaf(alloc, Head::False)?,
    )?;
    Expr::binary(
        alloc,
        Head::Iff,
        left,
        Expr::binary(alloc, Head::Or, first, second)?,
    )
}

/// `(\E x : 1(x)) => 1(CHOOSE x : 1(x))`
fn about_choice(alloc: Global) -> Result<Expr, Memory> {
    let left = Expr::quantified(alloc, Binder::Ex, apply(alloc, 1, Expr::bound(alloc, 0)?)?)?;
    let value = choose(alloc, apply(alloc, 1, Expr::bound(alloc, 0)?)?)?;
    Expr::binary(alloc, Head::Imp, left, apply(alloc, 1, value)?)
}

#[test]
fn what_is_in_boolean(rt: HostRuntime) -> Result<(), Fail> {
    let alloc = rt.alloc();
    let want = about_boolean(alloc)?;
    let param = constant(alloc, 0)?;
    assert!(rt; gives(alloc, 9, param, &want)?);
    // the parameter is closed, or there is no instance
    let open = vec![in alloc; Expr::bound(alloc, 0)?]?;
    assert_eq!(rt; size(alloc, 9, 0, &open)?, 0);
    Ok(())
}

#[test]
fn what_is_chosen(rt: HostRuntime) -> Result<(), Fail> {
    let alloc = rt.alloc();
    let want = about_choice(alloc)?;
    // the parameter may have a loose variable
    let open = apply(alloc, 1, Expr::bound(alloc, 0)?)?;
    assert!(rt; gives(alloc, 12, open, &want)?);
    Ok(())
}

#[test]
fn literals_are_told_apart(rt: HostRuntime) -> Result<(), Fail> {
    let alloc = rt.alloc();
    let different = vec![in alloc; Expr::numeral(alloc, 0, 1)?, Expr::numeral(alloc, 0, 2)?]?;
    let want = Expr::unary(
        alloc,
        Head::Not,
        Expr::binary(
            alloc,
            Head::Eq,
            Expr::numeral(alloc, 0, 1)?,
            Expr::numeral(alloc, 0, 2)?,
        )?,
    )?;
    assert!(rt; instance_of(alloc, 22, 0, &different)? == Some(want));
    let equal = vec![in alloc; Expr::numeral(alloc, 0, 1)?, Expr::numeral(alloc, 0, 1)?]?;
    assert!(rt; instance_of(alloc, 22, 0, &equal)?.is_none());
    Ok(())
}
