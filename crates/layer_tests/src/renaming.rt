//! Tests of substitution for symbols.
use crate::nodes::{apply, apply_two, choose, constant, symbol};
use core_expr::{Expr, Memory, Sym};
use std::alloc::Global;
use std::test::Fail;

/// Whether `e` is `want` once `body` is put for the symbol.
fn gives(alloc: Global, e: &Expr, sym: Sym, body: Expr, want: &Expr) -> Result<bool, Memory> {
    let by = vec![in alloc; (sym, body)]?;
    let made = e.rename(alloc, by.as_slice())?;
    Ok(made.same(want))
}

/// `CHOOSE y : 9(y, x)`, where x is the bound variable 0 outside.
fn chosen(alloc: Global) -> Result<Expr, Memory> {
    let body = apply_two(alloc, 9, Expr::bound(alloc, 0)?, Expr::bound(alloc, 1)?)?;
    choose(alloc, body)
}

/// `CHOOSE z : 1(z)`
fn applied(alloc: Global) -> Result<Expr, Memory> {
    let body = apply(alloc, 1, Expr::bound(alloc, 0)?)?;
    choose(alloc, body)
}

#[test]
fn no_binder_captures(rt: HostRuntime) -> Result<(), Fail> {
    let alloc = rt.alloc();
    // CHOOSE z : 1(z), with CHOOSE y : 9(y, x) for 1(x)
    let e = applied(alloc)?;
    let body = chosen(alloc)?;
    let want = choose(alloc, body.copy(alloc)?)?;
    assert!(rt; gives(alloc, &e, symbol(1, 1), body, &want)?);
    Ok(())
}

/// 2(c6, c7)
fn pair(alloc: Global) -> Result<Expr, Memory> {
    let first = constant(alloc, 6)?;
    let second = constant(alloc, 7)?;
    apply_two(alloc, 2, first, second)
}

#[test]
fn an_argument_may_be_dropped(rt: HostRuntime) -> Result<(), Fail> {
    let alloc = rt.alloc();
    // x for 2(x, y)
    let e = pair(alloc)?;
    let want = constant(alloc, 6)?;
    let body = Expr::bound(alloc, 1)?;
    assert!(rt; gives(alloc, &e, symbol(2, 2), body, &want)?);
    // the symbol 2 of arity 1 is another
    let other = constant(alloc, 8)?;
    assert!(rt; gives(alloc, &e, symbol(2, 1), other, &e)?);
    Ok(())
}

/// 9(a, a)
fn twice(alloc: Global, a: Expr) -> Result<Expr, Memory> {
    let b = a.copy(alloc)?;
    apply_two(alloc, 9, a, b)
}

/// The symbol of arity 1 with this number, applied so many times to a constant.
fn nested(alloc: Global, number: u64, count: u64) -> Result<Expr, Memory> {
    let mut e = constant(alloc, 6)?;
    for _ in 0..count {
        e = apply(alloc, number, e)?;
    }
    Ok(e)
}

#[test]
fn an_argument_may_be_doubled(rt: HostRuntime) -> Result<(), Fail> {
    let alloc = rt.alloc();
    // 9(x, x) for 1(x), in 1(1(c6))
    let e = nested(alloc, 1, 2)?;
    let want = twice(alloc, twice(alloc, constant(alloc, 6)?)?)?;
    let body = twice(alloc, Expr::bound(alloc, 0)?)?;
    assert!(rt; gives(alloc, &e, symbol(1, 1), body, &want)?);
    Ok(())
}

#[test]
fn depth_needs_no_stack(rt: HostRuntime) -> Result<(), Fail> {
    let alloc = rt.alloc();
    let e = nested(alloc, 4, 100_000)?;
    let want = nested(alloc, 5, 100_000)?;
    let body = apply(alloc, 5, Expr::bound(alloc, 0)?)?;
    assert!(rt; gives(alloc, &e, symbol(4, 1), body, &want)?);
    Ok(())
}
