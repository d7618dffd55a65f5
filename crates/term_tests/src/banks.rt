//! A bank of shared nodes.

ghost use Rattle.std.specs.Prelude.{IfOk};
ghost use Rattle.core_expr.specs.Heads.{IsCanonical};

use core_expr::{Expr, Head, Memory, Sym, SymKind};
use std::alloc::Global;
use std::test::Fail;
use term_bank::Bank;

/// The symbol of a canonical form with this number.
fn constant(alloc: Global, number: u64) -> Result<Expr, Memory>
    ensures { IfOk result (λ e. IsCanonical e) }
{
    let sym = Sym {
        kind: SymKind::Canon,
        number,
        arity: 0,
    };
    Expr::symbol(alloc, sym, Vec::new(alloc))
}

/// So many `~` over an expression.
fn nots(alloc: Global, e: Expr, count: u64) -> Result<Expr, Memory>
    requires { IsCanonical e }
    ensures { IfOk result (λ e. IsCanonical e) }
{
    let mut e = e;
    for _ in 0..count {
        e = Expr::unary(alloc, Head::Not, e)?;
    }
    Ok(e)
}

#[test]
fn depth_is_interned_once(rt: HostRuntime) -> Result<(), Fail> {
    let alloc = rt.alloc();
    let e = nots(alloc, constant(alloc, 3)?, 100_000)?;
    let mut bank = Bank::new(alloc)?;
    let first = bank.intern(alloc, &e)?;
    let again = bank.intern(alloc, &e)?;
    assert_eq!(rt; first, again);
    assert_eq!(rt; bank.count(), 100_001);
    let found = bank.seek(6, &[3, 0], &[]);
    assert_eq!(rt; found, Some(0));
    assert!(rt; bank.seek(6, &[4, 0], &[]).is_none());
    assert!(rt; bank.node(100_001).is_none());
    Ok(())
}

/// The index of `e` with `c` for its loose variable, and that of what it is to be.
fn put_in(
    alloc: Global,
    bank: &mut Bank,
    e: &Expr,
    c: &Expr,
    want: &Expr,
) -> Result<Option<(u64, u64)>, Memory>
    requires body { IsCanonical e.now }
    requires term { IsCanonical c.now }
    requires want { IsCanonical want.now }
{
    if !e.is_scoped(1) || !c.is_closed() {
        return Ok(None);
    }
    let body = bank.intern(alloc, e)?;
    let t = bank.intern(alloc, c)?;
    let got = bank.inst(alloc, body, t)?;
    let expected = bank.intern(alloc, want)?;
    Ok(Some((got, expected)))
}

#[test]
fn depth_is_put_into(rt: HostRuntime) -> Result<(), Fail> {
    let alloc = rt.alloc();
    let e = nots(alloc, Expr::bound(alloc, 0)?, 100_000)?;
    let c = constant(alloc, 3)?;
    let want = nots(alloc, constant(alloc, 3)?, 100_000)?;
    let mut bank = Bank::new(alloc)?;
    match put_in(alloc, &mut bank, &e, &c, &want)? {
        Some((got, expected)) => assert_eq!(rt; got, expected),
        None => assert!(rt; false),
    }
    assert_eq!(rt; bank.count(), 200_002);
    Ok(())
}
