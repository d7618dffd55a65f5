//! Tests of expressions, of canonical forms and of texts.
use crate::nodes::{choose, constant};
use core_expr::{Binder, Canon, Expr, Head, Memory, RowKind, Text};
use sqlite_items::Items;
use std::alloc::Global;
use std::hash::{DefaultHasher, Hash, Hasher};
use std::test::Fail;

/// `~a`
fn not(alloc: Global, a: Expr) -> Result<Expr, Memory> {
    Expr::unary(alloc, Head::Not, a)
}

/// `{x \in {c0, ~c1} : x = c2}`
fn sample(alloc: Global) -> Result<Expr, Memory> {
    let first = constant(alloc, 0)?;
    let second = not(alloc, constant(alloc, 1)?)?;
    let set = Expr::binary(alloc, Head::Enum, first, second)?;
    let x = Expr::bound(alloc, 0)?;
    let body = Expr::binary(alloc, Head::Eq, x, constant(alloc, 2)?)?;
    Expr::ranged(alloc, Binder::Filter, set, body)
}

/// `CHOOSE y : y = a`
fn chosen_as(alloc: Global, a: Expr) -> Result<Expr, Memory> {
    let y = Expr::bound(alloc, 0)?;
    let body = Expr::binary(alloc, Head::Eq, y, a)?;
    choose(alloc, body)
}

/// The head of the node, 99 past the last.
fn head(e: &Expr, i: u64) -> u64 {
    if i < e.length() { e.head(i) } else { 99 }
}

/// How many numbers the node has, 99 past the last.
fn numbers(e: &Expr, i: u64) -> u64 {
    if i < e.length() {
        e.numbers(i).len() as u64
    } else {
        99
    }
}

/// The place of the part, 99 where there is none.
fn part(e: &Expr, i: u64, k: u64) -> u64 {
    if i < e.length() && k < e.parts(i) {
        e.part(i, k)
    } else {
        99
    }
}

#[test]
fn nodes_are_read_as_made(rt: HostRuntime) -> Result<(), Fail> {
    let e = sample(rt.alloc())?;
    let heads = [
        head(&e, 0),
        head(&e, 2),
        head(&e, 3),
        head(&e, 4),
        head(&e, 6),
        head(&e, 7),
        head(&e, 8),
    ];
    assert_eq!(rt; heads, [6, 7, 17, 5, 14, 23, 99]);
    let counts = [
        numbers(&e, 0),
        numbers(&e, 3),
        numbers(&e, 4),
        numbers(&e, 7),
    ];
    assert_eq!(rt; counts, [0, 1, 1, 0]);
    let places = [
        part(&e, 7, 0),
        part(&e, 7, 1),
        part(&e, 6, 0),
        part(&e, 3, 1),
        part(&e, 3, 2),
    ];
    assert_eq!(rt; places, [3, 6, 4, 2, 99]);
    Ok(())
}

/// What the root is.
fn root(e: &Expr) -> Option<RowKind> {
    let nodes = e.length();
    if nodes > 0 {
        return Some(e.kind(nodes - 1));
    }
    None
}

/// The second number of the root, where there is one.
fn second_number(e: &Expr) -> Option<u64> {
    let nodes = e.length();
    if nodes > 0 {
        return e.numbers(nodes - 1).get(1).copied();
    }
    None
}

#[test]
fn numerals_and_strings_are_made(rt: HostRuntime) -> Result<(), Fail> {
    let alloc = rt.alloc();
    let number = Expr::number(alloc, 18446744073709551619)?;
    assert!(rt; number == Expr::numeral(alloc, 1, 3)?);
    assert!(rt; root(&number) == Some(RowKind::Plain(Head::Num)));
    let text = Expr::text(alloc, b"Az")?;
    assert_eq!(rt; second_number(&text), Some(65));
    assert!(rt; text != Expr::text(alloc, b"A")?);
    Ok(())
}

/// `e` with `t` for its loose variable, where both are fit for that.
fn put(alloc: Global, e: &Expr, t: &Expr) -> Result<Option<Expr>, Memory> {
    if e.is_scoped(1) && t.is_closed() {
        let made = e.inst(alloc, t)?;
        return Ok(Some(made));
    }
    Ok(None)
}

#[test]
fn no_binder_captures(rt: HostRuntime) -> Result<(), Fail> {
    let alloc = rt.alloc();
    // CHOOSE y : y = x, with CHOOSE y : y = c for x
    let body = chosen_as(alloc, Expr::bound(alloc, 1)?)?;
    let t = chosen_as(alloc, constant(alloc, 0)?)?;
    let want = chosen_as(alloc, t.copy(alloc)?)?;
    let got = put(alloc, &body, &t)?;
    assert!(rt; got == Some(want));
    assert!(rt; !body.is_closed());
    Ok(())
}

#[test]
fn only_loose_variables_move(rt: HostRuntime) -> Result<(), Fail> {
    let alloc = rt.alloc();
    // CHOOSE y : y = x
    let e = chosen_as(alloc, Expr::bound(alloc, 1)?)?;
    let want = chosen_as(alloc, Expr::bound(alloc, 4)?)?;
    assert!(rt; e.lift(alloc, 3)? == want);
    // an index of 2^64 - 1 goes up no more
    let last = Expr::bound(alloc, u64::MAX)?;
    assert!(rt; last.lift(alloc, 1).is_err());
    assert!(rt; last.lift(alloc, 0)? == last);
    Ok(())
}

/// So many `~` over the bound variable 0.
fn nots(alloc: Global, count: u64) -> Result<Expr, Memory> {
    let mut e = Expr::bound(alloc, 0)?;
    for _ in 0..count {
        e = not(alloc, e)?;
    }
    Ok(e)
}

#[test]
fn depth_needs_no_stack(rt: HostRuntime) -> Result<(), Fail> {
    let alloc = rt.alloc();
    let e = nots(alloc, 100_000)?;
    let copy = e.copy(alloc)?;
    assert!(rt; e.same(&copy));
    let t = constant(alloc, 3)?;
    let Some(got) = put(alloc, &e, &t)? else {
        return Ok(());
    };
    assert_eq!(rt; got.length(), 100_001);
    assert!(rt; got.is_closed());
    assert!(rt; !got.same(&e));
    Ok(())
}

/// `c |- ~c`, where c is the constant with this number.
fn sequent(alloc: Global, number: u64) -> Result<Canon, Memory> {
    let mut facts = Items::new(alloc);
    facts.push(constant(alloc, number)?)?;
    let goal = not(alloc, constant(alloc, number)?)?;
    Ok(Canon { facts, goal })
}

/// What the value feeds a hasher, mixed.
fn hash<T: Hash>(value: &T) -> u64 {
    let mut hasher = DefaultHasher::new();
    value.hash(&mut hasher);
    hasher.finish()
}

#[test]
fn canonical_forms_are_keys(rt: HostRuntime) -> Result<(), Fail> {
    let alloc = rt.alloc();
    let first = sequent(alloc, 1)?;
    let again = sequent(alloc, 1)?;
    let other = sequent(alloc, 2)?;
    assert!(rt; first == again);
    assert!(rt; first != other);
    assert_eq!(rt; hash(&first), hash(&again));
    assert!(rt; hash(&first) != hash(&other));
    Ok(())
}

#[test]
fn texts_are_keys(rt: HostRuntime) -> Result<(), Fail> {
    let alloc = rt.alloc();
    let short = Text::of(alloc, b"Op")?;
    let long = Text::from_vec(Vec::from_slice(alloc, b"Op1")?);
    let again = Text::of(alloc, b"Op1")?;
    assert!(rt; short < long);
    assert!(rt; long == again);
    assert_eq!(rt; hash(&long), hash(&again));
    assert!(rt; hash(&short) != hash(&long));
    assert!(rt; long.into_vec().as_slice() == b"Op1".as_slice());
    Ok(())
}
