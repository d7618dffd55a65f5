//! Definitions unfolded.

use core_expr::{Expr, Head, Memory, Sym, SymKind};
use obligation::{Definition, Obligation, unfold};
use sqlite_items::Items;
use std::alloc::Global;
use std::test::Fail;

/// A symbol without arguments.
fn constant(alloc: Global, number: u64) -> Result<Expr, Memory> {
    let sym = Sym {
        kind: SymKind::Constant,
        number,
        arity: 0,
    };
    Expr::symbol(alloc, sym, Vec::new(alloc))
}

/// The symbol of a definition of one argument.
fn defined(number: u64) -> Sym {
    Sym {
        kind: SymKind::Defined,
        number,
        arity: 1,
    }
}

/// A definition of one argument, over an expression.
fn applied(alloc: Global, number: u64, e: Expr) -> Result<Expr, Memory> {
    let sym = Sym {
        kind: SymKind::Defined,
        number,
        arity: 1,
    };
    let parts = vec![in alloc; e]?;
    Expr::symbol(alloc, sym, parts)
}

/// D(x) == x /\ ~x, and E(x) == D(x) => x.
fn definitions(alloc: Global) -> Result<Items<Definition>, Memory> {
    let no = Expr::unary(alloc, Head::Not, Expr::bound(alloc, 0)?)?;
    let first = Expr::binary(alloc, Head::And, Expr::bound(alloc, 0)?, no)?;
    let head = applied(alloc, 7, Expr::bound(alloc, 0)?)?;
    let second = Expr::binary(alloc, Head::Imp, head, Expr::bound(alloc, 0)?)?;
    let mut defs = Items::new(alloc);
    defs.push(Definition {
        symbol: defined(7),
        body: first,
    })?;
    defs.push(Definition {
        symbol: defined(8),
        body: second,
    })?;
    Ok(defs)
}

/// (a /\ ~a) => a, which E(a) is.
fn expansion(alloc: Global) -> Result<Expr, Memory> {
    let no = Expr::unary(alloc, Head::Not, constant(alloc, 1)?)?;
    let both = Expr::binary(alloc, Head::And, constant(alloc, 1)?, no)?;
    Expr::binary(alloc, Head::Imp, both, constant(alloc, 1)?)
}

#[test]
fn the_last_definition_is_unfolded_first(rt: HostRuntime) -> Result<(), Fail> {
    let alloc = rt.alloc();
    let mut facts = Items::new(alloc);
    facts.push(constant(alloc, 1)?)?;
    let goal = applied(alloc, 8, constant(alloc, 1)?)?;
    let whole = Obligation {
        facts,
        goal,
        defs: definitions(alloc)?,
    };
    let copy = whole.copy(alloc)?;
    let goal = unfold(alloc, &copy.goal, copy.defs.as_slice())?;
    assert!(rt; goal.same(&expansion(alloc)?));
    for fact in copy.facts.as_slice() {
        let fact = unfold(alloc, fact, copy.defs.as_slice())?;
        assert!(rt; fact.same(&constant(alloc, 1)?));
    }
    assert_eq!(rt; copy.facts.len(), 1);
    Ok(())
}
