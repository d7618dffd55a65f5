//! Truth values of canonical forms.

use core_expr::{Canon, Expr, Head, Memory, Sym, SymKind};
use sqlite_items::Items;
use std::alloc::Global;
use std::test::Fail;
use valuation::{falsifies, is_propositional};

/// The formula of signs in postfix order: `t` and `f` for TRUE and FALSE, digits for symbols, `~`, `&`, `|`, `>`, `=` for the
/// connectives, and `c` for the tuple of what stands before it, which is no formula.
fn formula(alloc: Global, signs: &[u8]) -> Result<Expr, Memory> {
    let mut stack: Vec<Expr> = Vec::new(alloc);
    for sign in signs {
        let e = match sign {
            b't' => Expr::leaf(alloc, Head::True)?,
            b'f' => Expr::leaf(alloc, Head::False)?,
            b'~' => Expr::unary(alloc, Head::Not, last(alloc, &mut stack)?)?,
            b'&' => {
                let (a, b) = upper(alloc, &mut stack)?;
                Expr::binary(alloc, Head::And, a, b)?
            }
            b'|' => {
                let (a, b) = upper(alloc, &mut stack)?;
                Expr::binary(alloc, Head::Or, a, b)?
            }
            b'>' => {
                let (a, b) = upper(alloc, &mut stack)?;
                Expr::binary(alloc, Head::Imp, a, b)?
            }
            b'=' => {
                let (a, b) = upper(alloc, &mut stack)?;
                Expr::binary(alloc, Head::Iff, a, b)?
            }
            b'c' => Expr::unary(alloc, Head::Tuple, last(alloc, &mut stack)?)?,
            _ => symbol(alloc, u64::from(sign.saturating_sub(b'0')))?,
        };
        stack.push(e)?;
    }
    last(alloc, &mut stack)
}

/// The symbol with this number.
fn symbol(alloc: Global, number: u64) -> Result<Expr, Memory> {
    let sym = Sym {
        kind: SymKind::Canon,
        number,
        arity: 0,
    };
    Expr::symbol(alloc, sym, Vec::new(alloc))
}

/// What stands uppermost, or TRUE.
fn last(alloc: Global, stack: &mut Vec<Expr>) -> Result<Expr, Memory> {
    match stack.pop() {
        Some(e) => Ok(e),
        None => Expr::leaf(alloc, Head::True),
    }
}

/// The two upper expressions, the lower first.
fn upper(alloc: Global, stack: &mut Vec<Expr>) -> Result<(Expr, Expr), Memory> {
    let second = last(alloc, stack)?;
    let first = last(alloc, stack)?;
    Ok((first, second))
}

/// A sequent, its values, and what is asked of them: whether it is propositional, and whether the values falsify it.
struct Case(
    &'static [&'static [u8]],
    &'static [u8],
    &'static [bool],
    bool,
    bool,
);

const CASES: [Case; 12] = [
    Case(&[], b"t", &[], true, false),
    Case(&[], b"f", &[], true, true),
    Case(&[], b"0", &[true], true, false),
    Case(&[], b"0", &[false], true, true),
    Case(&[], b"1", &[true], true, true),
    Case(&[b"0"], b"1", &[true, false], true, true),
    Case(&[b"0"], b"1", &[false, false], true, false),
    Case(&[b"0", b"01>"], b"1", &[true, false], true, false),
    Case(&[b"01|"], b"01&", &[true, false], true, true),
    Case(&[b"0~"], b"01=", &[false, true], true, true),
    Case(&[], b"0c", &[true], false, true),
    Case(&[b"0c"], b"0", &[false], false, false),
];

/// The sequent of a case.
fn sequent(alloc: Global, facts: &[&[u8]], goal: &[u8]) -> Result<Canon, Memory> {
    let mut all = Items::new(alloc);
    for fact in facts {
        all.push(formula(alloc, fact)?)?;
    }
    Ok(Canon {
        facts: all,
        goal: formula(alloc, goal)?,
    })
}

/// The number of the first case, from 1, that is answered otherwise.
fn wrong(alloc: Global, cases: &[Case]) -> Result<Option<usize>, Memory> {
    for number in 0..cases.len() {
        let case = &cases[number];
        let canon = sequent(alloc, case.0, case.1)?;
        if is_propositional(&canon) != case.3 || falsifies(&canon, case.2) != case.4 {
            return Ok(Some(number + 1));
        }
    }
    Ok(None)
}

#[test]
fn truth_values(rt: HostRuntime) -> Result<(), Fail> {
    let found = wrong(rt.alloc(), &CASES)?;
    assert_eq!(rt; found, None);
    Ok(())
}
