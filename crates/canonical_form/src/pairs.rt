//! The renaming that numbers symbols.

ghost use Rattle.std.specs.Prelude.{◌≡◌, IfOk};
ghost use Rattle.core_expr.specs.Nodes.{canon_sym};
ghost use Rattle.core_expr.specs.Tree.Tree.{app};
ghost use Rattle.canonical_form.specs.Named.{variables, own, pairs_from};

use core_expr::{Expr, Memory, Sym, SymKind};
use std::alloc::Global;

/// The variables that stand for so many arguments.
fn variables(alloc: Global, arity: u64) -> Result<Vec<Expr>, Memory>
    ensures { IfOk result (λ v. v.items ≡ variables arity) }
{
    let mut found = Vec::new(alloc);
    for i in (0..arity).rev() {
        found.push(Expr::bound(alloc, i)?)?;
    }
    Ok(found)
}

/// The canonical symbol with a number over the arguments of a symbol.
#[tactic(auto, using(crate::proofs::Variables::count, crate::proofs::Variables::as_parts))]
fn over_own(alloc: Global, number: u64, arity: u64) -> Result<Expr, Memory>
    ensures { IfOk result (λ e. e ≡ app (canon_sym number arity) (own arity)) }
{
    let arguments = variables(alloc, arity)?;
    let symbol = Sym {
        kind: SymKind::Canon,
        number,
        arity,
    };
    Expr::symbol(alloc, symbol, arguments)
}

/// Each symbol with the canonical symbol of its place over its arguments.
pub fn pairs_of(alloc: Global, symbols: &[Sym]) -> Result<Vec<(Sym, Expr)>, Memory>
    ensures { IfOk result (λ v. v.items ≡ pairs_from 0 symbols.now) }
{
    let mut pairs = Vec::new(alloc);
    for i in 0..symbols.len() {
        let symbol = symbols[i];
        pairs.push((symbol, over_own(alloc, i as u64, symbol.arity)?))?;
    }
    Ok(pairs)
}
