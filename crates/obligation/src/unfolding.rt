//! Definitions unfolded.

ghost use Rattle.std.specs.Prelude.{◌≡◌, IfOk};
ghost use Rattle.obligation.specs.Nodes as nodes;
ghost use Rattle.obligation.specs.Unfolding as spec;

use crate::obligation::Definition;
use core_expr::{Expr, Memory, RowKind, Sym};
use std::alloc::Global;

/// Whether a node is that of a symbol.
fn is_symbol(symbol: Sym, kind: RowKind) -> bool
    ensures { result ≡ nodes.is_symbol symbol kind }
{
    match kind {
        RowKind::Symbol(other) => symbol == other,
        _ => false,
    }
}

/// Whether an expression mentions a symbol.
fn mentions(e: &Expr, symbol: Sym) -> bool
    ensures { result ≡ nodes.mentions symbol e.now }
{
    for i in 0..e.length() {
        if is_symbol(symbol, e.kind(i)) {
            return true;
        }
    }
    false
}

/// The expression with the body of a definition for its symbol.
fn put_in(alloc: Global, e: Expr, def: &Definition) -> Result<Expr, Memory>
    ensures { IfOk result (λ r. r ≡ spec.put_in def.now e) }
{
    if !mentions(&e, def.symbol) {
        return Ok(e);
    }
    let pair = (def.symbol, def.body.copy(alloc)?);
    e.rename(alloc, &[pair])
}

/// The expression with the definitions unfolded, the last first, so that a body may mention the definitions before it. Where
/// each does no more than that, none of the symbols is left. A definition that the expression does not mention costs a look at
/// each of its nodes.
pub fn unfold(alloc: Global, e: &Expr, defs: &[Definition]) -> Result<Expr, Memory>
    ensures { IfOk result (λ r. r ≡ spec.unfolded defs.now e.now) }
{
    let mut unfolded = e.copy(alloc)?;
    for k in 0..defs.len() {
        unfolded = put_in(alloc, unfolded, &defs[defs.len() - 1 - k])?;
    }
    Ok(unfolded)
}
