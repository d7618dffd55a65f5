//! Symbols and what they are applied to, for the tests.
ghost use Rattle.std.specs.Prelude.{◌≡◌};

use core_expr::{Binder, Expr, Memory, Sym, SymKind};
use std::alloc::Global;

/// The constant or operator with this number and arity.
pub(crate) fn symbol(number: u64, arity: u64) -> Sym
    ensures { result.arity ≡ arity }
{
    Sym {
        kind: SymKind::Constant,
        number,
        arity,
    }
}

/// A constant.
pub(crate) fn constant(alloc: Global, number: u64) -> Result<Expr, Memory> {
    Expr::symbol(alloc, symbol(number, 0), Vec::new(alloc))
}

/// The symbol of arity 1 with this number, applied to `a`.
pub(crate) fn apply(alloc: Global, number: u64, a: Expr) -> Result<Expr, Memory> {
    let parts = vec![in alloc; a]?;
    Expr::symbol(alloc, symbol(number, 1), parts)
}

/// The symbol of arity 2 with this number, applied to `a` and `b`.
pub(crate) fn apply_two(alloc: Global, number: u64, a: Expr, b: Expr) -> Result<Expr, Memory> {
    let parts = vec![in alloc; a, b]?;
    Expr::symbol(alloc, symbol(number, 2), parts)
}

/// `CHOOSE x : body`
pub(crate) fn choose(alloc: Global, body: Expr) -> Result<Expr, Memory> {
    Expr::quantified(alloc, Binder::Choose, body)
}
