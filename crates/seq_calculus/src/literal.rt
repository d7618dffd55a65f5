//! The instance about two literals.
ghost use Rattle.std.specs.Prelude.{◌≡◌, ◌↔◌, ◌∷◌, [], true, IsTrue, IfOk};
ghost use Rattle.core_expr.specs.Tree.{not_, eq_};
ghost use Rattle.core_expr.specs.Heads.{IsWellFormed};
ghost use Rattle.core_expr.specs.Places.{kind_of};
ghost use Rattle.seq_calculus.specs.Literals.{is_literal};
ghost use Rattle.seq_calculus.specs.Schemas.{are_apart, if_closed, row22};

use crate::row::{if_closed, pair};
use core_expr::theorems::last_is_root;
use core_expr::{Expr, Head, Memory, RowKind};
use std::alloc::Global;

/// What the root of the expression is.
fn root(e: &Expr) -> RowKind
    ensures kind { result ≡ kind_of e.now }
    ensures formed { IsWellFormed e.now }
{
    last_is_root();
    let nodes = e.length();
    e.kind(nodes - 1)
}

/// Whether such a node is a number or a string.
fn is_literal(kind: RowKind) -> bool
    ensures { result ≡ is_literal kind }
{
    matches!(kind, RowKind::Plain(Head::Num | Head::Str))
}

/// Whether these are two different numbers or two different strings.
fn are_apart(l: &Expr, m: &Expr) -> bool
    ensures { IsTrue result ↔ (are_apart l.now m.now ≡ true) }
{
    let kind = root(l);
    if !is_literal(kind) {
        return false;
    }
    root(m) == kind && !l.same(m)
}

/// `~(l = m)`.
fn build_literals(alloc: Global, l: &Expr, m: &Expr) -> Result<Expr, Memory>
    ensures { IfOk result (λ e. e ≡ not_ (eq_ l.now m.now)) }
{
    Expr::unary(alloc, Head::Not, pair(alloc, Head::Eq, l, m)?)
}

/// The closed instance about two literals.
pub(crate) fn literals(alloc: Global, l: &Expr, m: &Expr) -> Result<Option<Expr>, Memory>
    ensures { IfOk result (λ o. o ≡ if_closed (row22 0 (l.now ∷ m.now ∷ []))) }
{
    if !are_apart(l, m) {
        return Ok(None);
    }
    Ok(if_closed(build_literals(alloc, l, m)?))
}
