//! What stands for leaves.

ghost use Rattle.std.specs.Prelude.{◌≡◌, ◌<◌, length, IfOk};
ghost use Rattle.core_expr.specs.Heads.{parts_of, first};
ghost use Rattle.core_expr.specs.Flat.{rows_of};
ghost use Rattle.core_expr.specs.Places.{subtree, root_numbers};
ghost use Rattle.core_expr.specs.Put.{shift, argument};
ghost use Rattle.expr_parts.specs.Rebuilt.{changed, bound_for, filled_for};

use core_expr::{Expr, Head, Memory, RowKind, Sym};
use std::alloc::Global;

/// What stands for the leaves of an expression.
#[derive(Clone, Copy, Debug)]
pub enum Change<'a> {
    /// Nothing else.
    Keep,
    /// For a symbol without arguments, the variable of a binder that is put round the expression.
    Bind(Sym),
    /// For the loose variables these arguments, the last for 0; past the first, TRUE.
    Fill(&'a [Expr]),
}

/// The argument for a variable, under so many binders.
#[tactic(auto, using(crate::proofs::Arguments::argument_at, crate::proofs::Arguments::argument_past))]
fn argument(alloc: Global, args: &[Expr], index: u64, depth: u64) -> Result<Expr, Memory>
    ensures { IfOk result (λ e. e ≡ shift 0 depth (argument (parts_of args.now) index)) }
{
    let count = args.len() as u64;
    if index < count {
        return args[(count - 1 - index) as usize].lift(alloc, depth);
    }
    Expr::leaf(alloc, Head::True)
}

/// What stands for a symbol under so many binders, if it is the one that is bound.
fn bind(
    alloc: Global,
    symbol: Sym,
    other: Sym,
    parts: u64,
    depth: u64,
) -> Result<Option<Expr>, Memory>
    ensures { IfOk result (λ r. r ≡ bound_for symbol other parts depth) }
{
    if parts == 0 && symbol == other {
        return Ok(Some(Expr::bound(alloc, depth)?));
    }
    Ok(None)
}

/// What stands for a variable under so many binders, if none of them binds it.
fn fill(alloc: Global, args: &[Expr], index: u64, depth: u64) -> Result<Option<Expr>, Memory>
    ensures { IfOk result (λ r. r ≡ filled_for (parts_of args.now) index depth) }
{
    if index < depth {
        return Ok(None);
    }
    Ok(Some(argument(alloc, args, index - depth, depth)?))
}

/// The index of a variable.
fn index_at(e: &Expr, node: u64) -> u64
    requires { node < length (rows_of e.now) }
    ensures { result ≡ first (root_numbers (subtree e.now node)) }
{
    match e.numbers(node).first() {
        Some(index) => *index,
        None => 0,
    }
}

impl Change<'_> {
    /// What stands for a node under so many binders, if it is such a leaf.
    #[tactic(auto, using(crate::proofs::Leaves::bind_is, crate::proofs::Leaves::fill_is, crate::proofs::Leaves::not_bound, crate::proofs::Leaves::not_filled))]
    pub(crate) fn at(
        &self,
        alloc: Global,
        e: &Expr,
        node: u64,
        depth: u64,
    ) -> Result<Option<Expr>, Memory>
        requires { node < length (rows_of e.now) }
        ensures { IfOk result (λ r. r ≡ changed self.now depth (subtree e.now node)) }
    {
        match self {
            Change::Keep => Ok(None),
            Change::Bind(symbol) => match e.kind(node) {
                RowKind::Symbol(other) => bind(alloc, *symbol, other, e.parts(node), depth),
                _ => Ok(None),
            },
            Change::Fill(args) => match e.kind(node) {
                RowKind::Bound => fill(alloc, args, index_at(e, node), depth),
                _ => Ok(None),
            },
        }
    }
}
