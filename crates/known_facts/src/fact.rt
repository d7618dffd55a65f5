//! Facts of BY and USE.

use core_expr::Expr;
use tla_ast::Place;

/// A fact of BY or USE, over cores.
#[derive(Debug, Drop)]
pub enum Fact {
    /// What the name with this number gives.
    Cited(u64),
    /// An expression, with the place of its first token.
    Plain(Place, Expr),
}
