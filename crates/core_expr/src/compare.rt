//! Equality and hashes of expressions.
ghost use Rattle.std.specs.Prelude.{◌≡◌};
ghost use Rattle.std.specs.List.{fold, flat_map};
ghost use Rattle.core_expr.specs.Terms.{same};
ghost use Rattle.core_expr.specs.Heads.{kind_number};
ghost use Rattle.core_expr.specs.Equality.{symbol_number, row_fed, tree_fed};
ghost use Rattle.core_expr.specs.Keys.{tree_laws, tree_equal, tree_alike};

use crate::expr::Expr;
use crate::kinds::kind_number;
use crate::row::{Row, RowKind};
use std::hash::{Hash, Hasher};

/// The number of a node's symbol, 0 for the others.
fn symbol_number(kind: RowKind) -> u64
    ensures { result ≡ symbol_number kind }
{
    match kind {
        RowKind::Symbol(sym) => sym.number,
        _ => 0,
    }
}

/// Feeds a node to the hasher.
fn hash_row<H: Hasher>(row: &Row, state: &mut H)
    ensures { state.new ≡ fold H.write state.old (row_fed row.now) }
{
    kind_number(row.kind).hash(state);
    symbol_number(row.kind).hash(state);
    row.numbers.as_slice().hash(state);
}

/// Feeds each node to the hasher.
pub(crate) fn hash_rows<H: Hasher>(rows: &[Row], state: &mut H)
    ensures { state.new ≡ fold H.write state.old (flat_map row_fed rows.now) }
{
    for i in 0..rows.len() {
        hash_row(&rows[i], state);
    }
}

/// Two expressions are equal where their trees are.
impl PartialEq for Expr {
    ghost eq = { same };

    ghost laws = { tree_laws };

    fn eq(&self, other: &Expr) -> bool {
        self.same(other)
    }
}

impl Eq for Expr {
    ghost laws = { tree_equal };
}

impl Hash for Expr {
    ghost hash_input = { tree_fed };

    ghost respects_eq = { tree_alike };

    fn hash<H: Hasher>(&self, state: &mut H) {
        hash_rows(self.rows(), state);
    }
}
