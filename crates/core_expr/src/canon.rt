//! Canonical forms, as keys of maps.
ghost use Rattle.core_expr.specs.Equality.{same_canon, canon_fed};
ghost use Rattle.core_expr.specs.Keys.{canon_laws, canon_equal, canon_alike};

use crate::expr::Expr;
use sqlite_items::Items;
use std::hash::{Hash, Hasher};

/// A sequent in canonical form: its facts, of which each may be used, and its goal.
#[derive(Debug, Drop)]
pub struct Canon {
    /// The facts, in order.
    pub facts: Items<Expr>,
    /// The goal.
    pub goal: Expr,
}

/// Two canonical forms are equal where their facts, in order, and their goals are equal trees.
impl PartialEq for Canon {
    ghost eq = { same_canon };

    ghost laws = { canon_laws };

    fn eq(&self, other: &Canon) -> bool {
        self.facts.as_slice() == other.facts.as_slice() && self.goal == other.goal
    }
}

impl Eq for Canon {
    ghost laws = { canon_equal };
}

impl Hash for Canon {
    ghost hash_input = { canon_fed };

    ghost respects_eq = { canon_alike };

    fn hash<H: Hasher>(&self, state: &mut H) {
        self.facts.as_slice().hash(state);
        self.goal.hash(state);
    }
}
