//! The values of a side of a splitting.
ghost use Rattle.std.specs.Prelude.{◌≡◌, length, IfOk};
ghost use Rattle.core_expr.specs.Nodes.{AreBelow};
ghost use Rattle.term_bank.specs.Banks.{IsDistinct, Extends};
ghost use Rattle.branch_state.specs.Parts.{Holds, shown};
ghost use Rattle.tableau_search.specs.Entries.{AreKnown, branch_of};
ghost use Rattle.formula_rules.specs.Answers.{trees_at};
ghost use Rattle.value_ranks.specs.Sides.{IsSide, side_with};

use branch_state::Parts;
use branch_values::{Value, value_on};
use core_expr::Memory;
use std::alloc::Global;
use term_bank::Bank;

/// Whether all formulas of a side are true on the branch, and the first that is false.
#[derive(Clone, Copy, Debug)]
pub struct Side {
    pub all_true: bool,
    pub first_false: Option<u64>,
}

/// The side with one formula more before the others.
fn side_with(side: Side, f: u64, value: Value) -> Side
    ensures { result ≡ side_with side f value }
{
    match value {
        Value::Yes => side,
        Value::No => Side {
            all_true: false,
            first_false: Some(f),
        },
        Value::Unknown => Side {
            all_true: false,
            first_false: side.first_false,
        },
    }
}

/// The values of the formulas of a side.
pub fn side_on(bank: &mut Bank, alloc: Global, parts: &Parts, list: &[u64]) -> Result<Side, Memory>
    requires below { AreBelow (length bank.old) list.now }
    requires held { Holds parts.now }
    requires known { AreKnown (length bank.old) (shown parts.now).now }
    ensures extends { Extends bank.old bank.new }
    ensures distinct { IsDistinct bank.new }
    ensures ok { IfOk result (λ s. IsSide bank.new (branch_of bank.old (shown parts.now).now)
        (trees_at bank.old list.now) s) }
{
    let _count = bank.count();
    let mut side = Side {
        all_true: true,
        first_false: None,
    };
    for k in 0..list.len() {
        let f = list[list.len() - 1 - k];
        let value = value_on(bank, alloc, parts, f)?;
        side = side_with(side, f, value);
    }
    Ok(side)
}
