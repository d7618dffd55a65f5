//! Rank take up.
ghost use Rattle.std.specs.Prelude.{◌<◌, length, IfOk};
ghost use Rattle.term_bank.specs.Banks.{IsDistinct, Extends, tree_at};
ghost use Rattle.search_definition.specs.Splits.{take_up};
ghost use Rattle.branch_state.specs.Parts.{Holds, shown};
ghost use Rattle.tableau_search.specs.Entries.{AreKnown, branch_of};
ghost use Rattle.formula_rules.specs.Answers.{HasAnswer};

use crate::sought::{Sought, first_sought};
use branch_state::Parts;
use core_expr::Memory;
use formula_rules::{Given, is_literal, taken_up};
use std::alloc::Global;
use term_bank::Bank;

/// Rank take up: a literal with a closed `CHOOSE x : P` that was not taken up gives `\E x : P` with P of the chosen term, or
/// `~\E x : P`. None exactly where it has none.
pub fn take_up(
    bank: &mut Bank,
    alloc: Global,
    parts: &Parts,
    f: u64,
) -> Result<Option<Given>, Memory>
    requires within { f < length bank.old }
    requires held { Holds parts.now }
    requires known { AreKnown (length bank.old) (shown parts.now).now }
    ensures extends { Extends bank.old bank.new }
    ensures distinct { IsDistinct bank.new }
    ensures ok { IfOk result (λ o. HasAnswer bank.new o
        (take_up (branch_of bank.old (shown parts.now).now) (tree_at bank.old f))) }
{
    let _count = bank.count();
    if !is_literal(bank, f) {
        return Ok(None);
    }
    match first_sought(bank, alloc, parts, Sought::Choice, f)? {
        Some(p) => {
            let given = taken_up(bank, alloc, f, p)?;
            Ok(Some(given))
        }
        None => Ok(None),
    }
}
