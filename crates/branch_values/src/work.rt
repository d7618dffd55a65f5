//! What is to be done for the value of a formula.
ghost use Rattle.std.specs.Prelude.{◌<◌, length, IfOk};
ghost use Rattle.term_bank.specs.Banks.{IsDistinct, Extends};
ghost use Rattle.branch_state.specs.Parts.{Holds, shown};
ghost use Rattle.tableau_search.specs.Entries.{AreKnown, branch_of};
ghost use Rattle.branch_values.specs.Plans.{IsWork};

use crate::link::{Link, link_at};
use crate::reason::{Reason, reason_at};
use branch_state::Parts;
use core_expr::Memory;
use std::alloc::Global;
use term_bank::Bank;

/// The value is known as a whole, or comes by the connective.
#[derive(Clone, Copy, Debug)]
pub enum Work {
    Known(Reason),
    Linked(Link),
}

/// A formula with what is to be done for its value.
#[derive(Clone, Copy, Debug)]
pub struct Task {
    pub index: u64,
    pub work: Work,
}

/// What is to be done for the value of the formula at an index.
pub fn work_at(bank: &mut Bank, alloc: Global, parts: &Parts, i: u64) -> Result<Work, Memory>
    requires within { i < length bank.old }
    requires held { Holds parts.now }
    requires known { AreKnown (length bank.old) (shown parts.now).now }
    ensures extends { Extends bank.old bank.new }
    ensures distinct { IsDistinct bank.new }
    ensures ok { IfOk result (λ w. IsWork bank.new (branch_of bank.old (shown parts.now).now) i w) }
{
    match reason_at(bank, alloc, parts, i)? {
        Some(reason) => Ok(Work::Known(reason)),
        None => Ok(Work::Linked(link_at(bank, i))),
    }
}
