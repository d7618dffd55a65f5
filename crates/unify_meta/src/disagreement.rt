//! Where two terms first differ.
ghost use Rattle.std.specs.Prelude.{◌<◌, length};
ghost use Rattle.term_bank.specs.Banks.{tree_at};
ghost use Rattle.unifier_definition.specs.Unify.{difference};
ghost use Rattle.unify_meta.specs.Metas.{symbols};
ghost use Rattle.unify_meta.specs.Disagreements.{IsDisagreement};

use crate::step::{Step, next_step};
use term_bank::Bank;

/// A metavariable with the term that it is to be bound to: its number, and the indices of both.
#[derive(Clone, Copy, Debug)]
pub struct Assignment {
    pub name: u64,
    pub meta: u64,
    pub term: u64,
}

/// Where two terms first differ: nowhere, at parts that nothing makes equal by themselves, or at a metavariable.
#[derive(Clone, Copy, Debug)]
pub enum Disagreement {
    Nowhere,
    Apart,
    Meta(Assignment),
}

/// The first difference of the terms at `s` and `t`.
pub fn first_disagreement(bank: &Bank, metas: &[u64], s: u64, t: u64) -> Disagreement
    requires left { s < length bank.now }
    requires right { t < length bank.now }
    ensures { IsDisagreement bank.now
        (difference (symbols metas.now) (tree_at bank.now s) (tree_at bank.now t)) result }
{
    let mut left = s;
    let mut right = t;
    while left != right {
        match next_step(bank, metas, left, right) {
            Step::Here(found) => return found,
            Step::Below(i, j) => {
                left = i;
                right = j;
            }
        }
    }
    Disagreement::Nowhere
}
