//! The ranks that take the oldest entry that they fit.
ghost use Rattle.std.specs.Prelude.{◌<◌, length, IfOk};
ghost use Rattle.core_expr.specs.Put.{IsScoped};
ghost use Rattle.term_bank.specs.Banks.{IsDistinct, Extends, tree_at};
ghost use Rattle.branch_state.specs.Parts.{Holds, shown};
ghost use Rattle.formula_rules.specs.Answers.{HasAnswer};
ghost use Rattle.rank_rules.specs.Ranked.{rule_of, branch_of, AreKnown};

use crate::derivation::derive;
use branch_state::Parts;
use core_expr::Memory;
use formula_rules::{Given, choice, extension, plain, split};
use std::alloc::Global;
use term_bank::Bank;

/// A rank that takes the oldest entry that it fits.
#[derive(Clone, Copy, Debug)]
pub enum EntryRank {
    Plain,
    Derive,
    Choice,
    Split,
    Extension,
}

/// What the rank gives on the branch at a closed formula.
pub fn answer(
    bank: &mut Bank,
    alloc: Global,
    parts: &Parts,
    rank: EntryRank,
    f: u64,
) -> Result<Option<Given>, Memory>
    requires held { Holds parts.now }
    requires known { AreKnown (length bank.old) (shown parts.now).now }
    requires within { f < length bank.old }
    requires closed { IsScoped 0 (tree_at bank.old f) }
    ensures extends { Extends bank.old bank.new }
    ensures distinct { IsDistinct bank.new }
    ensures ok { IfOk result (λ o. HasAnswer bank.new o
        (rule_of rank (branch_of bank.old (shown parts.now).now) (tree_at bank.old f))) }
{
    match rank {
        EntryRank::Plain => plain(bank, alloc, f),
        EntryRank::Derive => derive(bank, alloc, parts, f),
        EntryRank::Choice => choice(bank, alloc, f),
        EntryRank::Split => split(bank, alloc, f),
        EntryRank::Extension => extension(bank, alloc, f),
    }
}
