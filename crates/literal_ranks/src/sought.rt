//! The first closed subterm that a rank fits.
ghost use Rattle.std.specs.Prelude.{◌<◌, length, IfOk};
ghost use Rattle.core_expr.specs.Nodes.{AreBelow, picked};
ghost use Rattle.term_bank.specs.Banks.{IsDistinct, Extends, tree_at};
ghost use Rattle.search_definition.specs.Terms.{first_some, first_at};
ghost use Rattle.branch_state.specs.Parts.{Holds, shown};
ghost use Rattle.tableau_search.specs.Entries.{AreKnown, branch_of};
ghost use Rattle.formula_rules.specs.Answers.{HasTerm};
ghost use Rattle.literal_ranks.specs.Seeking.{sought_at};

use crate::untaken::{divided_at, untaken_at};
use branch_state::Parts;
use core_expr::Memory;
use std::alloc::Global;
use term_bank::Bank;
use term_order::closed_subterms;

/// What is sought among the closed subterms of a literal: P of a `CHOOSE x : P` of which the branch does not say yet whether
/// it has a witness; or a term that the literal is split at.
#[derive(Clone, Copy, Debug)]
pub enum Sought {
    Choice,
    Division,
}

/// What is sought, at the term at an index.
fn sought_at(
    bank: &mut Bank,
    alloc: Global,
    parts: &Parts,
    sought: Sought,
    t: u64,
) -> Result<Option<u64>, Memory>
    requires within { t < length bank.old }
    requires held { Holds parts.now }
    requires known { AreKnown (length bank.old) (shown parts.now).now }
    ensures extends { Extends bank.old bank.new }
    ensures distinct { IsDistinct bank.new }
    ensures ok { IfOk result (λ o. HasTerm bank.new o
        (sought_at sought (branch_of bank.old (shown parts.now).now) (tree_at bank.old t))) }
{
    match sought {
        Sought::Choice => untaken_at(bank, alloc, parts, t),
        Sought::Division => divided_at(bank, alloc, parts, t),
    }
}

/// What is sought, at the first of these terms that has it.
fn first_of(
    bank: &mut Bank,
    alloc: Global,
    parts: &Parts,
    sought: Sought,
    terms: &[u64],
) -> Result<Option<u64>, Memory>
    requires below { AreBelow (length bank.old) terms.now }
    requires held { Holds parts.now }
    requires known { AreKnown (length bank.old) (shown parts.now).now }
    ensures extends { Extends bank.old bank.new }
    ensures distinct { IsDistinct bank.new }
    ensures ok { IfOk result (λ o. HasTerm bank.new o (first_some
        (sought_at sought (branch_of bank.old (shown parts.now).now))
        (picked bank.old terms.now))) }
{
    let _count = bank.count();
    for k in 0..terms.len() {
        match sought_at(bank, alloc, parts, sought, terms[k])? {
            Some(t) => return Ok(Some(t)),
            None => {}
        }
    }
    Ok(None)
}

/// What is sought, at the first closed subterm of a formula, in prefix order, that has it.
pub fn first_sought(
    bank: &mut Bank,
    alloc: Global,
    parts: &Parts,
    sought: Sought,
    f: u64,
) -> Result<Option<u64>, Memory>
    requires within { f < length bank.old }
    requires held { Holds parts.now }
    requires known { AreKnown (length bank.old) (shown parts.now).now }
    ensures extends { Extends bank.old bank.new }
    ensures distinct { IsDistinct bank.new }
    ensures ok { IfOk result (λ o. HasTerm bank.new o (first_at
        (sought_at sought (branch_of bank.old (shown parts.now).now)) (tree_at bank.old f))) }
{
    let _count = bank.count();
    let terms = closed_subterms(bank, alloc, f)?;
    let term = first_of(bank, alloc, parts, sought, terms.as_slice())?;
    Ok(term)
}
