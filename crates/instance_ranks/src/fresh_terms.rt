//! Terms by which a universal has a new instance.
ghost use Rattle.std.specs.Prelude.{◌≡◌, ◌<◌, length, IfOk};
ghost use Rattle.core_expr.specs.Put.{IsScoped};
ghost use Rattle.term_bank.specs.Banks.{IsDistinct, Extends, tree_at};
ghost use Rattle.search_definition.specs.Terms.{after};
ghost use Rattle.search_definition.specs.Instances.{is_new, new_term};
ghost use Rattle.branch_state.specs.Parts.{Holds, shown};
ghost use Rattle.tableau_search.specs.Entries.{AreKnown, branch_of};
ghost use Rattle.formula_rules.specs.Answers.{HasTerm, universal_of};
ghost use Rattle.instance_ranks.specs.Seeking.{IsBody, IsClosedTerm, term_of};

use branch_state::{Parts, has};
use branch_values::{Value, value_on};
use core_expr::Memory;
use formula_rules::{Quantified, instance};
use std::alloc::Global;
use term_bank::Bank;

/// Whether the formula does not stand on the branch, and its value is not true.
fn is_new(bank: &mut Bank, alloc: Global, parts: &Parts, f: u64) -> Result<bool, Memory>
    requires held { Holds parts.now }
    requires known { AreKnown (length bank.old) (shown parts.now).now }
    requires within { f < length bank.old }
    ensures extends { Extends bank.old bank.new }
    ensures distinct { IsDistinct bank.new }
    ensures ok { IfOk result (λ b. b
        ≡ is_new (branch_of bank.old (shown parts.now).now) (tree_at bank.old f)) }
{
    let _count = bank.count();
    if has(parts, f) {
        return Ok(false);
    }
    match value_on(bank, alloc, parts, f)? {
        Value::Yes => Ok(false),
        Value::No => Ok(true),
        Value::Unknown => Ok(true),
    }
}

/// The term, where the universal's instance by it is new.
pub fn new_term(
    bank: &mut Bank,
    alloc: Global,
    parts: &Parts,
    u: Quantified,
    t: u64,
) -> Result<Option<u64>, Memory>
    requires held { Holds parts.now }
    requires known { AreKnown (length bank.old) (shown parts.now).now }
    requires body { IsBody bank.old u }
    requires within { t < length bank.old }
    requires closed { IsScoped 0 (tree_at bank.old t) }
    ensures extends { Extends bank.old bank.new }
    ensures distinct { IsDistinct bank.new }
    ensures ok { IfOk result (λ o. HasTerm bank.new o
        (new_term (branch_of bank.old (shown parts.now).now)
        (universal_of bank.old u) (tree_at bank.old t))) }
{
    let f = instance(bank, alloc, u, t)?;
    if is_new(bank, alloc, parts, f)? {
        return Ok(Some(t));
    }
    Ok(None)
}

/// The term that there may be, where the universal's instance by it is new.
pub fn if_new(
    bank: &mut Bank,
    alloc: Global,
    parts: &Parts,
    u: Quantified,
    term: Option<u64>,
) -> Result<Option<u64>, Memory>
    requires held { Holds parts.now }
    requires known { AreKnown (length bank.old) (shown parts.now).now }
    requires body { IsBody bank.old u }
    requires term { IsClosedTerm bank.old term }
    ensures extends { Extends bank.old bank.new }
    ensures distinct { IsDistinct bank.new }
    ensures ok { IfOk result (λ o. HasTerm bank.new o
        (after (new_term (branch_of bank.old (shown parts.now).now)
        (universal_of bank.old u)) (term_of bank.old term))) }
{
    let _count = bank.count();
    match term {
        Some(t) => new_term(bank, alloc, parts, u, t),
        None => Ok(None),
    }
}
