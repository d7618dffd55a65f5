//! How a branch closes.
ghost use Rattle.std.specs.Prelude.{◌≡◌, ◌<◌, ◌≤◌, ℕ, None, List, length, take, IfOk, IfSome};
ghost use Rattle.core_expr.specs.Tree.{Tree};
ghost use Rattle.term_bank.specs.Banks.{IsDistinct, Extends, tree_at};
ghost use Rattle.search_definition.specs.declared.rule.Clash.TheVariants.{Denied, DeniedMirror};
ghost use Rattle.search_definition.specs.Terms.{first_some};
ghost use Rattle.search_definition.specs.Branches.{closing, closes_with, alone, partner, is_not_of, is_mirror_not};
ghost use Rattle.formula_rules.specs.Answers.{names};
ghost use Rattle.branch_state.specs.Parts.{Holds, shown};
ghost use Rattle.tableau_search.specs.Entries.{AreKnown, branch_of};
ghost use Rattle.tableau_search.specs.Found.{IsClosing};
ghost use Rattle.equation_ranks.specs.Partners.{HasClosing, formula_at, older, paired};

use crate::partners::oldest_of;
use branch_state::{Parts, entry, length};
use core_expr::Memory;
use formula_rules::{
    denial, denied, mirror_denial, mirror_denied, shuts_first, shuts_last, shuts_third,
};
use search_definition::Clash;
use std::alloc::Global;
use tableau_search::Closing;
use term_bank::Bank;

/// The closing by the formula f alone, where there is a case.
fn alone(alloc: Global, f: u64, clash: Option<Clash>) -> Result<Option<Closing>, Memory>
    ensures { (ts : List Tree) → f < length ts
        → IfOk result (HasClosing ts (alone (tree_at ts f) clash)) }
{
    match clash {
        Some(clash) => {
            let entries = Vec::from_slice(alloc, &[f])?;
            Ok(Some(Closing { clash, entries }))
        }
        None => Ok(None),
    }
}

/// The closing by the formula f and that of the entry at a place, where there is a place.
fn pair(
    alloc: Global,
    parts: &Parts,
    clash: Clash,
    f: u64,
    place: Option<u64>,
) -> Result<Option<Closing>, Memory>
    requires held { Holds parts.now }
    requires within { IfSome place (λ j. j < length (shown parts.now).now) }
    ensures { (ts : List Tree) → f < length ts → AreKnown (length ts) (shown parts.now).now
        → IfOk result (HasClosing ts (paired clash ts (shown parts.now).now f place)) }
{
    match place {
        Some(place) => {
            let entries = Vec::from_slice(alloc, &[f, entry(parts, place).formula])?;
            Ok(Some(Closing { clash, entries }))
        }
        None => Ok(None),
    }
}

/// The closing of f with one of the oldest `i` entries, where the one is the Not of the other.
fn by_denial(
    bank: &Bank,
    alloc: Global,
    parts: &Parts,
    i: u64,
    f: u64,
) -> Result<Option<Closing>, Memory>
    requires held { Holds parts.now }
    requires known { AreKnown (length bank.now) (shown parts.now).now }
    requires within { i ≤ length (shown parts.now).now }
    requires formula { f < length bank.now }
    ensures { IfOk result (HasClosing bank.now (first_some
        (partner Denied is_not_of (tree_at bank.now f)) (older bank.now (shown parts.now).now i))) }
{
    let place = oldest_of(parts, i, denied(bank, f), denial(bank, f));
    pair(alloc, parts, Clash::Denied, f, place)
}

/// The closing of f with one of the oldest `i` entries, where the one is the Not of the other's mirror; `mirror` is the Not of
/// f's mirror.
fn by_mirror(
    bank: &Bank,
    alloc: Global,
    parts: &Parts,
    i: u64,
    f: u64,
    mirror: Option<u64>,
) -> Result<Option<Closing>, Memory>
    requires held { Holds parts.now }
    requires known { AreKnown (length bank.now) (shown parts.now).now }
    requires within { i ≤ length (shown parts.now).now }
    requires formula { f < length bank.now }
    requires mirror { (g : ℕ) → g < length bank.now
        → is_mirror_not (tree_at bank.now f) (tree_at bank.now g) ≡ names mirror g }
    ensures { IfOk result (HasClosing bank.now (first_some
        (partner DeniedMirror is_mirror_not (tree_at bank.now f))
        (older bank.now (shown parts.now).now i))) }
{
    let place = oldest_of(parts, i, mirror, mirror_denied(bank, f));
    pair(alloc, parts, Clash::DeniedMirror, f, place)
}

/// How f closes by itself or with one of the oldest `i` entries; `mirror` is the Not of f's mirror.
fn closes_by(
    bank: &Bank,
    alloc: Global,
    parts: &Parts,
    i: u64,
    f: u64,
    mirror: Option<u64>,
) -> Result<Option<Closing>, Memory>
    requires held { Holds parts.now }
    requires known { AreKnown (length bank.now) (shown parts.now).now }
    requires within { i ≤ length (shown parts.now).now }
    requires formula { f < length bank.now }
    requires mirror { (g : ℕ) → g < length bank.now
        → is_mirror_not (tree_at bank.now f) (tree_at bank.now g) ≡ names mirror g }
    ensures { IfOk result (HasClosing bank.now
        (closes_with (older bank.now (shown parts.now).now i) (tree_at bank.now f))) }
{
    if let Some(closing) = alone(alloc, f, shuts_first(bank, f))? {
        return Ok(Some(closing));
    }
    if let Some(closing) = by_denial(bank, alloc, parts, i, f)? {
        return Ok(Some(closing));
    }
    if let Some(closing) = alone(alloc, f, shuts_third(bank, f))? {
        return Ok(Some(closing));
    }
    if let Some(closing) = by_mirror(bank, alloc, parts, i, f, mirror)? {
        return Ok(Some(closing));
    }
    alone(alloc, f, shuts_last(bank, f))
}

/// How the entry `i` closes by itself or with an older one: the first case that fits, with the oldest partner.
pub fn closes_at(
    bank: &mut Bank,
    alloc: Global,
    parts: &Parts,
    i: u64,
) -> Result<Option<Closing>, Memory>
    requires held { Holds parts.now }
    requires known { AreKnown (length bank.old) (shown parts.now).now }
    requires within { i < length (shown parts.now).now }
    ensures extends { Extends bank.old bank.new }
    ensures distinct { IsDistinct bank.new }
    ensures ok { IfOk result (HasClosing bank.new (closes_with
        (older bank.new (shown parts.now).now i) (formula_at bank.new (shown parts.now).now i))) }
{
    let f = entry(parts, i).formula;
    let mirror = mirror_denial(bank, alloc, f)?;
    closes_by(bank, alloc, parts, i, f, mirror)
}

/// How the branch closes, where the branch of its oldest `start` entries does not.
pub fn close_from(
    bank: &mut Bank,
    alloc: Global,
    parts: &Parts,
    start: u64,
) -> Result<Option<Closing>, Memory>
    requires held { Holds parts.now }
    requires known { AreKnown (length bank.old) (shown parts.now).now }
    requires before { closing (branch_of bank.old (take start (shown parts.now).now)) ≡ None }
    ensures extends { Extends bank.old bank.new }
    ensures distinct { IsDistinct bank.new }
    ensures closing { IfOk result (λ o. IsClosing bank.new (shown parts.now).now o) }
{
    let _count = bank.count();
    for i in start..length(parts) {
        match closes_at(bank, alloc, parts, i)? {
            Some(closing) => return Ok(Some(closing)),
            None => {}
        }
    }
    Ok(None)
}

/// How the branch closes.
pub fn close(bank: &mut Bank, alloc: Global, parts: &Parts) -> Result<Option<Closing>, Memory>
    requires held { Holds parts.now }
    requires known { AreKnown (length bank.old) (shown parts.now).now }
    ensures extends { Extends bank.old bank.new }
    ensures distinct { IsDistinct bank.new }
    ensures closing { IfOk result (λ o. IsClosing bank.new (shown parts.now).now o) }
{
    close_from(bank, alloc, parts, 0)
}
