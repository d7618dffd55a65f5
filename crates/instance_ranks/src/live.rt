//! The live universals of the branch.
ghost use Rattle.std.specs.Prelude.{◌≡◌, ◌<◌, ◌≤◌, ℕ, true, false, nat_le, length, IfOk, OnOk, IfSome};
ghost use Rattle.search_definition.specs.Instances.{places, by_count};
ghost use Rattle.branch_state.specs.Parts.{Holds, shown};
ghost use Rattle.tableau_search.specs.Entries.{AreKnown, AreClosed, branch_of};
ghost use Rattle.instance_ranks.specs.Lives.{live_at, put_in, places_of, with_place, IsLive, AreLive, HasPlace, entry_place};

use branch_state::{Parts, entry, length};
use core_expr::Memory;
use formula_rules::{Quantified, universal};
use std::alloc::Global;
use term_bank::Bank;

/// A live universal: its entry's index on the branch and count of instances, its formula, and the universal that this is.
#[derive(Clone, Copy, Debug)]
pub struct LiveUniversal {
    pub entry: u64,
    pub count: u64,
    pub formula: u64,
    pub universal: Quantified,
}

/// The entry as a live universal, where it is one.
pub fn place_at(bank: &Bank, parts: &Parts, i: u64) -> Option<LiveUniversal>
    requires held { Holds parts.now }
    requires known { AreKnown (length bank.now) (shown parts.now).now }
    requires closed { AreClosed bank.now (shown parts.now).now }
    requires within { i < length (shown parts.now).now }
    ensures live { IfSome result (IsLive bank.now (shown parts.now).now) }
    ensures place { HasPlace bank.now result (entry_place bank.now (shown parts.now).now i) }
{
    let item = entry(parts, i);
    if !item.live {
        return None;
    }
    match universal(bank, item.formula) {
        Some(u) => Some(LiveUniversal {
            entry: i,
            count: item.count,
            formula: item.formula,
            universal: u,
        }),
        None => None,
    }
}

/// How many of the universals come before the first with at least this count.
fn position(list: &[LiveUniversal], count: u64) -> usize
    ensures within { result ≤ length list.now }
    ensures before { (k : ℕ) → k < result → nat_le count (live_at list.now k).count ≡ false }
    ensures at { result < length list.now → nat_le count (live_at list.now result).count ≡ true }
{
    for i in 0..list.len() {
        if count <= list[i].count {
            return i;
        }
    }
    list.len()
}

/// Puts a universal in before the first with at least its count.
fn put_in(list: &mut Vec<LiveUniversal>, x: LiveUniversal) -> Result<(), Memory>
    ensures { OnOk result (list.new.items ≡ put_in x list.old.items) }
{
    let at = position(list.as_slice(), x.count);
    list.insert(at, x)?;
    Ok(())
}

/// Puts the entry in, where it is a live universal.
fn put_entry(
    bank: &Bank,
    parts: &Parts,
    i: u64,
    list: &mut Vec<LiveUniversal>,
) -> Result<(), Memory>
    requires held { Holds parts.now }
    requires known { AreKnown (length bank.now) (shown parts.now).now }
    requires closed { AreClosed bank.now (shown parts.now).now }
    requires within { i < length (shown parts.now).now }
    requires live { AreLive bank.now (shown parts.now).now list.old.items }
    ensures live { OnOk result (AreLive bank.now (shown parts.now).now list.new.items) }
    ensures places { OnOk result (places_of bank.now list.new.items
        ≡ with_place (entry_place bank.now (shown parts.now).now i)
        (places_of bank.now list.old.items)) }
{
    match place_at(bank, parts, i) {
        Some(x) => put_in(list, x),
        None => Ok(()),
    }
}

/// The live universals by count, and by age where counts are equal.
pub fn by_count(bank: &Bank, alloc: Global, parts: &Parts) -> Result<Vec<LiveUniversal>, Memory>
    requires held { Holds parts.now }
    requires known { AreKnown (length bank.now) (shown parts.now).now }
    requires closed { AreClosed bank.now (shown parts.now).now }
    ensures live { IfOk result (λ v. AreLive bank.now (shown parts.now).now v.items) }
    ensures ok { IfOk result (λ v. places_of bank.now v.items
        ≡ by_count (places 0 (branch_of bank.now (shown parts.now).now))) }
{
    let mut list = Vec::new(alloc);
    let mut left = length(parts);
    while left > 0 {
        left -= 1;
        put_entry(bank, parts, left, &mut list)?;
    }
    Ok(list)
}
