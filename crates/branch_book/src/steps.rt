//! The steps that changes are made of.
ghost use Rattle.std.specs.Prelude.{◌≡◌, ◌<◌, ◌≤◌, ◌+◌, ◌-◌, ◌⊎◌, ◌∷◌, [], ◌++◌, ℕ, suc, length, slice_index, OnOk, OnErr, IfSome, IfNone};
ghost use Rattle.branch_book.specs.declared.item.Move.{Move as Change};
ghost use Rattle.branch_book.specs.declared.item.Move.TheVariants.{Added};
ghost use Rattle.branch_book.specs.Links.{none, item_at, chain_of, unlinked, relinked};
ghost use Rattle.branch_book.specs.States.{stands};
ghost use Rattle.branch_book.specs.Held.{IsPlaced};

use crate::item::{Item, Move};
use crate::links::{Links, set_after, set_before};
use std::alloc::AllocError;

/// The entry of the formula.
pub fn find(items: &[Item], places: &[u64], formula: u64) -> Option<u64>
    requires { IsPlaced items.now places.now }
    ensures found { IfSome result (λ i.
        (i < length items.now) × ((item_at items.now i).formula ≡ formula)) }
    ensures only { IfSome result (λ i. (j : ℕ)
        → j < length items.now → (item_at items.now j).formula ≡ formula → j ≡ i) }
    ensures absent { IfNone result ((i : ℕ)
        → i < length items.now → (item_at items.now i).formula ≡ formula → ⊥) }
{
    match places.get(formula as usize) {
        None => None,
        Some(place) => { if *place == 0 { None } else { Some(*place - 1) } }
    }
}

/// Makes the list longer than the number.
pub fn widen(list: &mut Vec<u64>, number: u64) -> Result<(), AllocError>
    ensures same { (x : ℕ) → slice_index list.new.items x ≡ slice_index list.old.items x }
    ensures more { length list.old.items ≤ length list.new.items }
    ensures ok { OnOk result (number < length list.new.items) }
{
    while list.len() as u64 <= number {
        list.push(0)?;
    }
    Ok(())
}

/// Takes an entry out of the list of its class, where it stands between the two links.
pub fn unlink(links: &mut Links, class: u64, before: u64, after: u64)
    requires firsts { length links.old.firsts.items ≡ 68 }
    requires lasts { length links.old.lasts.items ≡ 68 }
    requires class { class < 68 }
    requires before { before ≤ length links.old.afters.items }
    requires after { after ≡ none ⊎ (after < length links.old.befores.items) }
    ensures { chain_of links.new ≡ unlinked (chain_of links.old) class before after }
{
    set_after(links, class, before, after);
    set_before(links, class, after, before);
}

/// Puts an entry into the list of its class, between the two links.
pub fn relink(links: &mut Links, class: u64, entry: u64, before: u64, after: u64)
    requires firsts { length links.old.firsts.items ≡ 68 }
    requires lasts { length links.old.lasts.items ≡ 68 }
    requires class { class < 68 }
    requires before { before ≤ length links.old.afters.items }
    requires after { after ≡ none ⊎ (after < length links.old.befores.items) }
    requires entry { entry < none }
    requires entry_after { entry < length links.old.afters.items }
    requires entry_before { entry < length links.old.befores.items }
    ensures { chain_of links.new ≡ relinked (chain_of links.old) class entry before after }
{
    set_after(links, class, before, entry);
    set_before(links, class, entry, before);
    set_after(links, class, entry + 1, after);
    set_before(links, class, after, entry + 1);
}

/// A change and an entry come to the end, or neither.
pub fn push_both(items: &mut Vec<Item>, moves: &mut Vec<Move>, item: Item) -> Result<(), AllocError>
    ensures ok { OnOk result ((items.new.items ≡ items.old.items ++ item ∷ [])
        × (moves.new.items ≡ moves.old.items ++ Added ∷ [])) }
    ensures err { OnErr result ((items.new.items ≡ items.old.items)
        × (moves.new.items ≡ moves.old.items)) }
{
    moves.push(Move::Added)?;
    match items.push(item) {
        Ok(()) => Ok(()),
        Err(_) => {
            moves.pop();
            Err(AllocError)
        }
    }
}
