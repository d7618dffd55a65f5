//! The fields of a book, and what changes them.
ghost use Rattle.std.specs.Prelude.{◌≡◌, ◌<◌, ◌≤◌, ◌+◌, ◌∷◌, [], ◌++◌, IfOk, ℕ, suc, false, true, not, length, OnOk, OnErr, IfSome, IfNone};
ghost use Rattle.branch_book.specs.declared.item.Move.TheVariants.{Added, Killed, Kept, Counted};
ghost use Rattle.branch_book.specs.Links.{item_at, chain_of, IsIn, HasRoom, IsLinked};
ghost use Rattle.branch_book.specs.States.{stands, fresh, with_life, with_count, changed, killed, counted, undone, added};
ghost use Rattle.branch_book.specs.Held.{before_move, CanUndo, IsPlaced, Holds, seen};

use crate::item::{Item, Move};
use crate::links::{Links, NONE, after_of, before_of};
use crate::steps::{find, push_both, relink, unlink, widen};
use std::alloc::{AllocError, Global};

/// The fields of a book: its entries, the links of the lists of live entries by class, one more than its entry for each
/// formula, and the changes.
#[derive(Debug, Drop)]
pub struct Fields {
    pub items: Vec<Item>,
    pub links: Links,
    pub places: Vec<u64>,
    pub moves: Vec<Move>,
}

/// The entry is live or dead.
fn set_life(items: &mut Vec<Item>, entry: u64, live: bool)
    requires { entry < length items.old.items }
    ensures { items.new.items ≡ with_life live items.old.items entry }
{
    items[entry as usize].live = live;
}

/// The entry has this count.
fn set_count(items: &mut Vec<Item>, entry: u64, count: u64)
    requires { entry < length items.old.items }
    ensures { items.new.items ≡ with_count count items.old.items entry }
{
    items[entry as usize].count = count;
}

/// Makes room for a further entry, and for a formula.
fn make_room(fields: &mut Fields, entry: u64, formula: u64) -> Result<(), AllocError>
    requires { Holds fields.old }
    ensures held { Holds fields.new }
    ensures items { fields.new.items.items ≡ fields.old.items.items }
    ensures moves { fields.new.moves.items ≡ fields.old.moves.items }
    ensures room { OnOk result ((entry < length fields.new.links.afters.items)
        × (entry < length fields.new.links.befores.items)
        × (formula < length fields.new.places.items)) }
{
    widen(&mut fields.links.afters, entry)?;
    widen(&mut fields.links.befores, entry)?;
    widen(&mut fields.places, formula)
}

/// A formula that does not stand comes to the end.
fn push(fields: &mut Fields, formula: u64, class: u64) -> Result<(), AllocError>
    requires held { Holds fields.old }
    requires absent { (i : ℕ) → i < length fields.old.items.items
        → (item_at fields.old.items.items i).formula ≡ formula → ⊥ }
    requires class { class < 68 }
    ensures held { Holds fields.new }
    ensures ok { OnOk result (seen fields.new
        ≡ changed (seen fields.old) (fields.old.items.items ++ fresh formula class ∷ [])) }
    ensures err { OnErr result (seen fields.new ≡ seen fields.old) }
{
    let entry = fields.items.len() as u64;
    make_room(fields, entry, formula)?;
    let before = before_of(&fields.links, class, NONE);
    let item = Item {
        formula,
        class,
        live: true,
        count: 0,
    };
    push_both(&mut fields.items, &mut fields.moves, item)?;
    relink(&mut fields.links, class, entry, before, NONE);
    fields.places[formula as usize] = entry + 1;
    Ok(())
}

/// A live entry dies.
fn kill_live(fields: &mut Fields, entry: u64) -> Result<(), AllocError>
    requires held { Holds fields.old }
    requires within { entry < length fields.old.items.items }
    requires live { (item_at fields.old.items.items entry).live ≡ true }
    ensures held { Holds fields.new }
    ensures ok { OnOk result (seen fields.new ≡ killed (seen fields.old) entry) }
    ensures err { OnErr result (seen fields.new ≡ seen fields.old) }
{
    let class = fields.items[entry as usize].class;
    let before = before_of(&fields.links, class, entry);
    let after = after_of(&fields.links, class, entry + 1);
    fields.moves.push(Move::Killed {
        entry,
        before,
        after,
    })?;
    unlink(&mut fields.links, class, before, after);
    set_life(&mut fields.items, entry, false);
    Ok(())
}

/// A dead entry is to die.
fn keep(fields: &mut Fields, entry: u64) -> Result<(), AllocError>
    requires held { Holds fields.old }
    requires within { entry < length fields.old.items.items }
    requires dead { (item_at fields.old.items.items entry).live ≡ false }
    ensures held { Holds fields.new }
    ensures ok { OnOk result (seen fields.new ≡ killed (seen fields.old) entry) }
    ensures err { OnErr result (seen fields.new ≡ seen fields.old) }
{
    fields.moves.push(Move::Kept)?;
    Ok(())
}

/// The count of an entry is raised.
pub fn raise(fields: &mut Fields, entry: u64) -> Result<(), AllocError>
    requires held { Holds fields.old }
    requires within { entry < length fields.old.items.items }
    ensures held { Holds fields.new }
    ensures ok { OnOk result (seen fields.new ≡ counted (seen fields.old) entry) }
    ensures err { OnErr result (seen fields.new ≡ seen fields.old) }
{
    let Some(count) = fields.items[entry as usize].count.checked_add(1) else {
        return Err(AllocError);
    };
    fields.moves.push(Move::Counted { entry })?;
    set_count(&mut fields.items, entry, count);
    Ok(())
}

/// The last entry, which is live, goes.
fn drop_last(fields: &mut Fields)
    requires room { HasRoom fields.old.items.items (chain_of fields.old.links) }
    requires linked { IsLinked fields.old.items.items (chain_of fields.old.links) }
    requires placed { IsPlaced fields.old.items.items fields.old.places.items }
    requires undo { CanUndo Added fields.old.items.items }
    ensures items { fields.new.items.items ≡ before_move Added fields.old.items.items }
    ensures moves { fields.new.moves.items ≡ fields.old.moves.items }
    ensures room { HasRoom fields.new.items.items (chain_of fields.new.links) }
    ensures linked { IsLinked fields.new.items.items (chain_of fields.new.links) }
    ensures placed { IsPlaced fields.new.items.items fields.new.places.items }
{
    let entry = fields.items.len() as u64 - 1;
    let class = fields.items[entry as usize].class;
    let formula = fields.items[entry as usize].formula;
    let before = before_of(&fields.links, class, entry);
    let after = after_of(&fields.links, class, entry + 1);
    unlink(&mut fields.links, class, before, after);
    fields.places[formula as usize] = 0;
    fields.items.pop();
}

/// An entry comes back to life.
fn revive(fields: &mut Fields, entry: u64, before: u64, after: u64)
    requires room { HasRoom fields.old.items.items (chain_of fields.old.links) }
    requires linked { IsLinked fields.old.items.items (chain_of fields.old.links) }
    requires placed { IsPlaced fields.old.items.items fields.old.places.items }
    requires undo { CanUndo (Killed entry before after) fields.old.items.items }
    ensures items { fields.new.items.items
        ≡ before_move (Killed entry before after) fields.old.items.items }
    ensures moves { fields.new.moves.items ≡ fields.old.moves.items }
    ensures room { HasRoom fields.new.items.items (chain_of fields.new.links) }
    ensures linked { IsLinked fields.new.items.items (chain_of fields.new.links) }
    ensures placed { IsPlaced fields.new.items.items fields.new.places.items }
{
    let class = fields.items[entry as usize].class;
    relink(&mut fields.links, class, entry, before, after);
    set_life(&mut fields.items, entry, true);
}

/// The count of an entry is lowered.
fn lower(fields: &mut Fields, entry: u64)
    requires room { HasRoom fields.old.items.items (chain_of fields.old.links) }
    requires linked { IsLinked fields.old.items.items (chain_of fields.old.links) }
    requires placed { IsPlaced fields.old.items.items fields.old.places.items }
    requires undo { CanUndo (Counted entry) fields.old.items.items }
    ensures items { fields.new.items.items ≡ before_move (Counted entry) fields.old.items.items }
    ensures moves { fields.new.moves.items ≡ fields.old.moves.items }
    ensures room { HasRoom fields.new.items.items (chain_of fields.new.links) }
    ensures linked { IsLinked fields.new.items.items (chain_of fields.new.links) }
    ensures placed { IsPlaced fields.new.items.items fields.new.places.items }
{
    let count = fields.items[entry as usize].count - 1;
    set_count(&mut fields.items, entry, count);
}

/// A change is taken back.
fn take_back(fields: &mut Fields, change: Move)
    requires room { HasRoom fields.old.items.items (chain_of fields.old.links) }
    requires linked { IsLinked fields.old.items.items (chain_of fields.old.links) }
    requires placed { IsPlaced fields.old.items.items fields.old.places.items }
    requires undo { CanUndo change fields.old.items.items }
    ensures items { fields.new.items.items ≡ before_move change fields.old.items.items }
    ensures moves { fields.new.moves.items ≡ fields.old.moves.items }
    ensures room { HasRoom fields.new.items.items (chain_of fields.new.links) }
    ensures linked { IsLinked fields.new.items.items (chain_of fields.new.links) }
    ensures placed { IsPlaced fields.new.items.items fields.new.places.items }
{
    match change {
        Move::Added => drop_last(fields),
        Move::Killed {
            entry,
            before,
            after,
        } => revive(fields, entry, before, after),
        Move::Kept => {}
        Move::Counted { entry } => lower(fields, entry),
    }
}

/// The last change is taken back.
fn undo_last(fields: &mut Fields)
    requires held { Holds fields.old }
    requires some { 0 < length fields.old.moves.items }
    ensures held { Holds fields.new }
    ensures back { seen fields.old ≡ changed (seen fields.new) fields.old.items.items }
    ensures fewer { length fields.old.moves.items ≡ length fields.new.moves.items + 1 }
{
    let change = fields.moves.pop().unwrap();
    take_back(fields, change);
}

/// All changes but the first so many are taken back.
pub fn undo_to(fields: &mut Fields, to: u64)
    requires held { Holds fields.old }
    requires within { to ≤ length (seen fields.old).past }
    ensures held { Holds fields.new }
    ensures undone { seen fields.new ≡ undone (seen fields.old) to }
{
    while fields.moves.len() as u64 > to {
        undo_last(fields);
    }
}

/// No entries.
pub fn empty(alloc: Global) -> Result<Fields, AllocError>
    ensures held { IfOk result Holds }
    ensures seen { IfOk result (λ f. seen f ≡ record { now = []; past = [] }) }
{
    let firsts: Vec<u64> = vec![in alloc; 18446744073709551615; 68]?;
    let lasts: Vec<u64> = vec![in alloc; 0; 68]?;
    Ok(Fields {
        items: Vec::new(alloc),
        links: Links {
            firsts,
            lasts,
            afters: Vec::new(alloc),
            befores: Vec::new(alloc),
        },
        places: Vec::new(alloc),
        moves: Vec::new(alloc),
    })
}

/// How many earlier states there are.
pub fn changes(fields: &Fields) -> u64
    ensures { result ≡ length (seen fields.now).past }
{
    fields.moves.len() as u64
}

/// The oldest live entry of the class.
pub fn first_of(fields: &Fields, class: u64) -> Option<u64>
    requires held { Holds fields.now }
    requires class { class < 68 }
    ensures first { IfSome result (λ i. IsIn fields.now.items.items class i
        × ((j : ℕ) → j < i → IsIn fields.now.items.items class j → ⊥)) }
    ensures absent { IfNone result ((j : ℕ) → IsIn fields.now.items.items class j → ⊥) }
{
    let after = after_of(&fields.links, class, 0);
    if after == NONE { None } else { Some(after) }
}

/// The next younger live entry of the class of a live entry.
pub fn next_after(fields: &Fields, i: u64) -> Option<u64>
    requires held { Holds fields.now }
    requires within { i < length fields.now.items.items }
    requires live { (item_at fields.now.items.items i).live ≡ true }
    ensures next { IfSome result (λ k. (i < k)
        × IsIn fields.now.items.items (item_at fields.now.items.items i).class k
        × ((j : ℕ) → i < j → j < k
        → IsIn fields.now.items.items (item_at fields.now.items.items i).class j → ⊥)) }
    ensures absent { IfNone result ((j : ℕ) → i < j
        → IsIn fields.now.items.items (item_at fields.now.items.items i).class j → ⊥) }
{
    let class = class_at(&fields.items, i);
    let after = after_of(&fields.links, class, i + 1);
    if after == NONE { None } else { Some(after) }
}

/// The class of the entry.
fn class_at(items: &[Item], i: u64) -> u64
    requires { i < length items.now }
    ensures { result ≡ (item_at items.now i).class }
{
    items[i as usize].class
}

/// Adds a formula where it does not stand.
pub fn add(fields: &mut Fields, formula: u64, class: u64) -> Result<bool, AllocError>
    requires held { Holds fields.old }
    requires class { class < 68 }
    ensures held { Holds fields.new }
    ensures ok { OnOk result (seen fields.new ≡ added (seen fields.old) formula class) }
    ensures answer { IfOk result (λ b. b ≡ not (stands fields.old.items.items formula)) }
    ensures err { OnErr result (seen fields.new ≡ seen fields.old) }
{
    match find(&fields.items, &fields.places, formula) {
        Some(_) => Ok(false),
        None => {
            push(fields, formula, class)?;
            Ok(true)
        }
    }
}

/// Makes an entry dead.
pub fn kill(fields: &mut Fields, entry: u64) -> Result<(), AllocError>
    requires held { Holds fields.old }
    requires within { entry < length fields.old.items.items }
    ensures held { Holds fields.new }
    ensures ok { OnOk result (seen fields.new ≡ killed (seen fields.old) entry) }
    ensures err { OnErr result (seen fields.new ≡ seen fields.old) }
{
    if fields.items[entry as usize].live {
        kill_live(fields, entry)
    } else {
        keep(fields, entry)
    }
}
