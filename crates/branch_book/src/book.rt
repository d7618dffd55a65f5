//! A branch as a book of entries.
ghost use Rattle.std.specs.Prelude.{◌≡◌, ◌<◌, ◌≤◌, [], ℕ, true, not, length, IfOk, OnOk, OnErr, IfSome, IfNone};
ghost use Rattle.branch_book.specs.Links.{item_at, IsIn};
ghost use Rattle.branch_book.specs.States.{stands, added, killed, counted, undone};

use crate::fields::{Fields, add, changes, empty, first_of, kill, next_after, raise, undo_to};
use crate::item::Item;
use crate::steps::find;
use std::alloc::{AllocError, Global};
use std::marker::Model;

/// A branch. Contracts see its entries by age and the list of its earlier states.
#[derive(Debug, Drop)]
pub struct Book {
    fields: Fields,
}

impl Model for Book {
    ghost use Rattle.branch_book.specs.States.{Seen};
    ghost use Rattle.branch_book.specs.Held.{Holds, seen};

    ghost Value = { Seen };

    ghost view = { λ b. seen b.fields };

    ghost invariant = { λ b. Holds b.fields };
}

impl Book {
    /// A branch without entries.
    pub fn new(alloc: Global) -> Result<Book, AllocError>
        ensures { IfOk result (λ b. b ≡ record { now = []; past = [] }) }
    {
        let fields = empty(alloc)?;
        Ok(Book { fields })
    }

    /// The number of entries.
    pub fn length(&self) -> u64
        ensures { result ≡ length self.now.now }
    {
        self.fields.items.len() as u64
    }

    /// The entry with this number, by age.
    pub fn entry(&self, i: u64) -> Item
        requires { i < length self.now.now }
        ensures { result ≡ item_at self.now.now i }
    {
        self.fields.items[i as usize]
    }

    /// The entry of the formula.
    pub fn find(&self, formula: u64) -> Option<u64>
        ensures found { IfSome result (λ i.
            (i < length self.now.now) × ((item_at self.now.now i).formula ≡ formula)) }
        ensures only { IfSome result (λ i. (j : ℕ)
            → j < length self.now.now → (item_at self.now.now j).formula ≡ formula → j ≡ i) }
        ensures absent { IfNone result ((i : ℕ)
            → i < length self.now.now → (item_at self.now.now i).formula ≡ formula → ⊥) }
    {
        find(&self.fields.items, &self.fields.places, formula)
    }

    /// The oldest live entry of the class.
    pub fn first(&self, class: u64) -> Option<u64>
        requires { class < 68 }
        ensures first { IfSome result (λ i.
            IsIn self.now.now class i × ((j : ℕ) → j < i → IsIn self.now.now class j → ⊥)) }
        ensures absent { IfNone result ((j : ℕ) → IsIn self.now.now class j → ⊥) }
    {
        first_of(&self.fields, class)
    }

    /// The next younger live entry of the class of a live entry.
    pub fn next(&self, i: u64) -> Option<u64>
        requires within { i < length self.now.now }
        requires live { (item_at self.now.now i).live ≡ true }
        ensures next { IfSome result (λ k. (i < k)
            × IsIn self.now.now (item_at self.now.now i).class k
            × ((j : ℕ) → i < j → j < k → IsIn self.now.now (item_at self.now.now i).class j → ⊥)) }
        ensures absent { IfNone result ((j : ℕ)
            → i < j → IsIn self.now.now (item_at self.now.now i).class j → ⊥) }
    {
        next_after(&self.fields, i)
    }

    /// Adds a formula with its class, live, where it does not stand. The answer is whether it did not.
    pub fn add(&mut self, formula: u64, class: u64) -> Result<bool, AllocError>
        requires { class < 68 }
        ensures ok { OnOk result (self.new ≡ added self.old formula class) }
        ensures answer { IfOk result (λ b. b ≡ not (stands self.old.now formula)) }
        ensures err { OnErr result (self.new ≡ self.old) }
    {
        add(&mut self.fields, formula, class)
    }

    /// Makes an entry dead.
    pub fn kill(&mut self, entry: u64) -> Result<(), AllocError>
        requires { entry < length self.old.now }
        ensures ok { OnOk result (self.new ≡ killed self.old entry) }
        ensures err { OnErr result (self.new ≡ self.old) }
    {
        kill(&mut self.fields, entry)
    }

    /// Raises the count of an entry by one.
    pub fn count(&mut self, entry: u64) -> Result<(), AllocError>
        requires { entry < length self.old.now }
        ensures ok { OnOk result (self.new ≡ counted self.old entry) }
        ensures err { OnErr result (self.new ≡ self.old) }
    {
        raise(&mut self.fields, entry)
    }

    /// How many earlier states there are.
    pub fn mark(&self) -> u64
        ensures { result ≡ length self.now.past }
    {
        changes(&self.fields)
    }

    /// Brings the earlier state with this number back, and keeps those before it.
    pub fn undo(&mut self, to: u64)
        requires { to ≤ length self.old.past }
        ensures { self.new ≡ undone self.old to }
    {
        undo_to(&mut self.fields, to);
    }
}
