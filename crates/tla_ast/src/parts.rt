//! The parts of a node of a tree, which the node can lose one after the other where no memory can be had.

ghost use Rattle.std.specs.Prelude.{◌≡◌, ◌<◌, ◌↔◌, List, [], ◌∷◌, ◌++◌, length, slice_get, IsTrue, MatchOption, IfOk, OnOk, OnErr};
ghost use Rattle.std.specs.Option.{option_copied};

use std::alloc::{AllocError, Global};
use std::marker::Model;
use std::mem::{self, ManuallyDrop};

/// A `Vec` that contracts see as the list of its elements.
#[derive(Debug, Drop)]
pub struct Parts<T> {
    items: Vec<T>,
}

impl<T> Model for Parts<T> {
    ghost use Rattle.std.specs.Prelude.{List};
    ghost use Rattle.std.specs.Coded.{coded_list};

    ghost Value = { List T };

    ghost coded = { coded_list T.code };

    ghost view = { λ it. it.items.items };
}

impl<T> Parts<T> {
    /// No parts.
    pub fn new(alloc: Global) -> Parts<T>
        ensures { result ≡ [] }
    {
        Parts {
            items: Vec::new(alloc),
        }
    }

    /// The parts as a slice.
    pub fn as_slice(&self) -> &[T]
        ensures { result.now ≡ self.now }
    {
        self.items.as_slice()
    }

    /// How many parts there are.
    pub fn len(&self) -> usize
        ensures { result ≡ length self.now }
    {
        self.items.len()
    }

    /// Whether there are none.
    pub fn is_empty(&self) -> bool
        ensures { IsTrue result ↔ (self.now ≡ []) }
    {
        self.items.is_empty()
    }

    /// The part at a place, counted from 0.
    pub fn get(&self, at: usize) -> Option<&T>
        ensures { option_copied result ≡ slice_get self.now at }
    {
        self.items.get(at)
    }

    /// The last part and those before it; None exactly where there is none.
    pub fn split_last(self) -> Option<(T, Parts<T>)>
        ensures { MatchOption result (self ≡ []) (λ p. self ≡ p.1 ++ p.0 ∷ []) }
    {
        let Parts { mut items } = self;
        match items.pop() {
            Some(last) => Some((last, Parts { items })),
            None => {
                items.destroy_empty();
                None
            }
        }
    }

    /// Takes the first part and puts this one into its place.
    pub fn replace_first(&mut self, part: T) -> T
        requires { 0 < length self.old }
        ensures { (rest : List T) × (self.old ≡ result ∷ rest) × (self.new ≡ part ∷ rest) }
    {
        mem::replace(&mut self.items[0], part)
    }

    /// Frees the room of no parts.
    pub fn end(self)
        requires { self ≡ [] }
    {
        let Parts { items } = self;
        items.destroy_empty();
    }
}

impl<T: Drop> Parts<T> {
    /// One part.
    pub fn one(alloc: Global, part: T) -> Result<Parts<T>, AllocError>
        ensures { IfOk result (λ parts. parts ≡ part ∷ []) }
    {
        let mut parts = Parts::new(alloc);
        parts.push(part)?;
        Ok(parts)
    }

    /// Puts a part behind the others.
    pub fn push(&mut self, part: T) -> Result<(), AllocError>
        ensures ok { OnOk result (self.new ≡ self.old ++ part ∷ []) }
        ensures err { OnErr result (self.new ≡ self.old) }
    {
        self.items.push(part)?;
        Ok(())
    }
}

/// Keeps a value for ever, and frees nothing of it.
pub(crate) fn lose<T>(value: T) {
    let _lost = unsafe { ManuallyDrop::new_unchecked(value) };
}
