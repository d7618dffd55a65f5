//! The names that are in scope.

ghost use Rattle.std.specs.Prelude.{◌≡◌, [], ◌∷◌, ◌++◌, length, take, drop, map, reverse, MatchOption, IfOk, OnOk, OnErr};
ghost use Rattle.module_scope.specs.Scope as spec;

use core_expr::Memory;
use indexmap::IndexMap;
use std::alloc::Global;
use std::marker::Model;

/// A name in scope, the number of its declaration, and the number that the name had before.
#[derive(Drop)]
struct Named<'a> {
    name: &'a [u8],
    number: u64,
    shadowed: Option<u64>,
}

/// The names in scope, the oldest first, each with the number of its declaration. A look-up takes near constant time, and so
/// does it to enter a name or to leave one.
#[derive(Drop)]
pub struct Scope<'a> {
    newest: IndexMap<&'a [u8], u64>,
    names: Vec<Named<'a>>,
}

impl<'a> Model for Scope<'a> {
    ghost use Rattle.std.specs.Prelude.{List, ℕ};
    ghost use Rattle.module_scope.specs.Kept.{in_scope, Kept};

    ghost Value = { List (List ℕ × ℕ) };

    ghost invariant = { λ s. Kept s.newest s.names.items };

    ghost view = { λ s. in_scope s.names.items };
}

impl<'a> Scope<'a> {
    /// Nothing in scope.
    pub fn new(alloc: Global) -> Scope<'a>
        ensures { result ≡ [] }
    {
        Scope {
            newest: IndexMap::new(alloc),
            names: Vec::new(alloc),
        }
    }

    /// The number of the newest declaration of a name.
    pub fn find(&self, name: &[u8]) -> Option<u64>
        ensures { result ≡ spec.found name.now self.now }
    {
        self.newest.get(name).copied()
    }

    /// How many names are in scope.
    pub fn len(&self) -> usize
        ensures { result ≡ length self.now }
    {
        self.names.len()
    }

    /// Puts a name into the scope. Where memory is wanting the scope is as it was.
    pub fn enter(&mut self, name: &'a [u8], number: u64) -> Result<(), Memory>
        ensures entered { OnOk result (self.new ≡ self.old ++ (name.now, number) ∷ []) }
        ensures unchanged { OnErr result (self.new ≡ self.old) }
    {
        let shadowed = self.newest.get(name).copied();
        self.names.push(Named {
            name,
            number,
            shadowed,
        })?;
        match self.newest.insert(name, number) {
            Ok(_) => Ok(()),
            Err(_) => {
                self.names.pop();
                Err(Memory)
            }
        }
    }

    /// Takes the newest name out of the scope, and gives it with its number; None exactly where there is none.
    pub fn pop(&mut self) -> Option<(&'a [u8], u64)>
        ensures { MatchOption result ((self.old ≡ []) × (self.new ≡ []))
            (λ e. self.old ≡ self.new ++ (e.0.now, e.1) ∷ []) }
    {
        let named = self.names.pop()?;
        match named.shadowed {
            None => {
                self.newest.swap_remove(named.name);
            }
            Some(before) => {
                if let Some(number) = self.newest.get_mut(named.name) {
                    *number = before;
                }
            }
        }
        Some((named.name, named.number))
    }

    /// Takes all names out of the scope but the oldest, so many.
    pub fn leave(&mut self, len: usize)
        ensures { self.new ≡ take len self.old }
    {
        while self.names.len() > len {
            self.pop();
        }
    }

    /// Takes all names out of the scope but the oldest, so many, and gives them, the newest first.
    pub fn withdraw(&mut self, alloc: Global, len: usize) -> Result<Vec<(&'a [u8], u64)>, Memory>
        ensures left { OnOk result (self.new ≡ take len self.old) }
        ensures taken { IfOk result (λ taken. reverse (map spec.seen taken.items)
            ≡ drop len self.old) }
    {
        let mut taken = Vec::new(alloc);
        while self.names.len() > len {
            if let Some(named) = self.pop() {
                taken.push(named)?;
            }
        }
        Ok(taken)
    }

    /// Puts names into the scope, the last first.
    pub fn restore(&mut self, mut taken: Vec<(&'a [u8], u64)>) -> Result<(), Memory>
        ensures { OnOk result (self.new ≡ self.old ++ reverse (map spec.seen taken.entry.items)) }
    {
        while let Some((name, number)) = taken.pop() {
            self.enter(name, number)?;
        }
        Ok(())
    }

    /// The names in scope with their numbers.
    pub fn names(&self, alloc: Global) -> Result<Vec<(&'a [u8], u64)>, Memory>
        ensures { IfOk result (λ names. map spec.seen names.items ≡ self.now) }
    {
        let mut names = Vec::new(alloc);
        for named in &self.names {
            names.push((named.name, named.number))?;
        }
        Ok(names)
    }
}
