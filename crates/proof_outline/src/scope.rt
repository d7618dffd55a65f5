//! The step names that are seen.

ghost use Rattle.std.specs.Prelude.{◌≡◌, [], ◌∷◌, ◌++◌, ◌-◌, length, take, OnOk, OnErr};
ghost use Rattle.proof_outline.specs.Outline as spec;

use core_expr::Memory;
use indexmap::IndexMap;
use std::alloc::Global;
use std::marker::Model;

/// A name that is seen, by its level and label, the number of its step, and that of the step that it meant before.
#[derive(Drop)]
struct Named<'a> {
    name: (u128, &'a [u8]),
    number: u64,
    shadowed: Option<u64>,
}

/// The step names that are seen, the oldest first, each with the number of its step. A look-up takes near constant time, and so
/// does it to enter a name or to leave one.
#[derive(Drop)]
pub struct Scope<'a> {
    newest: IndexMap<(u128, &'a [u8]), u64>,
    names: Vec<Named<'a>>,
}

impl<'a> Model for Scope<'a> {
    ghost use Rattle.proof_outline.specs.Outline.{Seen};
    ghost use Rattle.proof_outline.specs.Kept.{in_scope, Kept};

    ghost Value = { Seen };

    ghost invariant = { λ s. Kept s.newest s.names.items };

    ghost view = { λ s. in_scope s.names.items };
}

impl<'a> Scope<'a> {
    /// Nothing is seen.
    pub fn new(alloc: Global) -> Scope<'a>
        ensures { result ≡ [] }
    {
        Scope {
            newest: IndexMap::new(alloc),
            names: Vec::new(alloc),
        }
    }

    /// The number of the newest step of a name.
    pub fn find(&self, level: u128, label: &[u8]) -> Option<u64>
        ensures { result ≡ spec.found (level, label.now) self.now }
    {
        self.newest.get(&(level, label)).copied()
    }

    /// How many names are seen.
    pub fn len(&self) -> usize
        ensures { result ≡ length self.now }
    {
        self.names.len()
    }

    /// A further name is seen. Where memory is wanting nothing changes.
    pub fn enter(&mut self, level: u128, label: &'a [u8], number: u64) -> Result<(), Memory>
        ensures entered { OnOk result (self.new ≡ self.old ++ ((level, label.now), number) ∷ []) }
        ensures unchanged { OnErr result (self.new ≡ self.old) }
    {
        let name = (level, label);
        let shadowed = self.newest.get(&name).copied();
        self.names.push(Named {
            name,
            number,
            shadowed,
        })?;
        match self.newest.insert(name, number) {
            Ok(_) => Ok(()),
            Err(_) => {
                self.names.pop();
                Err(Memory)
            }
        }
    }

    /// The newest name is no longer seen, where there is one.
    fn pop(&mut self)
        ensures { self.new ≡ take (length self.old - 1) self.old }
    {
        let Some(named) = self.names.pop() else {
            return;
        };
        match named.shadowed {
            None => {
                self.newest.swap_remove(&named.name);
            }
            Some(before) => {
                if let Some(number) = self.newest.get_mut(&named.name) {
                    *number = before;
                }
            }
        }
    }

    /// Only the oldest names are seen, so many.
    pub fn leave(&mut self, len: usize)
        ensures { self.new ≡ take len self.old }
    {
        while self.names.len() > len {
            self.pop();
        }
    }
}
