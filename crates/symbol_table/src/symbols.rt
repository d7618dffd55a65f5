//! What the names of one module mean.

ghost use Rattle.std.specs.Prelude.{◌≡◌, [], OnOk, OnErr};
ghost use Rattle.symbol_table.specs.Symbols as spec;

use core_expr::Memory;
use indexmap::IndexMap;
use std::alloc::Global;
use std::marker::Model;
use tla_ast::Place;

/// What the names of one module mean, by place. Contracts see it as the places with their numbers, in the order in which they
/// were noted. A call takes near constant time.
#[derive(Drop)]
pub struct Symbols {
    numbers: IndexMap<(u64, u64), u64>,
}

impl Model for Symbols {
    ghost use Rattle.std.specs.Prelude.{List, ℕ, map};
    ghost use Rattle.tla_ast.specs.declared.place.Place.{Place};
    ghost use Rattle.symbol_table.specs.Symbols.{placed};

    ghost Value = { List (Place × ℕ) };

    ghost view = { λ s. map placed s.numbers.entries };
}

impl Symbols {
    /// Nothing noted.
    pub fn new(alloc: Global) -> Symbols
        ensures { result ≡ [] }
    {
        Symbols {
            numbers: IndexMap::new(alloc),
        }
    }

    /// Notes the number that the name at a place means, where none is noted there.
    pub fn note(&mut self, place: Place, number: u64) -> Result<(), Memory>
        ensures noted { OnOk result (self.new ≡ spec.noted place number self.old) }
        ensures unchanged { OnErr result (self.new ≡ self.old) }
    {
        let key = (place.line, place.column);
        if !self.numbers.contains_key(&key) {
            self.numbers.insert(key, number)?;
        }
        Ok(())
    }

    /// The number that the name at a place means, if one is noted there.
    pub fn at(&self, place: Place) -> Option<u64>
        ensures { result ≡ spec.symbol_at self.now place }
    {
        self.numbers.get(&(place.line, place.column)).copied()
    }
}
