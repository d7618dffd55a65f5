//! The answer of name resolution.

ghost use Rattle.std.specs.Prelude.{◌≡◌, ◌<◌, length, slice_get, OnSome};
ghost use Rattle.std.specs.Option.{option_copied};
ghost use Rattle.symbol_table.specs.Scoped as spec;

use crate::entry::Entry;
use crate::symbols::Symbols;
use sqlite_items::Items;
use std::marker::Model;
use tla_ast::Place;

/// All that is declared, by number, and what the names of each module mean.
#[derive(Drop)]
pub struct Scoped {
    entries: Items<Entry>,
    modules: Items<Symbols>,
}

impl Model for Scoped {
    ghost use Rattle.symbol_table.specs.Scoped.{Table};

    ghost Value = { Table };

    ghost view = { λ s. record { entries = s.entries; symbols = s.modules } };
}

impl Scoped {
    /// The table of these declarations, and of these names of each module.
    pub fn new(entries: Items<Entry>, modules: Items<Symbols>) -> Scoped
        ensures { result ≡ record { entries = entries; symbols = modules } }
    {
        Scoped { entries, modules }
    }

    /// The number of the declaration that the name at a place of a module means. None exactly where no name stands there; a module
    /// past the last has no names.
    pub fn symbol(&self, module: u64, place: Place) -> Option<u64>
        ensures { result ≡ spec.symbol self.now «module» place }
    {
        self.modules.get(module as usize)?.at(place)
    }

    /// The declaration of a number. None exactly past the last.
    pub fn entry(&self, number: u64) -> Option<&Entry>
        ensures value { option_copied result ≡ slice_get self.now.entries number }
        ensures within { OnSome result (number < length self.now.entries) }
    {
        self.entries.get(number as usize)
    }
}
