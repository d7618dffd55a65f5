//! The names that a module has from the modules that it extends.

ghost use Rattle.std.specs.Prelude.{◌≡◌, ◌++◌, map, IfOk, OnOk};
ghost use Rattle.std.specs.Option.{option_map};
ghost use Rattle.module_scope.specs.Scope.{found, seen};
ghost use Rattle.module_scope.specs.Known.{book_of, exports_of};
ghost use Rattle.module_scope.specs.Names as names;
ghost use Rattle.module_scope.specs.Resolution as spec;

use crate::library::library_names;
use crate::scope::Scope;
use crate::walker::Walker;
use core_expr::{Memory, Text};
use std::alloc::Global;
use std_names::is_library;
use tla_ast::{Kind, Place};

/// The names that a module gives, its own and those of the modules that it extends.
#[derive(Drop)]
pub struct Export<'a> {
    pub name: &'a [u8],
    pub names: Vec<(&'a [u8], u64)>,
}

/// Whether a word comes before another in byte order.
fn precedes(left: &[u8], right: &[u8]) -> bool
    ensures { result ≡ spec.precedes left.now right.now }
{
    left.cmp(right).is_lt()
}

/// The names that the first module of a name gives; none where there is no such module.
fn exported<'a, 'b>(exports: &'b [Export<'a>], name: &[u8]) -> &'b [(&'a [u8], u64)]
    ensures { map seen result.now ≡ spec.exported (exports_of exports.now) name.now }
{
    for export in exports {
        if export.name == name {
            return export.names.as_slice();
        }
    }
    &[]
}

impl<'a> Scope<'a> {
    /// Whether a name has another declaration already.
    fn clashes(&self, name: &[u8], number: u64) -> bool
        ensures { result ≡ spec.clashes (found name.now self.now) number }
    {
        match self.find(name) {
            None => false,
            Some(found) => found != number,
        }
    }

    /// The least name in byte order, of those that come in, that has another declaration already.
    fn first_clash(&self, new: &[(&'a [u8], u64)]) -> Option<&'a [u8]>
        ensures { option_map (λ w. w.now) result ≡ spec.first_clash self.now (map seen new.now) }
    {
        let mut least = None;
        for (name, number) in new {
            if self.clashes(*name, *number) {
                least = lesser(*name, least);
            }
        }
        least
    }

    /// The names, of those that come in, that are not in scope yet.
    fn unknown(
        &self,
        alloc: Global,
        new: &[(&'a [u8], u64)],
    ) -> Result<Vec<(&'a [u8], u64)>, Memory>
        ensures { IfOk result (λ names. map seen names.items
            ≡ spec.unknown self.now (map seen new.now)) }
    {
        let mut names = Vec::new(alloc);
        for (name, number) in new {
            if self.find(*name).is_none() {
                names.push((*name, *number))?;
            }
        }
        Ok(names)
    }

    /// Puts names into the scope.
    fn enter_all(&mut self, new: &[(&'a [u8], u64)]) -> Result<(), Memory>
        ensures { OnOk result (self.new ≡ self.old ++ map seen new.now) }
    {
        for (name, number) in new {
            self.enter(*name, *number)?;
        }
        Ok(())
    }
}

/// The lesser of a name and the least so far, if there is one.
fn lesser<'a>(name: &'a [u8], least: Option<&'a [u8]>) -> Option<&'a [u8]>
    ensures { option_map (λ w. w.now) result
        ≡ spec.lesser name.now (option_map (λ w. w.now) least.entry) }
{
    match least {
        None => Some(name),
        Some(other) => {
            if precedes(name, other) {
                Some(name)
            } else {
                Some(other)
            }
        }
    }
}

impl<'a> Walker<'a> {
    /// Brings names into the scope, at the place where their module is extended.
    fn bring(&mut self, alloc: Global, new: &[(&'a [u8], u64)], place: Place) -> Result<(), Memory>
        ensures { OnOk result (book_of self.new
            ≡ spec.bring (map seen new.now) place (book_of self.old)) }
    {
        let clash = self.scope.first_clash(new);
        let unknown = self.scope.unknown(alloc, new)?;
        self.scope.enter_all(unknown.as_slice())?;
        match clash {
            None => Ok(()),
            Some(name) => {
                let name = Text::of(alloc, name)?;
                self.refuse(place, Kind::Redeclared(name))
            }
        }
    }

    /// A name of an EXTENDS.
    fn extend(
        &mut self,
        alloc: Global,
        exports: &[Export<'a>],
        name: &[u8],
        place: Place,
    ) -> Result<(), Memory>
        ensures { OnOk result (book_of self.new
            ≡ spec.extend (exports_of exports.now) (name.now, place) (book_of self.old)) }
    {
        if is_library(name) {
            let names = library_names(alloc, name)?;
            return self.bring(alloc, names.as_slice(), place);
        }
        self.bring(alloc, exported(exports, name), place)
    }

    /// The names of an EXTENDS, one after another.
    pub fn extend_all(
        &mut self,
        alloc: Global,
        exports: &[Export<'a>],
        extends: &[(Text, Place)],
    ) -> Result<(), Memory>
        ensures { OnOk result (book_of self.new
            ≡ names.each (spec.extend (exports_of exports.now)) extends.now (book_of self.old)) }
    {
        for (name, place) in extends {
            self.extend(alloc, exports, name.bytes(), *place)?;
        }
        Ok(())
    }
}
