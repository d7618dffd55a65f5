//! What is known at a place of a module, and what a single name does to it.

ghost use Rattle.std.specs.Prelude.{◌≡◌, length, map, drop, reverse, IfOk, OnOk};
ghost use Rattle.tla_ast.specs.declared.tree.Def.{out-Def};
ghost use Rattle.tla_ast.specs.declared.fault.Kind.TheVariants as kind;
ghost use Rattle.plain_syntax.specs.Syntax.{term_of};
ghost use Rattle.module_scope.specs.Scope.{found, seen};
ghost use Rattle.module_scope.specs.Known.{book_of};
ghost use Rattle.module_scope.specs.Names as spec;

use crate::scope::Scope;
use core_expr::{Memory, Text};
use expression_level::Levels;
use sqlite_items::Items;
use std::alloc::Global;
use symbol_table::{Entry, EntrySort, Symbols};
use tla_ast::{Decl, Def, Kind, Place, is_among};

/// The operators that a library gives.
const SIGNS: [&[u8]; 8] = [b"+", b"-", b"*", b"<", b">", b"<=", b">=", b".."];

/// Whether a name of this sort is a fact's.
fn is_fact(sort: EntrySort) -> bool
    ensures { result ≡ spec.is_fact sort }
{
    matches!(
        sort,
        EntrySort::Assume | EntrySort::Theorem | EntrySort::Pragma
    )
}

/// Whether a name of this sort is a library's.
fn is_library(sort: EntrySort) -> bool
    ensures { result ≡ spec.is_library_sort sort }
{
    matches!(sort, EntrySort::Library)
}

/// Whether a name of this sort is a definition's.
fn is_definition(sort: EntrySort) -> bool
    ensures { result ≡ spec.is_definition sort }
{
    matches!(sort, EntrySort::Definition)
}

/// What is known at a place of a module: the names in scope, all that was declared and its levels, what the names of this module
/// mean so far, and the faults of this module.
#[derive(Drop)]
pub struct Walker<'a> {
    pub scope: Scope<'a>,
    pub entries: Vec<Entry>,
    pub levels: Levels,
    pub symbols: Symbols,
    pub faults: Vec<(Place, Kind)>,
}

impl<'a> Walker<'a> {
    /// How many names are in scope.
    pub fn mark(&self) -> usize
        ensures { result ≡ length (spec.scope_of (book_of self.now)) }
    {
        self.scope.len()
    }

    /// Gives up the names that were declared since there were so many.
    pub fn leave(&mut self, mark: usize)
        ensures { book_of self.new ≡ spec.left mark (book_of self.old) }
    {
        self.scope.leave(mark);
    }

    /// The number of the newest declaration of a name.
    fn find(&self, name: &[u8]) -> Option<u64>
        ensures { result ≡ found name.now (spec.scope_of (book_of self.now)) }
    {
        self.scope.find(name)
    }

    /// What the entry of a number is; a number past the last stands for a bound name.
    fn sort(&self, number: u64) -> EntrySort
        ensures { result ≡ (spec.entry (book_of self.now) number).sort }
    {
        match self.entries.get(number as usize) {
            Some(entry) => entry.sort,
            None => EntrySort::Bound,
        }
    }

    /// The number of parameters of the entry of a number; a number past the last has none.
    fn arity(&self, number: u64) -> u64
        ensures { result ≡ (spec.entry (book_of self.now) number).arity }
    {
        match self.entries.get(number as usize) {
            Some(entry) => entry.arity,
            None => 0,
        }
    }

    /// Notes a fault.
    pub fn refuse(&mut self, place: Place, kind: Kind) -> Result<(), Memory>
        ensures { OnOk result (book_of self.new ≡ spec.refused kind place (book_of self.old)) }
    {
        self.faults.push((place, kind))?;
        Ok(())
    }

    /// Notes what the name at a place means.
    pub fn note(&mut self, place: Place, number: u64) -> Result<(), Memory>
        ensures { OnOk result (book_of self.new ≡ spec.stands number place (book_of self.old)) }
    {
        self.symbols.note(place, number)
    }

    /// A name that is in scope is not declared again.
    pub fn fresh(&mut self, alloc: Global, name: &[u8], place: Place) -> Result<(), Memory>
        ensures { OnOk result (book_of self.new ≡ spec.fresh name.now place (book_of self.old)) }
    {
        if self.find(name).is_some() {
            let name = Text::of(alloc, name)?;
            self.refuse(place, Kind::Redeclared(name))?;
        }
        Ok(())
    }

    /// A declaration of a name, with the number of its parameters, and the name from then on.
    pub fn enter(
        &mut self,
        alloc: Global,
        sort: EntrySort,
        level: u64,
        arity: u64,
        name: &'a [u8],
        place: Place,
    ) -> Result<(), Memory>
        ensures { OnOk result (book_of self.new
            ≡ spec.declared sort level arity name.now place (book_of self.old)) }
    {
        let number = self.entries.len() as u64;
        self.levels.declare(alloc, number, level, arity > 0)?;
        let text = Text::of(alloc, name)?;
        self.entries.push(Entry {
            name: text,
            sort,
            arity,
            level,
            primed: Items::new(alloc),
        })?;
        self.scope.enter(name, number)?;
        self.symbols.note(place, number)
    }

    /// A declaration of a name that may have parameters.
    pub fn declare(
        &mut self,
        alloc: Global,
        sort: EntrySort,
        level: u64,
        decl: &'a Decl,
    ) -> Result<(), Memory>
        ensures { OnOk result (book_of self.new
            ≡ spec.declare sort level decl.now (book_of self.old)) }
    {
        self.fresh(alloc, decl.name.bytes(), decl.place)?;
        self.enter(
            alloc,
            sort,
            level,
            decl.arity,
            decl.name.bytes(),
            decl.place,
        )
    }

    /// A declaration of a name without parameters.
    pub fn declare_name(
        &mut self,
        alloc: Global,
        sort: EntrySort,
        level: u64,
        decl: &'a Decl,
    ) -> Result<(), Memory>
        ensures { OnOk result (book_of self.new
            ≡ spec.declare_name sort level decl.now (book_of self.old)) }
    {
        self.fresh(alloc, decl.name.bytes(), decl.place)?;
        self.enter(alloc, sort, level, 0, decl.name.bytes(), decl.place)
    }

    /// A bound name.
    pub fn bind(&mut self, alloc: Global, name: &'a [u8], place: Place) -> Result<(), Memory>
        ensures { OnOk result (book_of self.new ≡ spec.bound name.now place (book_of self.old)) }
    {
        self.fresh(alloc, name, place)?;
        self.enter(alloc, EntrySort::Bound, 0, 0, name, place)
    }

    /// A definition whose parameters and body are walked, and its name from then on.
    pub fn define(&mut self, alloc: Global, def: &'a Def) -> Result<(), Memory>
        ensures { OnOk result (book_of self.new
            ≡ spec.defined (out-Def def.now).name (out-Def def.now).params
            (term_of (out-Def def.now).body) (out-Def def.now).place (book_of self.old)) }
    {
        let number = self.entries.len() as u64;
        let params = def.params.as_slice();
        let body = def.body.get();
        let found = self.levels.define(
            alloc,
            number,
            params,
            body,
            &self.symbols,
            self.entries.as_slice(),
        )?;
        let text = Text::of(alloc, def.name.bytes())?;
        self.entries.push(Entry {
            name: text,
            sort: EntrySort::Definition,
            arity: params.len() as u64,
            level: found.level,
            primed: found.primed,
        })?;
        self.scope.enter(def.name.bytes(), number)?;
        self.symbols.note(def.place, number)?;
        Ok(())
    }

    /// A name that means nothing here, as it is shown.
    fn unknown(&mut self, alloc: Global, shown: &[u8], place: Place) -> Result<(), Memory>
        ensures { OnOk result (book_of self.new
            ≡ spec.refused (kind.Unknown shown.now) place (book_of self.old)) }
    {
        let shown = Text::of(alloc, shown)?;
        self.refuse(place, Kind::Unknown(shown))
    }

    /// A name with so many arguments.
    fn apply(&mut self, alloc: Global, name: &[u8], count: u64, place: Place) -> Result<(), Memory>
        ensures { OnOk result (book_of self.new
            ≡ spec.used name.now count place (book_of self.old)) }
    {
        let Some(number) = self.find(name) else {
            return self.unknown(alloc, name, place);
        };
        if is_fact(self.sort(number)) {
            return self.unknown(alloc, name, place);
        }
        if self.arity(number) == count {
            return self.note(place, number);
        }
        let name = Text::of(alloc, name)?;
        self.refuse(place, Kind::Arity(name))
    }

    /// A name with so many arguments, where it may be a value of the language.
    pub fn name(
        &mut self,
        alloc: Global,
        name: &[u8],
        count: u64,
        place: Place,
    ) -> Result<(), Memory>
        ensures { OnOk result (book_of self.new
            ≡ spec.named name.now count place (book_of self.old)) }
    {
        if name == b"TRUE".as_slice()
            || name == b"FALSE".as_slice()
            || name == b"BOOLEAN".as_slice()
        {
            return Ok(());
        }
        if name == b"STRING".as_slice() {
            return self.note(place, 0);
        }
        self.apply(alloc, name, count, place)
    }

    /// The name of a library's operator, as it is shown.
    fn operator(
        &mut self,
        alloc: Global,
        name: &[u8],
        shown: &[u8],
        place: Place,
    ) -> Result<(), Memory>
        ensures { OnOk result (book_of self.new
            ≡ spec.operator name.now shown.now place (book_of self.old)) }
    {
        match self.find(name) {
            Some(number) if is_library(self.sort(number)) => self.note(place, number),
            _ => self.unknown(alloc, shown, place),
        }
    }

    /// The name of a prefix operator, where it has one.
    pub fn prefix(&mut self, alloc: Global, sign: &[u8], place: Place) -> Result<(), Memory>
        ensures { OnOk result (book_of self.new
            ≡ spec.prefix_name sign.now place (book_of self.old)) }
    {
        if sign == b"-".as_slice() {
            return self.operator(alloc, b"-.", sign, place);
        }
        Ok(())
    }

    /// The name of an infix operator, where it has one.
    pub fn infix(&mut self, alloc: Global, sign: &[u8], place: Place) -> Result<(), Memory>
        ensures { OnOk result (book_of self.new
            ≡ spec.infix_name sign.now place (book_of self.old)) }
    {
        if is_among(&SIGNS, sign) {
            return self.operator(alloc, sign, sign, place);
        }
        Ok(())
    }

    /// A name after DEF.
    pub fn unfold(&mut self, alloc: Global, decl: &Decl) -> Result<(), Memory>
        ensures { OnOk result (book_of self.new ≡ spec.unfolded decl.now (book_of self.old)) }
    {
        match self.find(decl.name.bytes()) {
            Some(number) if is_definition(self.sort(number)) => self.note(decl.place, number),
            _ => self.unknown(alloc, decl.name.bytes(), decl.place),
        }
    }

    /// The number of a fact of this name, where the newest declaration of the name is a fact's.
    pub fn fact(&self, name: &[u8]) -> Option<u64>
        ensures { result
            ≡ spec.fact_of (book_of self.now) (found name.now (spec.scope_of (book_of self.now))) }
    {
        match self.find(name) {
            Some(number) if is_fact(self.sort(number)) => Some(number),
            _ => None,
        }
    }

    /// Takes the names that were declared since there were so many out of the scope, and gives them, the newest first.
    pub fn withdraw(&mut self, alloc: Global, mark: usize) -> Result<Vec<(&'a [u8], u64)>, Memory>
        ensures left { OnOk result (book_of self.new ≡ spec.left mark (book_of self.old)) }
        ensures taken { IfOk result (λ names. reverse (map seen names.items)
            ≡ drop mark (spec.scope_of (book_of self.old))) }
    {
        self.scope.withdraw(alloc, mark)
    }

    /// Puts names into the scope, the last first.
    pub fn restore(&mut self, names: Vec<(&'a [u8], u64)>) -> Result<(), Memory>
        ensures { OnOk result (book_of self.new
            ≡ spec.with_more (reverse (map seen names.entry.items)) (book_of self.old)) }
    {
        self.scope.restore(names)
    }
}
