//! The names that are known at a place of an expression.

ghost use Rattle.std.specs.Prelude.{◌≡◌, ◌+◌, length, IfOk, OnOk};
ghost use Rattle.expression_level.specs.Store.{found};
ghost use Rattle.expression_level.specs.Scope as spec;

use crate::known::Known;
use core_expr::Memory;
use std::alloc::Global;
use std::marker::Model;
use symbol_table::{Entry, Symbols};
use tla_ast::{Decl, Place};

/// A parameter or a definition of a LET, by number.
#[derive(Debug, Drop)]
pub struct Local {
    pub number: u64,
    pub known: Known,
}

/// What the names of a module mean, the entries and levels of what is declared, and the parameters and definitions round a place of an expression, which
/// come before what is declared; the newest of a number counts.
#[derive(Drop)]
pub struct Names<'a> {
    alloc: Global,
    symbols: &'a Symbols,
    entries: &'a [Entry],
    declared: &'a [Known],
    locals: Vec<Local>,
}

impl<'a> Model for Names<'a> {
    ghost use Rattle.expression_level.specs.Scope.{Names as Seen};

    ghost Value = { Seen };

    ghost view = { λ s. record { symbols = s.symbols.now; entries = s.entries.now; env = record { declared = s.declared.now; locals = s.locals.items } } };
}

impl<'a> Names<'a> {
    /// What is declared, and nothing else.
    pub fn new(
        alloc: Global,
        symbols: &'a Symbols,
        entries: &'a [Entry],
        declared: &'a [Known],
    ) -> Names<'a>
        ensures { result ≡ spec.names_of symbols.now entries.now declared.now }
    {
        Names {
            alloc,
            symbols,
            entries,
            declared,
            locals: Vec::new(alloc),
        }
    }

    /// What gives memory.
    pub fn alloc(&self) -> Global {
        self.alloc
    }

    /// What the newest parameter or definition of a number has.
    fn local(&self, number: u64) -> Option<&Known>
        ensures { spec.found_local result ≡ spec.newest self.now.env.locals number }
    {
        let mut left = self.locals.len();
        while left > 0 {
            left -= 1;
            let local = &self.locals[left];
            if local.number == number {
                return Some(&local.known);
            }
        }
        None
    }

    /// What the name at a place has, if it is known.
    pub fn at(&self, place: Place) -> Option<&Known>
        ensures { found result ≡ spec.at_place self.now place }
    {
        let number = self.symbols.at(place)?;
        match self.local(number) {
            Some(known) => Some(known),
            None => self.declared.get(number as usize),
        }
    }

    /// Which parameters the definition primes that the name at a place stands for.
    pub fn flags(&self, place: Place) -> &'a [bool]
        ensures { result.now ≡ spec.flags_in self.now (spec.means_in self.now place) }
    {
        match self.symbols.at(place) {
            None => &[],
            Some(number) => match self.entries.get(number as usize) {
                None => &[],
                Some(entry) => entry.primed.as_slice(),
            },
        }
    }

    /// A name from now on, if the place has one.
    pub fn bind(&mut self, place: Place, known: Known) -> Result<(), Memory>
        ensures { OnOk result (self.new ≡ spec.with_name place known self.old) }
    {
        if let Some(number) = self.symbols.at(place) {
            self.locals.push(Local { number, known })?;
        }
        Ok(())
    }

    /// How many parameters and definitions there are.
    pub fn mark(&self) -> usize
        ensures { result ≡ length self.now.env.locals }
    {
        self.locals.len()
    }

    /// Gives up those that came since there were so many.
    pub fn leave(&mut self, mark: usize)
        ensures { self.new ≡ spec.left mark self.old }
    {
        self.locals.truncate(mark);
    }

    /// The parameters of a definition, which stand for themselves, behind so many others. Answers how many there are then.
    pub fn bind_parameters(&mut self, depth: usize, params: &[Decl]) -> Result<usize, Memory>
        ensures bound { OnOk result (self.new ≡ spec.with_more depth params.now self.old) }
        ensures depth { IfOk result (λ inner. inner ≡ depth + length params.now) }
    {
        let mut inner = depth;
        for param in params {
            self.bind(param.place, Known::parameter(self.alloc, inner)?)?;
            inner = inner.checked_add(1).ok_or(Memory)?;
        }
        Ok(inner)
    }
}
