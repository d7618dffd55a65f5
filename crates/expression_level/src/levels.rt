//! The levels of all that is declared.

ghost use Rattle.std.specs.Prelude.{◌≡◌, ◌<◌, [], length, OnOk, IfOk};
ghost use Rattle.expression_level.specs.Levels as spec;
ghost use Rattle.expression_level.specs.Primed.{primed_parameters};
ghost use Rattle.expression_level.specs.Store.{AllClosed, levels_of, flags_of};
ghost use Rattle.expression_level.specs.Weights.{depth_of, function_of};
ghost use Rattle.plain_syntax.specs.Syntax.{term_of};
ghost use Rattle.symbol_table.specs.Symbols.{symbol_at};

use crate::known::{Known, defined};
use crate::names::Names;
use crate::walk::weigh;
use crate::weight::Weight;
use core_expr::Memory;
use sqlite_items::Items;
use std::alloc::Global;
use std::marker::Model;
use symbol_table::{Entry, Symbols};
use tla_ast::{Decl, Node, Place};

/// What each declared number has: its level under given levels of its arguments, the function `levels_of` of what contracts see.
#[derive(Drop)]
pub struct Levels {
    known: Vec<Known>,
}

impl Model for Levels {
    ghost use Rattle.std.specs.Prelude.{List};
    ghost use Rattle.expression_level.specs.Weights.{Known as Seen};
    ghost use Rattle.expression_level.specs.Store.{AllClosed};

    ghost Value = { List Seen };

    ghost view = { λ s. s.known.items };

    ghost invariant = { λ s. AllClosed s.known.items };
}

/// The level of an expression, 0 for a constant, 1 for a state function, 2 for an action, 3 for a temporal formula; and in order
/// the places of the operators and applied names that ask for a lower level below them.
#[derive(Debug, Drop)]
pub struct Judged {
    pub level: u64,
    pub faults: Vec<Place>,
}

/// What a definition has: the level of its body where each parameter has level 0; and for each parameter whether the body primes
/// it: whether it stands there under a prime, in what UNCHANGED or a subscript of an action is applied to, or in an argument that
/// the applied definition primes.
#[derive(Debug, Drop)]
pub struct Defined {
    pub level: u64,
    pub primed: Items<bool>,
}

impl Levels {
    /// Nothing is declared: each name has the greatest level of its arguments.
    pub fn new(alloc: Global) -> Levels
        ensures { levels_of result ≡ spec.undeclared }
    {
        Levels {
            known: Vec::new(alloc),
        }
    }

    /// A declared name: it has the level, or with parameters the greatest level of its arguments.
    pub fn declare(
        &mut self,
        alloc: Global,
        number: u64,
        level: u64,
        has_parameters: bool,
    ) -> Result<(), Memory>
        ensures { OnOk result (levels_of self.new
            ≡ spec.bound number (spec.declared_level level has_parameters) (levels_of self.old)) }
    {
        if has_parameters {
            return keep(&mut self.known, number, Known::arguments());
        }
        keep(&mut self.known, number, Known::constant(alloc, level))
    }

    /// A definition with its parameters and body, whose names mean what the symbols say, among definitions with these entries.
    pub fn define(
        &mut self,
        alloc: Global,
        number: u64,
        params: &[Decl],
        body: &Node,
        symbols: &Symbols,
        entries: &[Entry],
    ) -> Result<Defined, Memory>
        ensures level { IfOk result (λ found. found.level ≡ (spec.definition_level (symbol_at symbols.now)
            (levels_of self.old) params.now (term_of body.now) []).0) }
        ensures primed { IfOk result (λ found. found.primed ≡ primed_parameters (symbol_at symbols.now)
            (flags_of entries.now) params.now (term_of body.now)) }
        ensures defined { OnOk result (levels_of self.new ≡ spec.bound number
            (spec.definition_level (symbol_at symbols.now) (levels_of self.old) params.now (term_of body.now))
            (levels_of self.old)) }
    {
        let mut names = Names::new(alloc, symbols, entries, &self.known);
        let inner = names.bind_parameters(0, params)?;
        let at = Known::constant(alloc, 0);
        let weight = weigh(&mut names, inner, &at, body)?;
        let found = Defined {
            level: weight.least,
            primed: weight.primed(alloc, inner)?,
        };
        let (kept, _asked) = defined(alloc, 0, inner, weight)?;
        drop(names);
        keep(&mut self.known, number, kept)?;
        Ok(found)
    }

    /// The level of an expression and its faults, where names mean what the symbols say and `@` has level 0.
    pub fn judge(&self, alloc: Global, symbols: &Symbols, node: &Node) -> Result<Judged, Memory>
        ensures { IfOk result (λ found. (found.level, found.faults.items)
            ≡ spec.level (symbol_at symbols.now) (levels_of self.now) 0 (term_of node.now)) }
    {
        let mut names = Names::new(alloc, symbols, &[], &self.known);
        let at = Known::constant(alloc, 0);
        let Weight {
            least,
            uses: _,
            faults,
        } = weigh(&mut names, 0, &at, node)?;
        Ok(Judged {
            level: least,
            faults,
        })
    }
}

/// Makes room for a number.
fn reach(known: &mut Vec<Known>, number: usize) -> Result<(), Memory>
    ensures reached { OnOk result (number < length known.new.items) }
    ensures same { OnOk result (levels_of known.new.items ≡ levels_of known.old.items) }
    ensures closed { AllClosed known.old.items → AllClosed known.new.items }
{
    while known.len() <= number {
        known.push(Known::arguments())?;
    }
    Ok(())
}

/// Keeps what a number has.
fn keep(known: &mut Vec<Known>, number: u64, value: Known) -> Result<(), Memory>
    requires { depth_of value ≡ 0 }
    ensures kept { OnOk result (levels_of known.new.items
        ≡ spec.bound number (function_of [] value) (levels_of known.old.items)) }
    ensures closed { AllClosed known.old.items → AllClosed known.new.items }
{
    let number = number as usize;
    reach(known, number)?;
    known[number] = value;
    Ok(())
}
