//! Symbols that a canonical form does not have.
ghost use Rattle.std.specs.Prelude.{◌≡◌, IfOk, reverse};
ghost use Rattle.search_definition.specs.Search.{above, fresh, larger};
ghost use Rattle.propositional_laws.specs.Formulas.{symbol_count};
ghost use Rattle.leaf_prover.specs.Fresh.{fresh_of};

use canonical_form::symbols_from_goal;
use core_expr::{Canon, Memory, Sym};
use indexmap::IndexSet;
use std::alloc::Global;

/// The number of the spare symbol, and the first number of the metavariables: canonical constants that the form does not have. The form's
/// own symbols have numbers below `above`.
#[derive(Clone, Copy, Debug)]
pub struct Unused {
    pub spare: u64,
    pub metas: u64,
    pub above: u64,
}

/// The greater number.
fn larger(a: u64, b: u64) -> u64
    ensures { result ≡ larger a b }
{
    if a <= b { b } else { a }
}

/// The first number above those of the symbols. Memory where there is none below 2^64.
fn above(symbols: &IndexSet<Sym>) -> Result<u64, Memory>
    ensures { IfOk result (λ n. n ≡ above (reverse symbols.now.keys)) }
{
    let mut above = 0;
    for symbol in symbols.iter() {
        if symbol.number == u64::MAX {
            return Err(Memory);
        }
        above = larger(symbol.number + 1, above);
    }
    Ok(above)
}

/// The symbols that a form does not have.
pub fn unused_symbols(alloc: Global, canon: &Canon) -> Result<Unused, Memory>
    ensures fresh { IfOk result (λ u. fresh_of u ≡ fresh canon.now.facts canon.now.goal) }
    ensures above { IfOk result (λ u. u.above ≡ symbol_count canon.now) }
{
    let symbols = symbols_from_goal(alloc, canon)?;
    let above = above(&symbols)?;
    let spare = symbols.len() as u64;
    Ok(Unused {
        spare,
        metas: larger(spare + 1, above),
        above,
    })
}
