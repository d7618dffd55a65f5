//! The symbols of expressions, in the order of prefix notation.

ghost use Rattle.std.specs.Prelude.{◌≡◌, ◌<◌, ◌++◌, [], length, IfOk, OnOk};
ghost use Rattle.core_expr.specs.Heads.{subtrees};
ghost use Rattle.core_expr.specs.Flat.{rows_of};
ghost use Rattle.core_expr.specs.Places.{subtree};
ghost use Rattle.proof_contexts.specs.Canonical.{gathered, each_gathered};
ghost use Rattle.canonical_form.specs.Gathering.{met, waiting, AreNodes};

use core_expr::theorems::last_is_root;
use core_expr::{Canon, Expr, Memory, RowKind, Sym};
use indexmap::IndexSet;
use sqlite_items::Items;
use std::alloc::Global;

/// Notes the symbol of a node of this kind, if it is a new one.
#[tactic(auto, using(crate::proofs::Symbols::key_met))]
fn meet(symbols: &mut IndexSet<Sym>, kind: RowKind) -> Result<(), Memory>
    ensures { OnOk result (symbols.new.keys ≡ met kind symbols.old.keys) }
{
    if let RowKind::Symbol(symbol) = kind {
        symbols.insert_full(symbol)?;
    }
    Ok(())
}

/// Puts the parts of a node on the places to visit, the first to be visited next.
fn wait_for_parts(places: &mut Vec<u64>, e: &Expr, i: u64) -> Result<(), Memory>
    requires { i < length (rows_of e.now) }
    ensures waiting { OnOk result (waiting e.now places.new.items
        ≡ subtrees (subtree e.now i) ++ waiting e.now places.old.items) }
    ensures within { OnOk result (AreNodes e.now places.old.items
        → AreNodes e.now places.new.items) }
{
    for k in (0..e.parts(i)).rev() {
        places.push(e.part(i, k))?;
    }
    Ok(())
}

/// Notes the symbols of an expression behind those that are there. Takes near linear time and no stack.
#[tactic(auto, using(crate::proofs::Gathering::next_gathered))]
pub fn gather(alloc: Global, symbols: &mut IndexSet<Sym>, e: &Expr) -> Result<(), Memory>
    ensures { OnOk result (symbols.new.keys ≡ gathered e.now symbols.old.keys) }
{
    last_is_root();
    let mut places = vec![in alloc; e.length() - 1]?;
    for _ in 0..u64::MAX {
        let Some(i) = places.pop() else {
            return Ok(());
        };
        meet(symbols, e.kind(i))?;
        wait_for_parts(&mut places, e, i)?;
    }
    Err(Memory)
}

/// Notes the symbols of expressions, one after another.
pub fn gather_each(alloc: Global, symbols: &mut IndexSet<Sym>, es: &[Expr]) -> Result<(), Memory>
    ensures { OnOk result (symbols.new.keys ≡ each_gathered es.now symbols.old.keys) }
{
    for e in es {
        gather(alloc, symbols, e)?;
    }
    Ok(())
}

/// The different symbols of a canonical form, those of the goal first.
pub fn symbols_from_goal(alloc: Global, canon: &Canon) -> Result<IndexSet<Sym>, Memory>
    ensures { IfOk result (λ s.
        s.keys ≡ each_gathered canon.now.facts (gathered canon.now.goal [])) }
{
    let mut symbols = IndexSet::new(alloc);
    gather(alloc, &mut symbols, &canon.goal)?;
    gather_each(alloc, &mut symbols, canon.facts.as_slice())?;
    Ok(symbols)
}
