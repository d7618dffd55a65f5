//! Rank rewrite.
ghost use Rattle.std.specs.Prelude.{◌≡◌, ◌<◌, ◌∷◌, [], true, Some, List, length, IfOk};
ghost use Rattle.core_expr.specs.Put.{IsScoped};
ghost use Rattle.core_expr.specs.Nodes.{AreBelow, picked};
ghost use Rattle.seq_calculus.specs.Calculus.{AllClosed};
ghost use Rattle.term_bank.specs.Banks.{IsDistinct, Extends, tree_at};
ghost use Rattle.search_definition.specs.Terms.{first_some};
ghost use Rattle.search_definition.specs.Plain.{rewrite_of, rewrite};
ghost use Rattle.search_definition.specs.Rules.{at_entry, at_live, oldest};
ghost use Rattle.search_definition.specs.Watches.{NoneBefore};
ghost use Rattle.branch_state.specs.Shown.{Placed, placed_at};
ghost use Rattle.branch_state.specs.Parts.{Holds, shown};
ghost use Rattle.tableau_search.specs.Entries.{AreKnown, AreClosed, branch_of};
ghost use Rattle.tableau_search.specs.Found.{IsFound, IsAnswer};
ghost use Rattle.equation_ranks.specs.Partners.{formula_at};
ghost use Rattle.equation_ranks.specs.Replacing.{AddsClosed};
ghost use Rattle.equation_ranks.specs.Rewriting.{HasRewrite, rewritten_result, place_of};

use crate::found::alone_found;
use branch_state::{Parts, entry, length};
use core_expr::Memory;
use formula_rules::{Equation, rewrite_of};
use search_definition::Rule;
use std::alloc::Global;
use tableau_search::Found;
use term_bank::Bank;
use term_order::closed_subterms;
use term_walks::replace;

/// The equation of the first of these closed terms that has one.
fn first_equation(bank: &mut Bank, alloc: Global, terms: &[u64]) -> Result<Option<Equation>, Memory>
    requires below { AreBelow (length bank.old) terms.now }
    requires closed { AllClosed (picked bank.old terms.now) }
    ensures extends { Extends bank.old bank.new }
    ensures distinct { IsDistinct bank.new }
    ensures ok { IfOk result (HasRewrite bank.new
        (first_some rewrite_of (picked bank.old terms.now))) }
{
    let _count = bank.count();
    for t in terms {
        match rewrite_of(bank, alloc, *t)? {
            Some(equation) => return Ok(Some(equation)),
            None => {}
        }
    }
    Ok(None)
}

/// What the equation gives for the formula f of the entry `i`.
fn by_equation(
    bank: &mut Bank,
    alloc: Global,
    i: u64,
    f: u64,
    equation: Equation,
) -> Result<Found, Memory>
    requires below { AreBelow (length bank.old) (f ∷ equation.from ∷ equation.to ∷ []) }
    requires closed { IsScoped 0 (tree_at bank.old equation.from) }
    ensures extends { Extends bank.old bank.new }
    ensures distinct { IsDistinct bank.new }
    ensures found { (es : List Placed) → i < length es → (placed_at es i).live ≡ true
        → IfOk result (IsFound bank.new es (Some (rewritten_result bank.old i f equation))) }
{
    let Equation { schema, from, to } = equation;
    let changed = replace(bank, alloc, from, to, f)?;
    alone_found(
        bank,
        alloc,
        i,
        Rule::Rewritten(schema),
        &[f],
        &[from, to],
        changed,
    )
}

/// What the rank gives for the formula f of the entry `i`.
fn rewritten(bank: &mut Bank, alloc: Global, i: u64, f: u64) -> Result<Option<Found>, Memory>
    requires { f < length bank.old }
    ensures extends { Extends bank.old bank.new }
    ensures distinct { IsDistinct bank.new }
    ensures answer { (es : List Placed) → i < length es → (placed_at es i).live ≡ true
        → IfOk result (IsAnswer bank.new es (at_entry i (rewrite (tree_at bank.old f)))) }
{
    let _count = bank.count();
    let terms = closed_subterms(bank, alloc, f)?;
    match first_equation(bank, alloc, terms.as_slice())? {
        Some(equation) => Ok(Some(by_equation(bank, alloc, i, f, equation)?)),
        None => Ok(None),
    }
}

/// What the rank gives for the entry `i`, where it is live.
fn rewritten_at(
    bank: &mut Bank,
    alloc: Global,
    parts: &Parts,
    i: u64,
) -> Result<Option<Found>, Memory>
    requires held { Holds parts.now }
    requires known { AreKnown (length bank.old) (shown parts.now).now }
    requires within { i < length (shown parts.now).now }
    ensures extends { Extends bank.old bank.new }
    ensures distinct { IsDistinct bank.new }
    ensures answer { IfOk result (IsAnswer bank.new (shown parts.now).now (at_entry i
        (at_live rewrite (placed_at (shown parts.now).now i).live
        (formula_at bank.new (shown parts.now).now i)))) }
{
    let _count = bank.count();
    let item = entry(parts, i);
    if item.live {
        return rewritten(bank, alloc, i, item.formula);
    }
    Ok(None)
}

/// Rank rewrite, where it fits none of the oldest `start` entries: of the oldest live entry that it fits, the first closed
/// subterm that has such an equation is replaced everywhere in the formula.
pub fn rewrite_from(
    bank: &mut Bank,
    alloc: Global,
    parts: &Parts,
    start: u64,
) -> Result<Option<Found>, Memory>
    requires held { Holds parts.now }
    requires known { AreKnown (length bank.old) (shown parts.now).now }
    requires closed { AreClosed bank.old (shown parts.now).now }
    requires before { NoneBefore rewrite start (branch_of bank.old (shown parts.now).now) }
    ensures extends { Extends bank.old bank.new }
    ensures distinct { IsDistinct bank.new }
    ensures answer { IfOk result (IsAnswer bank.new (shown parts.now).now
        (oldest rewrite 0 (branch_of bank.new (shown parts.now).now))) }
    ensures closed { IfOk result (AddsClosed bank.new) }
    ensures position { IfOk result (λ o. NoneBefore rewrite
        (place_of o (length (shown parts.now).now)) (branch_of bank.new (shown parts.now).now)) }
{
    let _count = bank.count();
    for i in start..length(parts) {
        match rewritten_at(bank, alloc, parts, i)? {
            Some(found) => return Ok(Some(found)),
            None => {}
        }
    }
    Ok(None)
}

/// Rank rewrite.
pub fn rewrite_rank(bank: &mut Bank, alloc: Global, parts: &Parts) -> Result<Option<Found>, Memory>
    requires held { Holds parts.now }
    requires known { AreKnown (length bank.old) (shown parts.now).now }
    requires closed { AreClosed bank.old (shown parts.now).now }
    ensures extends { Extends bank.old bank.new }
    ensures distinct { IsDistinct bank.new }
    ensures answer { IfOk result (IsAnswer bank.new (shown parts.now).now
        (oldest rewrite 0 (branch_of bank.new (shown parts.now).now))) }
    ensures closed { IfOk result (AddsClosed bank.new) }
    ensures position { IfOk result (λ o. NoneBefore rewrite
        (place_of o (length (shown parts.now).now)) (branch_of bank.new (shown parts.now).now)) }
{
    rewrite_from(bank, alloc, parts, 0)
}
