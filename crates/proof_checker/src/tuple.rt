//! The schemas about sets and tuples that are written out, and about literals.
ghost use Rattle.std.specs.Prelude.{◌≡◌, ◌<◌, ◌∷◌, [], length, false, IfOk, IsTrue};
ghost use Rattle.core_expr.specs.Nodes.{AreBelow, AreNodes, picked, node_fits, node_make, trees_from};
ghost use Rattle.term_bank.specs.Banks.{Extends, HasTree, tree_at};
ghost use Rattle.seq_calculus.specs.Schemas.{join, join_from, equal_pairs, about_enumeration, about_tuples, about_entry, tuple_meaning, are_apart};
ghost use Rattle.proof_checker.specs.Tables.{cells_of, ArePlaced};
ghost use Rattle.proof_checker.specs.Schemas.{IsInstance, HasHead, last};

use crate::nodes::Cell::{One, Two};
use crate::nodes::{Cell, add_cells};
use core_expr::Memory;
use std::alloc::Global;
use term_bank::Bank;

/// `x \in y <=> z`.
const MEMBERSHIP: [Cell; 2] = [Two(15, 0, 1), Two(11, 3, 2)];

/// `x = y <=> z`.
const EQUALITY: [Cell; 2] = [Two(14, 0, 1), Two(11, 3, 2)];

/// `x[y] = z`.
const ENTRY: [Cell; 2] = [Two(28, 0, 1), Two(14, 3, 2)];

/// `~(x = y)`.
const DIFFERENCE: [Cell; 2] = [Two(14, 0, 1), One(7, 2)];

/// The last tree of nodes over these.
#[tactic(auto, unfolding(core_expr::specs::Heads::kind_at, core_expr::specs::Heads::kind_table))]
fn finish(bank: &mut Bank, alloc: Global, items: &[u64], cells: &[Cell]) -> Result<u64, Memory>
    requires cells { AreNodes (length items.now) (cells_of cells.now) }
    requires some { 0 < length items.now }
    requires items { AreBelow (length bank.old) items.now }
    ensures extends { Extends bank.old bank.new }
    ensures ok { IfOk result (λ k. HasTree bank.new k
        (last (trees_from (picked bank.old items.now) (cells_of cells.now)))) }
{
    let mut places = Vec::from_slice(alloc, items)?;
    add_cells(bank, alloc, &mut places, cells)?;
    Ok(places[places.len() - 1])
}

/// The equation of each two that stand at the same place.
#[tactic(auto, unfolding(core_expr::specs::Heads::kind_at, core_expr::specs::Heads::kind_table))]
fn equations(
    bank: &mut Bank,
    alloc: Global,
    left: &[u64],
    right: &[u64],
) -> Result<Vec<u64>, Memory>
    requires lengths { length left.now ≡ length right.now }
    requires left { AreBelow (length bank.old) left.now }
    requires right { AreBelow (length bank.old) right.now }
    ensures extends { Extends bank.old bank.new }
    ensures ok { IfOk result (λ v. ArePlaced bank.new
        (equal_pairs (picked bank.old left.now) (picked bank.old right.now)) v.items) }
{
    let mut out = Vec::new(alloc);
    for i in 0..left.len() {
        let (a, b) = (left[i], right[i]);
        let equation = bank.make(alloc, 14, &[], &[a, b])?;
        out.push(equation)?;
    }
    Ok(out)
}

/// What follows the first, joined to it from the left.
fn join_after(
    bank: &mut Bank,
    alloc: Global,
    connective: u64,
    first: u64,
    rest: &[u64],
) -> Result<u64, Memory>
    requires connective_fits { IsTrue (node_fits connective [] 2) }
    requires first { first < length bank.old }
    requires rest { AreBelow (length bank.old) rest.now }
    ensures extends { Extends bank.old bank.new }
    ensures ok { IfOk result (λ k. HasTree bank.new k
        (join_from (λ a b. node_make connective [] (a ∷ b ∷ [])) (tree_at bank.old first)
        (picked bank.old rest.now))) }
{
    let mut joined = first;
    for i in 0..rest.len() {
        let item = rest[i];
        let next = bank.make(alloc, connective, &[], &[joined, item])?;
        joined = next;
    }
    Ok(joined)
}

/// The items joined from the left, one by itself, or the head `none` where there are no items.
fn join(
    bank: &mut Bank,
    alloc: Global,
    connective: u64,
    none: u64,
    items: &[u64],
) -> Result<u64, Memory>
    requires connective_fits { IsTrue (node_fits connective [] 2) }
    requires none_fits { IsTrue (node_fits none [] 0) }
    requires items { AreBelow (length bank.old) items.now }
    ensures extends { Extends bank.old bank.new }
    ensures ok { IfOk result (λ k. HasTree bank.new k
        (join (λ a b. node_make connective [] (a ∷ b ∷ [])) (node_make none [] [])
        (picked bank.old items.now))) }
{
    if items.is_empty() {
        let alone = bank.make(alloc, none, &[], &[])?;
        return Ok(alone);
    }
    let first = items[0];
    let joined = join_after(bank, alloc, connective, first, &items[1..])?;
    Ok(joined)
}

/// The equations of each two joined by a connective.
fn join_equations(
    bank: &mut Bank,
    alloc: Global,
    connective: u64,
    none: u64,
    left: &[u64],
    right: &[u64],
) -> Result<u64, Memory>
    requires connective_fits { IsTrue (node_fits connective [] 2) }
    requires none_fits { IsTrue (node_fits none [] 0) }
    requires lengths { length left.now ≡ length right.now }
    requires left { AreBelow (length bank.old) left.now }
    requires right { AreBelow (length bank.old) right.now }
    ensures extends { Extends bank.old bank.new }
    ensures ok { IfOk result (λ k. HasTree bank.new k
        (join (λ a b. node_make connective [] (a ∷ b ∷ [])) (node_make none [] [])
        (equal_pairs (picked bank.old left.now) (picked bank.old right.now)))) }
{
    let pairs = equations(bank, alloc, left, right)?;
    let joined = join(bank, alloc, connective, none, pairs.as_slice())?;
    Ok(joined)
}

/// The formula about a set whose elements are listed.
#[tactic(auto, unfolding(core_expr::specs::Heads::kind_at, core_expr::specs::Heads::kind_table))]
fn about_enumeration(
    bank: &mut Bank,
    alloc: Global,
    term: u64,
    elements: &[u64],
) -> Result<u64, Memory>
    requires term { term < length bank.old }
    requires elements { AreBelow (length bank.old) elements.now }
    ensures extends { Extends bank.old bank.new }
    ensures ok { IfOk result (λ k. HasTree bank.new k
        (about_enumeration (tree_at bank.old term) (picked bank.old elements.now))) }
{
    let set = bank.make(alloc, 17, &[elements.len() as u64], elements)?;
    let terms: Vec<u64> = vec![in alloc; term; elements.len()]?;
    let meaning = join_equations(bank, alloc, 9, 1, terms.as_slice(), elements)?;
    let formula = finish(bank, alloc, &[term, set, meaning], &MEMBERSHIP)?;
    Ok(formula)
}

/// The instance about a set whose elements are listed: the parameters are the term and the elements.
pub fn enumeration(
    bank: &mut Bank,
    alloc: Global,
    number: u64,
    params: &[u64],
) -> Result<Option<u64>, Memory>
    requires params { AreBelow (length bank.old) params.now }
    ensures extends { Extends bank.old bank.new }
    ensures ok { IfOk result (λ o. IsInstance bank.new 1 number (picked bank.old params.now) o) }
{
    if number != 0 {
        return Ok(None);
    }
    if params.is_empty() {
        return Ok(None);
    }
    let term = params[0];
    let formula = about_enumeration(bank, alloc, term, &params[1..])?;
    Ok(Some(formula))
}

/// What the equality of two tuples means: each two entries are equal, or FALSE where they are not as many.
#[tactic(auto, unfolding(core_expr::specs::Heads::kind_at, core_expr::specs::Heads::kind_table))]
fn tuple_meaning(bank: &mut Bank, alloc: Global, left: &[u64], right: &[u64]) -> Result<u64, Memory>
    requires left { AreBelow (length bank.old) left.now }
    requires right { AreBelow (length bank.old) right.now }
    ensures extends { Extends bank.old bank.new }
    ensures ok { IfOk result (λ k. HasTree bank.new k
        (tuple_meaning (picked bank.old left.now) (picked bank.old right.now))) }
{
    if left.len() != right.len() {
        let never = bank.make(alloc, 1, &[], &[])?;
        return Ok(never);
    }
    let joined = join_equations(bank, alloc, 8, 0, left, right)?;
    Ok(joined)
}

/// The formula about two tuples.
#[tactic(auto, unfolding(core_expr::specs::Heads::kind_at, core_expr::specs::Heads::kind_table))]
fn about_tuples(bank: &mut Bank, alloc: Global, left: &[u64], right: &[u64]) -> Result<u64, Memory>
    requires left { AreBelow (length bank.old) left.now }
    requires right { AreBelow (length bank.old) right.now }
    ensures extends { Extends bank.old bank.new }
    ensures ok { IfOk result (λ k. HasTree bank.new k
        (about_tuples (picked bank.old left.now) (picked bank.old right.now))) }
{
    let first = bank.make(alloc, 30, &[left.len() as u64], left)?;
    let second = bank.make(alloc, 30, &[right.len() as u64], right)?;
    let meaning = tuple_meaning(bank, alloc, left, right)?;
    let formula = finish(bank, alloc, &[first, second, meaning], &EQUALITY)?;
    Ok(formula)
}

/// The instance about two tuples: the first `number` parameters are the entries of the first.
pub fn tuple_equality(
    bank: &mut Bank,
    alloc: Global,
    number: u64,
    params: &[u64],
) -> Result<Option<u64>, Memory>
    requires params { AreBelow (length bank.old) params.now }
    ensures extends { Extends bank.old bank.new }
    ensures ok { IfOk result (λ o. IsInstance bank.new 20 number (picked bank.old params.now) o) }
{
    if number > params.len() as u64 {
        return Ok(None);
    }
    let at = number as usize;
    let formula = about_tuples(bank, alloc, &params[..at], &params[at..])?;
    Ok(Some(formula))
}

/// The formula about the entry `number` of a tuple.
#[tactic(auto, unfolding(core_expr::specs::Heads::kind_at, core_expr::specs::Heads::kind_table))]
fn about_entry(
    bank: &mut Bank,
    alloc: Global,
    entries: &[u64],
    number: u64,
    entry: u64,
) -> Result<u64, Memory>
    requires entries { AreBelow (length bank.old) entries.now }
    requires entry { entry < length bank.old }
    ensures extends { Extends bank.old bank.new }
    ensures ok { IfOk result (λ k. HasTree bank.new k
        (about_entry (picked bank.old entries.now) number (tree_at bank.old entry))) }
{
    let tuple = bank.make(alloc, 30, &[entries.len() as u64], entries)?;
    let numeral = bank.make(alloc, 2, &[0, number], &[])?;
    let formula = finish(bank, alloc, &[tuple, numeral, entry], &ENTRY)?;
    Ok(formula)
}

/// The instance about the entry `number`, from 1, of the tuple of the parameters.
pub fn tuple_entry(
    bank: &mut Bank,
    alloc: Global,
    number: u64,
    params: &[u64],
) -> Result<Option<u64>, Memory>
    requires params { AreBelow (length bank.old) params.now }
    ensures extends { Extends bank.old bank.new }
    ensures ok { IfOk result (λ o. IsInstance bank.new 21 number (picked bank.old params.now) o) }
{
    if number == 0 {
        return Ok(None);
    }
    if number > params.len() as u64 {
        return Ok(None);
    }
    let entry = params[(number - 1) as usize];
    let formula = about_entry(bank, alloc, params, number, entry)?;
    Ok(Some(formula))
}

/// The head number of a tree of the bank.
fn head_at(bank: &Bank, i: u64) -> u64
    requires { i < length bank.now }
    ensures { HasHead bank.now i result }
{
    bank.node(i).unwrap().head
}

/// Whether these are two different numbers or two different strings.
fn are_apart(bank: &Bank, l: u64, m: u64) -> bool
    requires below { AreBelow (length bank.now) (l ∷ m ∷ []) }
    ensures { result ≡ are_apart (tree_at bank.now l) (tree_at bank.now m) }
{
    let _count = bank.count();
    if l == m {
        return false;
    }
    let head = head_at(bank, l);
    let other = head_at(bank, m);
    if head != other {
        return false;
    }
    if head == 2 {
        return true;
    }
    if head == 3 {
        return true;
    }
    false
}

/// The instance about two literals.
#[tactic(auto, unfolding(core_expr::specs::Heads::kind_at, core_expr::specs::Heads::kind_table))]
pub fn literals(
    bank: &mut Bank,
    alloc: Global,
    number: u64,
    params: &[u64],
) -> Result<Option<u64>, Memory>
    requires params { AreBelow (length bank.old) params.now }
    ensures extends { Extends bank.old bank.new }
    ensures ok { IfOk result (λ o. IsInstance bank.new 22 number (picked bank.old params.now) o) }
{
    if number != 0 {
        return Ok(None);
    }
    if params.len() != 2 {
        return Ok(None);
    }
    let (first, second) = (params[0], params[1]);
    let apart = are_apart(bank, first, second);
    if !apart {
        return Ok(None);
    }
    let formula = finish(bank, alloc, params, &DIFFERENCE)?;
    Ok(Some(formula))
}
