//! Answers of rules.
ghost use Rattle.std.specs.Prelude.{◌≡◌, ◌<◌, ◌+◌, length, IfOk, IsTrue};
ghost use Rattle.std.proofs.Common.{get_or};
ghost use Rattle.core_expr.specs.Nodes.{AreBelow, picked};
ghost use Rattle.term_bank.specs.Banks.{IsDistinct, Extends, tree_at};
ghost use Rattle.term_shapes.specs.Forms.{are_below, are_forms, grown};
ghost use Rattle.formula_rules.specs.Answers.{HasStep, alone, alone_step, both_step, gathered, trees_at};

use core_expr::Memory;
use search_definition::Rule;
use std::alloc::Global;
use term_bank::Bank;
use term_shapes::{Shape, grow};

/// What a rule adds: on one resulting branch, or on the first and on the second side of a split.
#[derive(Debug, Drop)]
pub enum Sides {
    Alone(Vec<u64>),
    Both(Vec<u64>, Vec<u64>),
}

/// What a rule does to its formula, by indices: the formulas that it names, the terms that it works with, and what it adds.
#[derive(Debug, Drop)]
pub struct Given {
    pub rule: Rule,
    pub named: Vec<u64>,
    pub terms: Vec<u64>,
    pub added: Sides,
}

/// The index at a place.
fn place_at(places: &[u64], i: u64) -> u64
    requires { i < length places.now }
    ensures { result ≡ get_or places.now i 0 }
{
    places[i as usize]
}

/// The indices at these places.
pub fn fetch(alloc: Global, places: &[u64], at: &[u64]) -> Result<Vec<u64>, Memory>
    requires { AreBelow (length places.now) at.now }
    ensures { IfOk result (λ v. v.items ≡ gathered places.now at.now) }
{
    let mut indices = Vec::new(alloc);
    for place in at {
        indices.push(place_at(places, *place))?;
    }
    Ok(indices)
}

/// The rule adds formulas on one branch; it names formulas and works with terms. The table of forms over `over` has what is
/// added at these places.
pub fn adds(
    bank: &mut Bank,
    alloc: Global,
    rule: Rule,
    named: &[u64],
    terms: &[u64],
    over: &[u64],
    forms: &[Shape],
    added: &[u64],
) -> Result<Given, Memory>
    requires named { AreBelow (length bank.old) named.now }
    requires terms { AreBelow (length bank.old) terms.now }
    requires over { AreBelow (length bank.old) over.now }
    requires forms { IsTrue (are_forms (length over.now) forms.now) }
    requires added { IsTrue (are_below (length over.now + length forms.now) added.now) }
    ensures extends { Extends bank.old bank.new }
    ensures distinct { IsDistinct bank.new }
    ensures ok { IfOk result (λ g. HasStep bank.new g (alone_step rule
        (trees_at bank.old named.now) (trees_at bank.old terms.now)
        (trees_at (grown (picked bank.old over.now) forms.now) added.now))) }
{
    let places = grow(bank, alloc, over, forms)?;
    let added = fetch(alloc, places.as_slice(), added)?;
    Ok(Given {
        rule,
        named: Vec::from_slice(alloc, named)?,
        terms: Vec::from_slice(alloc, terms)?,
        added: Sides::Alone(added),
    })
}

/// The rule splits the branch; it names formulas and works with terms. The table of forms over `over` has the formulas of both
/// sides at these places.
pub fn parts(
    bank: &mut Bank,
    alloc: Global,
    rule: Rule,
    named: &[u64],
    terms: &[u64],
    over: &[u64],
    forms: &[Shape],
    left: &[u64],
    right: &[u64],
) -> Result<Given, Memory>
    requires named { AreBelow (length bank.old) named.now }
    requires terms { AreBelow (length bank.old) terms.now }
    requires over { AreBelow (length bank.old) over.now }
    requires forms { IsTrue (are_forms (length over.now) forms.now) }
    requires left { IsTrue (are_below (length over.now + length forms.now) left.now) }
    requires right { IsTrue (are_below (length over.now + length forms.now) right.now) }
    ensures extends { Extends bank.old bank.new }
    ensures distinct { IsDistinct bank.new }
    ensures ok { IfOk result (λ g. HasStep bank.new g (both_step rule
        (trees_at bank.old named.now) (trees_at bank.old terms.now)
        (trees_at (grown (picked bank.old over.now) forms.now) left.now)
        (trees_at (grown (picked bank.old over.now) forms.now) right.now))) }
{
    let places = grow(bank, alloc, over, forms)?;
    let left = fetch(alloc, places.as_slice(), left)?;
    let right = fetch(alloc, places.as_slice(), right)?;
    Ok(Given {
        rule,
        named: Vec::from_slice(alloc, named)?,
        terms: Vec::from_slice(alloc, terms)?,
        added: Sides::Both(left, right),
    })
}

/// The rule adds formulas to the formula f on one branch. The table of forms over `over` has them at these places.
pub fn gives(
    bank: &mut Bank,
    alloc: Global,
    rule: Rule,
    f: u64,
    over: &[u64],
    forms: &[Shape],
    added: &[u64],
) -> Result<Given, Memory>
    requires within { f < length bank.old }
    requires over { AreBelow (length bank.old) over.now }
    requires forms { IsTrue (are_forms (length over.now) forms.now) }
    requires added { IsTrue (are_below (length over.now + length forms.now) added.now) }
    ensures extends { Extends bank.old bank.new }
    ensures distinct { IsDistinct bank.new }
    ensures ok { IfOk result (λ g. HasStep bank.new g (alone rule (tree_at bank.old f)
        (trees_at (grown (picked bank.old over.now) forms.now) added.now))) }
{
    adds(bank, alloc, rule, &[f], &[], over, forms, added)
}
