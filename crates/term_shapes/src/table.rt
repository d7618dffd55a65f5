//! Terms as tables of forms, put into a bank.
ghost use Rattle.std.specs.Prelude.{◌≡◌, ◌<◌, ◌≤◌, length, IfOk, IsTrue};
ghost use Rattle.std.proofs.Common.{get_or};
ghost use Rattle.core_expr.specs.Nodes.{AreBelow, IsNode, picked};
ghost use Rattle.term_bank.specs.Banks.{IsDistinct, Extends, HasTree};
ghost use Rattle.term_shapes.specs.Shapes.{tree_of, node_in};
ghost use Rattle.term_shapes.specs.Forms.{is_form, are_forms, grown, built, cell_over, ArePlaced};

use crate::cell::{Cell, cell_for};
use crate::form::make_cell;
use crate::shape::Shape;
use core_expr::Memory;
use std::alloc::Global;
use term_bank::Bank;

/// The index at a place.
fn place_at(places: &[u64], i: u64) -> u64
    requires { i < length places.now }
    ensures { result ≡ get_or places.now i 0 }
{
    places[i as usize]
}

/// The node over the indices at its places.
fn cell_over(places: &[u64], cell: Cell) -> Cell
    requires { IsNode (node_in cell) (length places.now) }
    ensures { result ≡ cell_over places.now cell }
{
    match cell {
        Cell::One(head, a) => Cell::One(head, place_at(places, a)),
        Cell::Two(head, a, b) => Cell::Two(head, place_at(places, a), place_at(places, b)),
        Cell::Three(head, a, b, c) => Cell::Three(
            head,
            place_at(places, a),
            place_at(places, b),
            place_at(places, c),
        ),
        leaf => leaf,
    }
}

/// The index of the tree of a form whose parts are places.
fn add_form(bank: &mut Bank, alloc: Global, places: &[u64], form: Shape) -> Result<u64, Memory>
    requires form { IsTrue (is_form (length places.now) form) }
    requires places { AreBelow (length bank.old) places.now }
    ensures extends { Extends bank.old bank.new }
    ensures distinct { IsDistinct bank.new }
    ensures ok { IfOk result (λ k. HasTree bank.new k (tree_of (picked bank.old places.now) form)) }
{
    make_cell(bank, alloc, cell_over(places, cell_for(form)))
}

/// The indices of these terms and then of the trees of these forms. The parts of a form are places: the terms come first, and
/// then the trees of the forms before it.
pub fn grow(
    bank: &mut Bank,
    alloc: Global,
    terms: &[u64],
    forms: &[Shape],
) -> Result<Vec<u64>, Memory>
    requires terms { AreBelow (length bank.old) terms.now }
    requires forms { IsTrue (are_forms (length terms.now) forms.now) }
    ensures extends { Extends bank.old bank.new }
    ensures distinct { IsDistinct bank.new }
    ensures ok { IfOk result (λ places.
        ArePlaced bank.new (grown (picked bank.old terms.now) forms.now) places.items) }
    ensures count { IfOk result (λ places.
        length forms.now ≤ length places.items) }
{
    let _count = bank.count();
    let mut places = Vec::from_slice(alloc, terms)?;
    for form in forms {
        let place = add_form(bank, alloc, places.as_slice(), *form)?;
        places.push(place)?;
    }
    Ok(places)
}

/// The index of the last of the trees of these forms, over places as `grow` has them.
pub fn build(bank: &mut Bank, alloc: Global, terms: &[u64], forms: &[Shape]) -> Result<u64, Memory>
    requires terms { AreBelow (length bank.old) terms.now }
    requires forms { IsTrue (are_forms (length terms.now) forms.now) }
    requires some { 0 < length forms.now }
    ensures extends { Extends bank.old bank.new }
    ensures distinct { IsDistinct bank.new }
    ensures ok { IfOk result (λ k. HasTree bank.new k (built (picked bank.old terms.now) forms.now)) }
{
    let places = grow(bank, alloc, terms, forms)?;
    Ok(places[places.len() - 1])
}
