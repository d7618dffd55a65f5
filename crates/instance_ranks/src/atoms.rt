//! The first new instance of a universal, by its atoms in order and their partners in order.
ghost use Rattle.std.specs.Prelude.{◌<◌, length, IfOk};
ghost use Rattle.term_bank.specs.Banks.{IsDistinct, Extends, tree_at};
ghost use Rattle.search_definition.specs.Instances.{found_term};
ghost use Rattle.branch_state.specs.Parts.{Holds, shown};
ghost use Rattle.tableau_search.specs.Entries.{AreKnown, AreClosed, branch_of};
ghost use Rattle.formula_rules.specs.Answers.{HasTerm, universal_of};
ghost use Rattle.instance_terms.specs.Fresh.{fresh_of};
ghost use Rattle.instance_terms.specs.Tasks.{signeds, AtomsBelow};
ghost use Rattle.instance_ranks.specs.Seeking.{IsBody, IsSought, aim_of};
ghost use Rattle.instance_ranks.specs.Atoms.{of_side, of_sides, where_held, where_failed, from_universals, from_literals, of_atom, of_atoms};

use crate::entries::{Partner, by_entries};
use crate::fresh_terms::if_new;
use crate::partners::Sought;
use branch_state::Parts;
use core_expr::Memory;
use formula_rules::Quantified;
use instance_terms::{FreshNumbers, SignedAtom, is_side, own_atoms, own_metas, sides_term};
use std::alloc::Global;
use term_bank::Bank;
use term_shapes::{Shape, shape_at};

/// The term of the first new instance by the side l of an equation that is to hold.
fn by_side(
    bank: &mut Bank,
    alloc: Global,
    parts: &Parts,
    w: FreshNumbers,
    s: Sought,
    l: u64,
) -> Result<Option<u64>, Memory>
    requires held { Holds parts.now }
    requires known { AreKnown (length bank.old) (shown parts.now).now }
    requires closed { AreClosed bank.old (shown parts.now).now }
    requires sought { IsSought bank.old s }
    requires side { l < length bank.old }
    ensures extends { Extends bank.old bank.new }
    ensures distinct { IsDistinct bank.new }
    ensures ok { IfOk result (λ o. HasTerm bank.new o (of_side (fresh_of w)
        (aim_of bank.old (shown parts.now).now s) (tree_at bank.old l))) }
{
    let _count = bank.count();
    let metas = own_metas(alloc, w, s.atom.metas)?;
    if !is_side(bank, alloc, metas.as_slice(), l)? {
        return Ok(None);
    }
    by_entries(bank, alloc, parts, w, s, Partner::Side(l))
}

/// The term of the first new instance by one of the sides l and r of an equation that is to hold.
fn by_either_side(
    bank: &mut Bank,
    alloc: Global,
    parts: &Parts,
    w: FreshNumbers,
    s: Sought,
    l: u64,
    r: u64,
) -> Result<Option<u64>, Memory>
    requires held { Holds parts.now }
    requires known { AreKnown (length bank.old) (shown parts.now).now }
    requires closed { AreClosed bank.old (shown parts.now).now }
    requires sought { IsSought bank.old s }
    requires left { l < length bank.old }
    requires right { r < length bank.old }
    ensures extends { Extends bank.old bank.new }
    ensures distinct { IsDistinct bank.new }
    ensures ok { IfOk result (λ o. HasTerm bank.new o (of_sides (fresh_of w)
        (aim_of bank.old (shown parts.now).now s) (tree_at bank.old l) (tree_at bank.old r))) }
{
    match by_side(bank, alloc, parts, w, s, l)? {
        Some(term) => Ok(Some(term)),
        None => by_side(bank, alloc, parts, w, s, r),
    }
}

/// The term of the first new instance by a side of the atom, where that is an equation and is to hold.
fn by_held_sides(
    bank: &mut Bank,
    alloc: Global,
    parts: &Parts,
    w: FreshNumbers,
    s: Sought,
) -> Result<Option<u64>, Memory>
    requires held { Holds parts.now }
    requires known { AreKnown (length bank.old) (shown parts.now).now }
    requires closed { AreClosed bank.old (shown parts.now).now }
    requires sought { IsSought bank.old s }
    ensures extends { Extends bank.old bank.new }
    ensures distinct { IsDistinct bank.new }
    ensures ok { IfOk result (λ o. HasTerm bank.new o (where_held (fresh_of w)
        (aim_of bank.old (shown parts.now).now s))) }
{
    let _count = bank.count();
    if !s.atom.holds {
        return Ok(None);
    }
    match shape_at(bank, s.atom.atom) {
        Shape::Eq(l, r) => by_either_side(bank, alloc, parts, w, s, l, r),
        _ => Ok(None),
    }
}

/// The term of the first new instance by an atom of a live universal, or else by a side.
fn from_universals(
    bank: &mut Bank,
    alloc: Global,
    parts: &Parts,
    w: FreshNumbers,
    s: Sought,
) -> Result<Option<u64>, Memory>
    requires held { Holds parts.now }
    requires known { AreKnown (length bank.old) (shown parts.now).now }
    requires closed { AreClosed bank.old (shown parts.now).now }
    requires sought { IsSought bank.old s }
    ensures extends { Extends bank.old bank.new }
    ensures distinct { IsDistinct bank.new }
    ensures ok { IfOk result (λ o. HasTerm bank.new o (from_universals (fresh_of w)
        (aim_of bank.old (shown parts.now).now s))) }
{
    match by_entries(bank, alloc, parts, w, s, Partner::Opposite)? {
        Some(term) => Ok(Some(term)),
        None => by_held_sides(bank, alloc, parts, w, s),
    }
}

/// The term of the first new instance by a live literal, or else by an atom of a live universal, or else by a side.
fn from_literals(
    bank: &mut Bank,
    alloc: Global,
    parts: &Parts,
    w: FreshNumbers,
    s: Sought,
) -> Result<Option<u64>, Memory>
    requires held { Holds parts.now }
    requires known { AreKnown (length bank.old) (shown parts.now).now }
    requires closed { AreClosed bank.old (shown parts.now).now }
    requires sought { IsSought bank.old s }
    ensures extends { Extends bank.old bank.new }
    ensures distinct { IsDistinct bank.new }
    ensures ok { IfOk result (λ o. HasTerm bank.new o (from_literals (fresh_of w)
        (aim_of bank.old (shown parts.now).now s))) }
{
    match by_entries(bank, alloc, parts, w, s, Partner::Literal)? {
        Some(term) => Ok(Some(term)),
        None => from_universals(bank, alloc, parts, w, s),
    }
}

/// The term of the new instance by the two sides of the atom, where that is an equation and is to fail.
fn by_failed_sides(
    bank: &mut Bank,
    alloc: Global,
    parts: &Parts,
    w: FreshNumbers,
    s: Sought,
) -> Result<Option<u64>, Memory>
    requires held { Holds parts.now }
    requires known { AreKnown (length bank.old) (shown parts.now).now }
    requires sought { IsSought bank.old s }
    ensures extends { Extends bank.old bank.new }
    ensures distinct { IsDistinct bank.new }
    ensures ok { IfOk result (λ o. HasTerm bank.new o (where_failed (fresh_of w)
        (aim_of bank.old (shown parts.now).now s))) }
{
    let term = sides_term(bank, alloc, w, s.atom)?;
    if_new(bank, alloc, parts, s.universal, term)
}

/// The term of the first new instance by a partner of the atom, kind by kind.
fn by_atom(
    bank: &mut Bank,
    alloc: Global,
    parts: &Parts,
    w: FreshNumbers,
    s: Sought,
) -> Result<Option<u64>, Memory>
    requires held { Holds parts.now }
    requires known { AreKnown (length bank.old) (shown parts.now).now }
    requires closed { AreClosed bank.old (shown parts.now).now }
    requires sought { IsSought bank.old s }
    ensures extends { Extends bank.old bank.new }
    ensures distinct { IsDistinct bank.new }
    ensures ok { IfOk result (λ o. HasTerm bank.new o (of_atom (fresh_of w)
        (aim_of bank.old (shown parts.now).now s))) }
{
    match by_failed_sides(bank, alloc, parts, w, s)? {
        Some(term) => Ok(Some(term)),
        None => from_literals(bank, alloc, parts, w, s),
    }
}

/// The term of the first new instance by a partner of one of these atoms of the universal.
fn by_own_atoms(
    bank: &mut Bank,
    alloc: Global,
    parts: &Parts,
    w: FreshNumbers,
    u: Quantified,
    atoms: &[SignedAtom],
) -> Result<Option<u64>, Memory>
    requires held { Holds parts.now }
    requires known { AreKnown (length bank.old) (shown parts.now).now }
    requires closed { AreClosed bank.old (shown parts.now).now }
    requires body { IsBody bank.old u }
    requires below { AtomsBelow (length bank.old) atoms.now }
    ensures extends { Extends bank.old bank.new }
    ensures distinct { IsDistinct bank.new }
    ensures ok { IfOk result (λ o. HasTerm bank.new o (of_atoms (fresh_of w)
        (branch_of bank.old (shown parts.now).now) (universal_of bank.old u)
        (signeds bank.old atoms.now))) }
{
    let _count = bank.count();
    for i in 0..atoms.len() {
        let s = Sought {
            universal: u,
            atom: atoms[i],
        };
        match by_atom(bank, alloc, parts, w, s)? {
            Some(term) => return Ok(Some(term)),
            None => {}
        }
    }
    Ok(None)
}

/// The term of the first new instance of the universal, by its atoms in order and their partners in order.
pub fn found_term(
    bank: &mut Bank,
    alloc: Global,
    parts: &Parts,
    w: FreshNumbers,
    u: Quantified,
) -> Result<Option<u64>, Memory>
    requires held { Holds parts.now }
    requires known { AreKnown (length bank.old) (shown parts.now).now }
    requires closed { AreClosed bank.old (shown parts.now).now }
    requires body { IsBody bank.old u }
    ensures extends { Extends bank.old bank.new }
    ensures distinct { IsDistinct bank.new }
    ensures ok { IfOk result (λ o. HasTerm bank.new o (found_term
        (branch_of bank.old (shown parts.now).now) (fresh_of w) (universal_of bank.old u))) }
{
    let atoms = own_atoms(bank, alloc, w, u)?;
    by_own_atoms(bank, alloc, parts, w, u, atoms.as_slice())
}
