//! New instances by a partner of an atom.
ghost use Rattle.std.specs.Prelude.{◌<◌, length, IfOk};
ghost use Rattle.core_expr.specs.Put.{IsScoped};
ghost use Rattle.core_expr.specs.Nodes.{AreBelow, picked};
ghost use Rattle.term_bank.specs.Banks.{IsDistinct, Extends, tree_at};
ghost use Rattle.branch_state.specs.Parts.{Holds, shown};
ghost use Rattle.tableau_search.specs.Entries.{AreKnown};
ghost use Rattle.formula_rules.specs.Answers.{HasTerm, universal_of};
ghost use Rattle.instance_terms.specs.Fresh.{fresh_of, signed_of};
ghost use Rattle.instance_terms.specs.Tasks.{signeds, AtomsBelow};
ghost use Rattle.instance_ranks.specs.Seeking.{IsBody, IsSought, aim_of};
ghost use Rattle.instance_ranks.specs.Partners.{literal_at, atom_at, by_atoms, universal_by, universal_at, subterm_at, by_terms, subterms_at};

use crate::fresh_terms::if_new;
use branch_state::Parts;
use core_expr::Memory;
use formula_rules::{Quantified, is_literal, universal};
use instance_terms::{
    FreshNumbers, SignedAtom, instance_term, literal_term, own_metas, partner_atoms, signed_term,
};
use std::alloc::Global;
use term_bank::Bank;
use term_order::closed_subterms;

/// A universal for which an instance is looked for, and the one of its atoms whose partners are tried.
#[derive(Clone, Copy, Debug)]
pub struct Sought {
    pub universal: Quantified,
    pub atom: SignedAtom,
}

/// The term of the new instance by a literal, if there is one.
pub fn at_literal(
    bank: &mut Bank,
    alloc: Global,
    parts: &Parts,
    w: FreshNumbers,
    s: Sought,
    f: u64,
) -> Result<Option<u64>, Memory>
    requires held { Holds parts.now }
    requires known { AreKnown (length bank.old) (shown parts.now).now }
    requires sought { IsSought bank.old s }
    requires within { f < length bank.old }
    ensures extends { Extends bank.old bank.new }
    ensures distinct { IsDistinct bank.new }
    ensures ok { IfOk result (λ o. HasTerm bank.new o (literal_at (fresh_of w)
        (aim_of bank.old (shown parts.now).now s) (tree_at bank.old f))) }
{
    let term = literal_term(bank, alloc, w, s.atom, f)?;
    if_new(bank, alloc, parts, s.universal, term)
}

/// The term of the new instance by an atom of opposite sign, if there is one.
fn at_atom(
    bank: &mut Bank,
    alloc: Global,
    parts: &Parts,
    w: FreshNumbers,
    s: Sought,
    c: SignedAtom,
) -> Result<Option<u64>, Memory>
    requires held { Holds parts.now }
    requires known { AreKnown (length bank.old) (shown parts.now).now }
    requires sought { IsSought bank.old s }
    requires within { c.atom < length bank.old }
    ensures extends { Extends bank.old bank.new }
    ensures distinct { IsDistinct bank.new }
    ensures ok { IfOk result (λ o. HasTerm bank.new o (atom_at (fresh_of w)
        (aim_of bank.old (shown parts.now).now s) (signed_of bank.old c))) }
{
    let term = signed_term(bank, alloc, w, s.atom, c)?;
    if_new(bank, alloc, parts, s.universal, term)
}

/// The term of the first new instance by one of these atoms.
fn by_atoms(
    bank: &mut Bank,
    alloc: Global,
    parts: &Parts,
    w: FreshNumbers,
    s: Sought,
    atoms: &[SignedAtom],
) -> Result<Option<u64>, Memory>
    requires held { Holds parts.now }
    requires known { AreKnown (length bank.old) (shown parts.now).now }
    requires sought { IsSought bank.old s }
    requires below { AtomsBelow (length bank.old) atoms.now }
    ensures extends { Extends bank.old bank.new }
    ensures distinct { IsDistinct bank.new }
    ensures ok { IfOk result (λ o. HasTerm bank.new o (by_atoms (fresh_of w)
        (aim_of bank.old (shown parts.now).now s) (signeds bank.old atoms.now))) }
{
    let _count = bank.count();
    for i in 0..atoms.len() {
        match at_atom(bank, alloc, parts, w, s, atoms[i])? {
            Some(term) => return Ok(Some(term)),
            None => {}
        }
    }
    Ok(None)
}

/// The term of the first new instance by an atom of the universal v, with metavariables of its own.
fn by_universal(
    bank: &mut Bank,
    alloc: Global,
    parts: &Parts,
    w: FreshNumbers,
    s: Sought,
    v: Quantified,
) -> Result<Option<u64>, Memory>
    requires held { Holds parts.now }
    requires known { AreKnown (length bank.old) (shown parts.now).now }
    requires sought { IsSought bank.old s }
    requires body { IsBody bank.old v }
    ensures extends { Extends bank.old bank.new }
    ensures distinct { IsDistinct bank.new }
    ensures ok { IfOk result (λ o. HasTerm bank.new o (universal_by (fresh_of w)
        (aim_of bank.old (shown parts.now).now s) (universal_of bank.old v))) }
{
    let atoms = partner_atoms(bank, alloc, w, v)?;
    by_atoms(bank, alloc, parts, w, s, atoms.as_slice())
}

/// The term of the first new instance by an atom of the formula, where it is a universal.
pub fn at_universal(
    bank: &mut Bank,
    alloc: Global,
    parts: &Parts,
    w: FreshNumbers,
    s: Sought,
    f: u64,
) -> Result<Option<u64>, Memory>
    requires held { Holds parts.now }
    requires known { AreKnown (length bank.old) (shown parts.now).now }
    requires sought { IsSought bank.old s }
    requires within { f < length bank.old }
    requires closed { IsScoped 0 (tree_at bank.old f) }
    ensures extends { Extends bank.old bank.new }
    ensures distinct { IsDistinct bank.new }
    ensures ok { IfOk result (λ o. HasTerm bank.new o (universal_at (fresh_of w)
        (aim_of bank.old (shown parts.now).now s) (tree_at bank.old f))) }
{
    let _count = bank.count();
    match universal(bank, f) {
        Some(v) => by_universal(bank, alloc, parts, w, s, v),
        None => Ok(None),
    }
}

/// The term of the new instance by a term, for the side l of the atom.
fn at_subterm(
    bank: &mut Bank,
    alloc: Global,
    parts: &Parts,
    w: FreshNumbers,
    s: Sought,
    l: u64,
    t: u64,
) -> Result<Option<u64>, Memory>
    requires held { Holds parts.now }
    requires known { AreKnown (length bank.old) (shown parts.now).now }
    requires sought { IsSought bank.old s }
    requires side { l < length bank.old }
    requires within { t < length bank.old }
    ensures extends { Extends bank.old bank.new }
    ensures distinct { IsDistinct bank.new }
    ensures ok { IfOk result (λ o. HasTerm bank.new o (subterm_at (fresh_of w)
        (aim_of bank.old (shown parts.now).now s) (tree_at bank.old l) (tree_at bank.old t))) }
{
    let _count = bank.count();
    let metas = own_metas(alloc, w, s.atom.metas)?;
    let term = instance_term(bank, alloc, w, metas.as_slice(), l, t)?;
    if_new(bank, alloc, parts, s.universal, term)
}

/// The term of the first new instance by one of these terms, for the side l of the atom.
fn by_terms(
    bank: &mut Bank,
    alloc: Global,
    parts: &Parts,
    w: FreshNumbers,
    s: Sought,
    l: u64,
    terms: &[u64],
) -> Result<Option<u64>, Memory>
    requires held { Holds parts.now }
    requires known { AreKnown (length bank.old) (shown parts.now).now }
    requires sought { IsSought bank.old s }
    requires side { l < length bank.old }
    requires below { AreBelow (length bank.old) terms.now }
    ensures extends { Extends bank.old bank.new }
    ensures distinct { IsDistinct bank.new }
    ensures ok { IfOk result (λ o. HasTerm bank.new o (by_terms (fresh_of w)
        (aim_of bank.old (shown parts.now).now s) (tree_at bank.old l)
        (picked bank.old terms.now))) }
{
    let _count = bank.count();
    for i in 0..terms.len() {
        match at_subterm(bank, alloc, parts, w, s, l, terms[i])? {
            Some(term) => return Ok(Some(term)),
            None => {}
        }
    }
    Ok(None)
}

/// The term of the first new instance by a closed subterm of the formula, where it is a literal, for the side l of the atom.
pub fn at_subterms(
    bank: &mut Bank,
    alloc: Global,
    parts: &Parts,
    w: FreshNumbers,
    s: Sought,
    l: u64,
    f: u64,
) -> Result<Option<u64>, Memory>
    requires held { Holds parts.now }
    requires known { AreKnown (length bank.old) (shown parts.now).now }
    requires sought { IsSought bank.old s }
    requires side { l < length bank.old }
    requires within { f < length bank.old }
    ensures extends { Extends bank.old bank.new }
    ensures distinct { IsDistinct bank.new }
    ensures ok { IfOk result (λ o. HasTerm bank.new o (subterms_at (fresh_of w)
        (aim_of bank.old (shown parts.now).now s) (tree_at bank.old l) (tree_at bank.old f))) }
{
    let _count = bank.count();
    if !is_literal(bank, f) {
        return Ok(None);
    }
    let terms = closed_subterms(bank, alloc, f)?;
    by_terms(bank, alloc, parts, w, s, l, terms.as_slice())
}
