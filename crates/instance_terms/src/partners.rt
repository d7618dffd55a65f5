//! What the partners of an atom give.
ghost use Rattle.std.specs.Prelude.{◌≡◌, ◌<◌, length, IfOk};
ghost use Rattle.term_bank.specs.Banks.{IsDistinct, Extends, tree_at};
ghost use Rattle.search_definition.specs.Instances.{signed_literal, sides_term, signed_term, literal_term};
ghost use Rattle.formula_rules.specs.Answers.{HasTerm};
ghost use Rattle.instance_terms.specs.Fresh.{fresh_of, signed_of};

use crate::fresh::{FreshNumbers, SignedAtom};
use crate::metas::{both_metas, own_metas};
use crate::term::instance_term;
use core_expr::Memory;
use formula_rules::is_literal;
use std::alloc::Global;
use term_bank::Bank;
use term_shapes::{Shape, shape_at};

/// The literal as a signed atom.
pub fn signed_literal(bank: &Bank, f: u64) -> SignedAtom
    requires { f < length bank.now }
    ensures signed { signed_of bank.now result ≡ signed_literal (tree_at bank.now f) }
    ensures below { result.atom < length bank.now }
{
    match shape_at(bank, f) {
        Shape::Not(a) => SignedAtom {
            holds: false,
            atom: a,
            metas: 0,
        },
        _ => SignedAtom {
            holds: true,
            atom: f,
            metas: 0,
        },
    }
}

/// What the two sides of an equation that is to fail give.
pub fn sides_term(
    bank: &mut Bank,
    alloc: Global,
    w: FreshNumbers,
    a: SignedAtom,
) -> Result<Option<u64>, Memory>
    requires { a.atom < length bank.old }
    ensures extends { Extends bank.old bank.new }
    ensures distinct { IsDistinct bank.new }
    ensures ok { IfOk result (λ o. HasTerm bank.new o
        (sides_term (fresh_of w) (signed_of bank.old a))) }
{
    bank.count();
    if a.holds {
        return Ok(None);
    }
    match shape_at(bank, a.atom) {
        Shape::Eq(s, t) => {
            let metas = own_metas(alloc, w, a.metas)?;
            instance_term(bank, alloc, w, metas.as_slice(), s, t)
        }
        _ => Ok(None),
    }
}

/// What an atom of opposite sign gives.
pub fn signed_term(
    bank: &mut Bank,
    alloc: Global,
    w: FreshNumbers,
    a: SignedAtom,
    c: SignedAtom,
) -> Result<Option<u64>, Memory>
    requires own { a.atom < length bank.old }
    requires partner { c.atom < length bank.old }
    ensures extends { Extends bank.old bank.new }
    ensures distinct { IsDistinct bank.new }
    ensures ok { IfOk result (λ o. HasTerm bank.new o
        (signed_term (fresh_of w) (signed_of bank.old a) (signed_of bank.old c))) }
{
    bank.count();
    if a.holds == c.holds {
        return Ok(None);
    }
    let metas = both_metas(alloc, w, a.metas, c.metas)?;
    instance_term(bank, alloc, w, metas.as_slice(), a.atom, c.atom)
}

/// What a literal of opposite sign gives.
pub fn literal_term(
    bank: &mut Bank,
    alloc: Global,
    w: FreshNumbers,
    a: SignedAtom,
    f: u64,
) -> Result<Option<u64>, Memory>
    requires own { a.atom < length bank.old }
    requires literal { f < length bank.old }
    ensures extends { Extends bank.old bank.new }
    ensures distinct { IsDistinct bank.new }
    ensures ok { IfOk result (λ o. HasTerm bank.new o
        (literal_term (fresh_of w) (signed_of bank.old a) (tree_at bank.old f))) }
{
    bank.count();
    if !is_literal(bank, f) {
        return Ok(None);
    }
    let c = signed_literal(bank, f);
    signed_term(bank, alloc, w, a, c)
}
