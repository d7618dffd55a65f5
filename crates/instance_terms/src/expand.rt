//! One step of taking a formula apart into signed atoms.
ghost use Rattle.std.specs.Prelude.{◌≡◌, ◌<◌, length, IfOk};
ghost use Rattle.core_expr.specs.Put.{IsScoped};
ghost use Rattle.core_expr.specs.Tree.{in_};
ghost use Rattle.term_bank.specs.Banks.{IsDistinct, Extends, tree_at};
ghost use Rattle.search_definition.specs.Instances.{is_kept_filter, has_no_parts, taken_apart};
ghost use Rattle.formula_rules.specs.Answers.{HasTerm};
ghost use Rattle.instance_terms.specs.Fresh.{meta_from};
ghost use Rattle.instance_terms.specs.Atoms.{IsPart, part_of, IsOpened, IsAtomStep, IsExpansion};

use crate::metas::meta_at;
use core_expr::Memory;
use formula_rules::left_side;
use std::alloc::Global;
use term_bank::Bank;
use term_shapes::{Shape, make, shape_at};

/// A formula by its index with its sign, and the number of metavariables that it stands under.
#[derive(Clone, Copy, Debug)]
pub struct Part {
    pub holds: bool,
    pub formula: u64,
    pub metas: u64,
}

/// What stands for a formula: nothing, the formula itself as an atom, or the atoms of these, in order.
#[derive(Clone, Copy, Debug)]
pub enum Expansion {
    Nothing,
    Atom,
    One(Part),
    Two(Part, Part),
    Four(Part, Part, Part, Part),
}

/// Whether the term is a single node.
pub fn has_no_parts(bank: &Bank, t: u64) -> bool
    requires { t < length bank.now }
    ensures { result ≡ has_no_parts (tree_at bank.now t) }
{
    bank.node(t).unwrap().parts.as_slice().is_empty()
}

/// Whether the set is given by a filter, and the term t has parts.
fn keeps_filter(bank: &Bank, t: u64, set: u64) -> bool
    requires term { t < length bank.now }
    requires set { set < length bank.now }
    ensures { result ≡ is_kept_filter (in_ (tree_at bank.now t) (tree_at bank.now set)) }
{
    match shape_at(bank, set) {
        Shape::Filter(_, _) => !has_no_parts(bank, t),
        _ => false,
    }
}

/// Whether the formula is `t \in {x \in A : P}` where t has parts.
fn is_kept_filter(bank: &Bank, f: u64) -> bool
    requires { f < length bank.now }
    ensures { result ≡ is_kept_filter (tree_at bank.now f) }
{
    match shape_at(bank, f) {
        Shape::In(t, set) => keeps_filter(bank, t, set),
        _ => false,
    }
}

/// The right side of the schema that the formula is a left side of, where it is one that is taken apart.
fn taken_apart(bank: &mut Bank, alloc: Global, f: u64) -> Result<Option<u64>, Memory>
    requires within { f < length bank.old }
    requires closed { IsScoped 0 (tree_at bank.old f) }
    ensures extends { Extends bank.old bank.new }
    ensures distinct { IsDistinct bank.new }
    ensures ok { IfOk result (λ o. HasTerm bank.new o (taken_apart (tree_at bank.old f))) }
{
    bank.count();
    if is_kept_filter(bank, f) {
        return Ok(None);
    }
    let Some(left) = left_side(bank, alloc, f)? else {
        return Ok(None);
    };
    if left.schema <= 10 {
        Ok(Some(left.right))
    } else {
        Ok(None)
    }
}

/// A formula with this sign, under the metavariables of p.
fn with_sign(p: Part, holds: bool, formula: u64) -> Part
    ensures { result ≡ part_of p holds formula }
{
    Part {
        holds,
        formula,
        metas: p.metas,
    }
}

/// The quantified formula's body with the next metavariable put in, with the same sign.
fn opened(
    bank: &mut Bank,
    alloc: Global,
    first: u64,
    p: Part,
    body: u64,
) -> Result<Expansion, Memory>
    requires within { body < length bank.old }
    requires scoped { IsScoped 1 (tree_at bank.old body) }
    ensures extends { Extends bank.old bank.new }
    ensures distinct { IsDistinct bank.new }
    ensures ok { IfOk result (λ e.
        IsOpened bank.new (meta_from first) p (tree_at bank.old body) e) }
{
    bank.count();
    let Some(metas) = p.metas.checked_add(1) else {
        return Err(Memory);
    };
    let number = meta_at(first, p.metas)?;
    let meta = make(bank, alloc, Shape::Symbol(number, 0))?;
    let formula = bank.inst(alloc, body, meta)?;
    Ok(Expansion::One(Part {
        holds: p.holds,
        formula,
        metas,
    }))
}

/// What stands for a formula that is no connective, quantifier or truth value.
fn atom_of(bank: &mut Bank, alloc: Global, p: Part) -> Result<Expansion, Memory>
    requires { IsPart bank.old p }
    ensures extends { Extends bank.old bank.new }
    ensures distinct { IsDistinct bank.new }
    ensures ok { IfOk result (λ e. IsAtomStep bank.new p (tree_at bank.old p.formula) e) }
{
    match taken_apart(bank, alloc, p.formula)? {
        Some(right) => Ok(Expansion::One(with_sign(p, p.holds, right))),
        None => Ok(Expansion::Atom),
    }
}

/// What stands for a formula with its sign.
pub fn expand(bank: &mut Bank, alloc: Global, first: u64, p: Part) -> Result<Expansion, Memory>
    requires { IsPart bank.old p }
    ensures extends { Extends bank.old bank.new }
    ensures distinct { IsDistinct bank.new }
    ensures ok { IfOk result (λ e.
        IsExpansion bank.new (meta_from first) p (tree_at bank.old p.formula) e) }
{
    bank.count();
    match shape_at(bank, p.formula) {
        Shape::True => Ok(Expansion::Nothing),
        Shape::False => Ok(Expansion::Nothing),
        Shape::Not(a) => Ok(Expansion::One(with_sign(p, !p.holds, a))),
        Shape::And(a, b) => Ok(Expansion::Two(with_sign(p, p.holds, a), with_sign(p, p.holds, b))),
        Shape::Or(a, b) => Ok(Expansion::Two(with_sign(p, p.holds, a), with_sign(p, p.holds, b))),
        Shape::Imp(a, b) => Ok(Expansion::Two(with_sign(p, !p.holds, a), with_sign(p, p.holds, b))),
        Shape::Iff(a, b) => Ok(Expansion::Four(
            with_sign(p, true, a),
            with_sign(p, false, a),
            with_sign(p, true, b),
            with_sign(p, false, b),
        )),
        Shape::All(body) => {
            if p.holds {
                opened(bank, alloc, first, p, body)
            } else {
                Ok(Expansion::Nothing)
            }
        }
        Shape::Ex(body) => {
            if p.holds {
                Ok(Expansion::Nothing)
            } else {
                opened(bank, alloc, first, p, body)
            }
        }
        _ => atom_of(bank, alloc, p),
    }
}
