//! The signed atoms of a universal.
ghost use Rattle.std.specs.Prelude.{◌≡◌, ◌-◌, ◌^◌, ◌<◌, length, IfOk, OnOk};
ghost use Rattle.core_expr.specs.Put.{IsScoped};
ghost use Rattle.term_bank.specs.Banks.{IsDistinct, Extends, tree_at};
ghost use Rattle.search_definition.specs.Instances.{own_meta, partner_meta, signed_atoms};
ghost use Rattle.formula_rules.specs.Answers.{universal_of};
ghost use Rattle.instance_terms.specs.Fresh.{fresh_of, meta_from};
ghost use Rattle.instance_terms.specs.Atoms.{IsPart};
ghost use Rattle.instance_terms.specs.Tasks.{tasks_pushed, atoms_noted, signeds, AtomsBelow, IsTurn};

use crate::expand::{Expansion, Part, expand};
use crate::fresh::{FreshNumbers, SignedAtom};
use crate::metas::meta_at;
use core_expr::Memory;
use formula_rules::Quantified;
use search_definition::atoms_have_room;
use std::alloc::Global;
use term_bank::Bank;
use term_shapes::{Shape, make};

/// A formula that is to be taken apart, and how many steps led to it.
#[derive(Clone, Copy, Debug)]
pub struct Task {
    pub part: Part,
    pub steps: u64,
}

/// Pushes what stands for a formula, the first uppermost.
fn push_parts(stack: &mut Vec<Task>, e: Expansion, steps: u64) -> Result<(), Memory>
    ensures { OnOk result (stack.new.items ≡ tasks_pushed stack.old.items e steps) }
{
    match e {
        Expansion::Nothing => {}
        Expansion::Atom => {}
        Expansion::One(a) => stack.push(Task { part: a, steps })?,
        Expansion::Two(a, b) => {
            stack.push(Task { part: b, steps })?;
            stack.push(Task { part: a, steps })?;
        }
        Expansion::Four(a, b, c, d) => {
            stack.push(Task { part: d, steps })?;
            stack.push(Task { part: c, steps })?;
            stack.push(Task { part: b, steps })?;
            stack.push(Task { part: a, steps })?;
        }
    }
    Ok(())
}

/// Notes the formula, where it is an atom.
fn note(found: &mut Vec<SignedAtom>, p: Part, e: Expansion) -> Result<(), Memory>
    ensures { OnOk result (found.new.items ≡ atoms_noted found.old.items p e) }
{
    match e {
        Expansion::Atom => found.push(SignedAtom {
            holds: p.holds,
            atom: p.formula,
            metas: p.metas,
        })?,
        _ => {}
    }
    Ok(())
}

/// Takes the uppermost formula apart.
fn turn(
    bank: &mut Bank,
    alloc: Global,
    first: u64,
    task: Task,
    found: &mut Vec<SignedAtom>,
    stack: &mut Vec<Task>,
) -> Result<(), Memory>
    requires task { IsPart bank.old task.part }
    requires steps { task.steps < 2 ^ 64 - 1 }
    ensures extends { Extends bank.old bank.new }
    ensures distinct { IsDistinct bank.new }
    ensures ok { OnOk result (IsTurn bank.old bank.new (meta_from first) task
        found.old.items found.new.items stack.old.items stack.new.items) }
{
    let e = expand(bank, alloc, first, task.part)?;
    note(found, task.part, e)?;
    push_parts(stack, e, task.steps + 1)
}

/// The signed atoms of a universal, where the metavariables begin at `first`. More than 2^64 - 2 steps are a want of memory.
fn atoms_from(
    bank: &mut Bank,
    alloc: Global,
    first: u64,
    u: Quantified,
) -> Result<Vec<SignedAtom>, Memory>
    requires within { u.body < length bank.old }
    requires scoped { IsScoped 1 (tree_at bank.old u.body) }
    ensures extends { Extends bank.old bank.new }
    ensures distinct { IsDistinct bank.new }
    ensures below { IfOk result (λ v. AtomsBelow (length bank.new) v.items) }
    ensures ok { IfOk result (λ v. signeds bank.new v.items
        ≡ signed_atoms (meta_from first) (universal_of bank.old u)) }
{
    bank.count();
    atoms_have_room();
    let meta = make(bank, alloc, Shape::Symbol(meta_at(first, 0)?, 0))?;
    let formula = bank.inst(alloc, u.body, meta)?;
    let part = Part {
        holds: u.holds,
        formula,
        metas: 1,
    };
    let mut found = Vec::new(alloc);
    let mut stack = Vec::new(alloc);
    stack.push(Task { part, steps: 0 })?;
    for _ in 0..u64::MAX - 1 {
        let Some(task) = stack.pop() else {
            return Ok(found);
        };
        turn(bank, alloc, first, task, &mut found, &mut stack)?;
    }
    Err(Memory)
}

/// The signed atoms of the universal that is instantiated, with metavariables of its own.
pub fn own_atoms(
    bank: &mut Bank,
    alloc: Global,
    w: FreshNumbers,
    u: Quantified,
) -> Result<Vec<SignedAtom>, Memory>
    requires within { u.body < length bank.old }
    requires scoped { IsScoped 1 (tree_at bank.old u.body) }
    ensures extends { Extends bank.old bank.new }
    ensures distinct { IsDistinct bank.new }
    ensures below { IfOk result (λ v. AtomsBelow (length bank.new) v.items) }
    ensures ok { IfOk result (λ v. signeds bank.new v.items
        ≡ signed_atoms (own_meta (fresh_of w)) (universal_of bank.old u)) }
{
    atoms_from(bank, alloc, w.metas, u)
}

/// The signed atoms of a partner, with metavariables of its own.
pub fn partner_atoms(
    bank: &mut Bank,
    alloc: Global,
    w: FreshNumbers,
    u: Quantified,
) -> Result<Vec<SignedAtom>, Memory>
    requires within { u.body < length bank.old }
    requires scoped { IsScoped 1 (tree_at bank.old u.body) }
    ensures extends { Extends bank.old bank.new }
    ensures distinct { IsDistinct bank.new }
    ensures below { IfOk result (λ v. AtomsBelow (length bank.new) v.items) }
    ensures ok { IfOk result (λ v. signeds bank.new v.items
        ≡ signed_atoms (partner_meta (fresh_of w)) (universal_of bank.old u)) }
{
    bank.count();
    let Some(first) = w.metas.checked_add(1) else {
        return Err(Memory);
    };
    atoms_from(bank, alloc, first, u)
}
