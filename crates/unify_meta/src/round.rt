//! One round of the unifier.
ghost use Rattle.std.specs.Prelude.{length, IfOk};
ghost use Rattle.term_bank.specs.Banks.{IsDistinct, Extends};
ghost use Rattle.unify_meta.specs.Disagreements.{IsAssignment};
ghost use Rattle.unify_meta.specs.Rounds.{IsPending, IsBoundTo, IsRound};

use crate::binding::BoundMeta;
use crate::disagreement::{Assignment, Disagreement, first_disagreement};
use crate::metas::without;
use crate::put_in::{extended, may_bind, put_in};
use core_expr::Memory;
use std::alloc::Global;
use term_bank::Bank;

/// Two terms that are to become equal, by their indices, the metavariables that are not bound yet, and the bindings so far.
#[derive(Drop)]
pub struct Pending {
    pub free: Vec<u64>,
    pub bound: Vec<BoundMeta>,
    pub left: u64,
    pub right: u64,
}

/// What a round tells: the terms are equal; nothing makes them equal; or more is to do.
#[derive(Drop)]
pub enum Outcome {
    Unified,
    Failed,
    More(Pending),
}

/// Binds the metavariable to its term, and puts the term in everywhere.
fn bind(bank: &mut Bank, alloc: Global, p: &Pending, a: Assignment) -> Result<Pending, Memory>
    requires pending { IsPending (length bank.old) p.now }
    requires assigned { IsAssignment bank.old a }
    ensures extends { Extends bank.old bank.new }
    ensures distinct { IsDistinct bank.new }
    ensures ok { IfOk result (λ q. IsBoundTo bank.old bank.new p.now a q) }
{
    bank.count();
    let free = without(alloc, p.free.as_slice(), a.name)?;
    let left = put_in(bank, alloc, a, p.left)?;
    let right = put_in(bank, alloc, a, p.right)?;
    let bound = extended(bank, alloc, a, p.bound.as_slice())?;
    Ok(Pending {
        free,
        bound,
        left,
        right,
    })
}

/// Binds the metavariable at the first difference of the two terms, if there is one and it may be bound.
pub fn round(bank: &mut Bank, alloc: Global, p: &Pending) -> Result<Outcome, Memory>
    requires pending { IsPending (length bank.old) p.now }
    ensures extends { Extends bank.old bank.new }
    ensures distinct { IsDistinct bank.new }
    ensures ok { IfOk result (λ r. IsRound bank.old bank.new p.now r) }
{
    bank.count();
    match first_disagreement(bank, p.free.as_slice(), p.left, p.right) {
        Disagreement::Nowhere => Ok(Outcome::Unified),
        Disagreement::Apart => Ok(Outcome::Failed),
        Disagreement::Meta(a) => {
            if !may_bind(bank, alloc, a)? {
                return Ok(Outcome::Failed);
            }
            Ok(Outcome::More(bind(bank, alloc, p, a)?))
        }
    }
}
