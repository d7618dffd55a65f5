//! Steps that have a proof of their own.

ghost use Rattle.std.specs.Prelude.{◌≡◌, IfOk, OnOk};
ghost use Rattle.proof_contexts.specs.Steps as steps;
ghost use Rattle.proof_contexts.specs.Contexts as contexts;
ghost use Rattle.known_facts.specs.Grown.{Grown};
ghost use Rattle.known_facts.specs.Shown.{items_of, context_of};
ghost use Rattle.proof_leaves.specs.Made.{IsInside, IsAfter, IsEntered};
ghost use Rattle.proof_leaves.specs.Shown.{claim_of};

use crate::step::Claim;
use core_expr::{Expr, Head, Memory};
use known_facts::{Context, Statement, fact_of, picked};
use std::alloc::Global;

/// What is kept of the context of a step while its own proof is read: how many facts were known, and the goal.
#[derive(Drop)]
pub struct Entered {
    mark: usize,
    goal: Expr,
}

/// Tells what is known inside of a step, and makes its goal the goal.
fn begin(
    alloc: Global,
    context: &mut Context,
    label: Option<u64>,
    claim: &Claim,
) -> Result<(), Memory>
    ensures { OnOk result ((p : steps.Proof) → IsInside (claim_of label claim.now p)
        (context_of context.old) (context_of context.new)) }
{
    match claim {
        Claim::Assert(statement) => {
            context.tell_items(alloc, label, statement.items.as_slice())?;
            context.replace_goal(statement.goal.copy(alloc)?);
            Ok(())
        }
        Claim::Case(f) => {
            context.tell(alloc, label, f.copy(alloc)?)?;
            Ok(())
        }
        Claim::Suffices(statement) => {
            let fact = fact_of(alloc, statement.items.as_slice(), &statement.goal)?;
            context.tell_usable(alloc, label, fact)?;
            Ok(())
        }
        Claim::Pick(items, f) => {
            context.replace_goal(picked(alloc, items.as_slice(), f)?);
            Ok(())
        }
    }
}

/// Makes the context the one inside of a step, in which its own proof is read.
pub fn enter(
    alloc: Global,
    context: &mut Context,
    label: Option<u64>,
    claim: &Claim,
) -> Result<Entered, Memory>
    ensures inside { OnOk result ((p : steps.Proof) → IsInside (claim_of label claim.now p)
        (context_of context.old) (context_of context.new)) }
    ensures entered { IfOk result (λ e. IsEntered e (context_of context.old)) }
{
    let mark = context.mark();
    let goal = context.goal().copy(alloc)?;
    begin(alloc, context, label, claim)?;
    Ok(Entered { mark, goal })
}

/// Makes the context what it was before the step was entered, where it is the one inside of that step.
pub fn leave(context: &mut Context, entered: Entered)
    ensures { (s : steps.Step) (c : contexts.Context) → IsEntered entered c
        → IsInside s c (context_of context.old) → context_of context.new ≡ c }
{
    let Entered { mark, goal } = entered;
    context.leave(mark);
    context.replace_goal(goal);
}

/// Tells the fact of a statement.
fn tell_fact(
    alloc: Global,
    context: &mut Context,
    label: Option<u64>,
    statement: &Statement,
) -> Result<(), Memory>
    ensures { OnOk result (context_of context.new ≡ contexts.add (context_of context.old)
        (contexts.told label (contexts.fact_of (items_of statement.now.items) statement.now.goal))) }
{
    let fact = fact_of(alloc, statement.items.as_slice(), &statement.goal)?;
    context.tell(alloc, label, fact)?;
    Ok(())
}

/// Makes the context the one after a step, where it is the one before it.
pub fn conclude(
    alloc: Global,
    context: &mut Context,
    label: Option<u64>,
    claim: Claim,
) -> Result<(), Memory>
    ensures after { OnOk result ((p : steps.Proof) → IsAfter (claim_of label claim p)
        (context_of context.old) (context_of context.new)) }
    ensures grown { OnOk result
        (Grown (context_of context.old).known (context_of context.new).known) }
{
    match claim {
        Claim::Assert(statement) => {
            tell_fact(alloc, context, label, &statement)?;
            Ok(())
        }
        Claim::Case(f) => {
            let goal = context.goal().copy(alloc)?;
            context.tell(alloc, label, Expr::binary(alloc, Head::Imp, f, goal)?)?;
            Ok(())
        }
        Claim::Suffices(statement) => {
            let Statement { items, goal } = statement;
            context.tell_items(alloc, label, items.as_slice())?;
            context.replace_goal(goal);
            Ok(())
        }
        Claim::Pick(items, f) => {
            context.tell_items(alloc, label, items.as_slice())?;
            context.tell(alloc, label, f)?;
            Ok(())
        }
    }
}
