//! Steps that have no proof of their own.

ghost use Rattle.std.specs.Prelude.{◌≡◌, ◌++◌, IfOk, OnOk};
ghost use Rattle.proof_contexts.specs.Steps.Step.{Have, Take, TakeIn, Witness, WitnessIn, Use};
ghost use Rattle.core_expr.specs.Tree.{in_};
ghost use Rattle.proof_contexts.specs.Leaves.{own_leaves, plain_leaves};
ghost use Rattle.proof_contexts.specs.Contexts.{usable_of};
ghost use Rattle.known_facts.specs.Clean.{definitions_of, HasSuspects};
ghost use Rattle.known_facts.specs.Grown.{Grown};
ghost use Rattle.known_facts.specs.Shown.{sym_of, facts_of, context_of};
ghost use Rattle.proof_leaves.specs.Made.{Made, Goes};
ghost use Rattle.proof_leaves.specs.Shown.{step_of};

use crate::goal::{body_over, instance, top};
use crate::proof::{show, show_facts, usable_numbers};
use crate::step::Move;
use core_expr::{Expr, Head, Memory};
use known_facts::{Context, Fact, NewSymbol, Quantifier, Table, implication};
use proof_contexts::{Leaf, LeafKind};
use sqlite_items::Items;
use std::alloc::Global;
use tla_ast::Place;

/// HAVE of a formula: shows that it follows from the goal's premise, and goes on with the goal's conclusion.
fn have(
    alloc: Global,
    table: &Table,
    context: &mut Context,
    place: Place,
    label: Option<u64>,
    f: &Expr,
    leaves: &mut Items<Leaf>,
) -> Result<bool, Memory>
    requires { HasSuspects table.now }
    ensures own { OnOk result (leaves.new ≡ leaves.old ++ own_leaves (definitions_of table.now)
        place (Have label f.now) (context_of context.old)) }
    ensures goes { IfOk result (λ on. Goes (definitions_of table.now) (Have label f.now)
        (context_of context.old) on (context_of context.new)) }
{
    let goal = top(alloc, table, context)?;
    let Some((premise, conclusion)) = implication(alloc, &goal)? else {
        return Ok(false);
    };
    let shown = Expr::binary(alloc, Head::Imp, premise, f.copy(alloc)?)?;
    show(alloc, table, context, place, shown, leaves)?;
    context.tell(alloc, label, f.copy(alloc)?)?;
    context.replace_goal(conclusion);
    Ok(true)
}

/// TAKE of a name: goes on with the body of \A at it.
fn take(alloc: Global, table: &Table, context: &mut Context, x: NewSymbol) -> Result<bool, Memory>
    ensures { IfOk result (λ on. Goes (definitions_of table.now) (Take (sym_of x))
        (context_of context.old) on (context_of context.new)) }
{
    let goal = top(alloc, table, context)?;
    let Some(body) = Quantifier::All.body_of(alloc, &goal)? else {
        return Ok(false);
    };
    let rest = instance(alloc, &body, x.name(alloc)?)?;
    context.replace_goal(rest);
    Ok(true)
}

/// TAKE of a name from a set: the same where \A is over this set, and the name is in it from then on.
fn take_in(
    alloc: Global,
    table: &Table,
    context: &mut Context,
    label: Option<u64>,
    x: NewSymbol,
    set: &Expr,
) -> Result<bool, Memory>
    ensures { IfOk result (λ on. Goes (definitions_of table.now) (TakeIn label (sym_of x) set.now)
        (context_of context.old) on (context_of context.new)) }
{
    let goal = top(alloc, table, context)?;
    let Some(body) = body_over(alloc, table, context, Quantifier::All, set, &goal)? else {
        return Ok(false);
    };
    let rest = instance(alloc, &body, x.name(alloc)?)?;
    context.tell_usable(alloc, label, x.within(alloc, set)?)?;
    context.replace_goal(rest);
    Ok(true)
}

/// WITNESS of an expression: goes on with the body of \E at it.
fn witness(alloc: Global, table: &Table, context: &mut Context, t: &Expr) -> Result<bool, Memory>
    ensures { IfOk result (λ on. Goes (definitions_of table.now) (Witness t.now)
        (context_of context.old) on (context_of context.new)) }
{
    let goal = top(alloc, table, context)?;
    let Some(body) = Quantifier::Exists.body_of(alloc, &goal)? else {
        return Ok(false);
    };
    let rest = instance(alloc, &body, t.copy(alloc)?)?;
    context.replace_goal(rest);
    Ok(true)
}

/// WITNESS of an expression in a set: the same where \E is over this set; shows that the expression is in it.
fn witness_in(
    alloc: Global,
    table: &Table,
    context: &mut Context,
    place: Place,
    label: Option<u64>,
    t: &Expr,
    set: &Expr,
    leaves: &mut Items<Leaf>,
) -> Result<bool, Memory>
    requires { HasSuspects table.now }
    ensures own { OnOk result (leaves.new ≡ leaves.old ++ own_leaves (definitions_of table.now)
        place (WitnessIn label t.now set.now) (context_of context.old)) }
    ensures goes { IfOk result (λ on. Goes (definitions_of table.now)
        (WitnessIn label t.now set.now) (context_of context.old) on (context_of context.new)) }
{
    let goal = top(alloc, table, context)?;
    let Some(body) = body_over(alloc, table, context, Quantifier::Exists, set, &goal)? else {
        return Ok(false);
    };
    let shown = element(alloc, t, set)?;
    show(alloc, table, context, place, shown, leaves)?;
    let rest = instance(alloc, &body, t.copy(alloc)?)?;
    context.tell(alloc, label, element(alloc, t, set)?)?;
    context.replace_goal(rest);
    Ok(true)
}

/// That an expression is in a set.
fn element(alloc: Global, t: &Expr, set: &Expr) -> Result<Expr, Memory>
    ensures { IfOk result (λ e. e ≡ in_ t.now set.now) }
{
    let t = t.copy(alloc)?;
    let set = set.copy(alloc)?;
    Expr::binary(alloc, Head::In, t, set)
}

/// USE of facts and definitions: shows the facts that are expressions, by what was usable before.
fn use_all(
    alloc: Global,
    table: &Table,
    context: &mut Context,
    label: Option<u64>,
    facts: &[Fact],
    numbers: &[u64],
    leaves: &mut Items<Leaf>,
) -> Result<bool, Memory>
    requires { HasSuspects table.now }
    ensures own { OnOk result (leaves.new ≡ leaves.old ++ plain_leaves (definitions_of table.now)
        (usable_of (context_of context.old).known)
        ((context_of context.old).defs ++ numbers.now) (facts_of facts.now)) }
    ensures goes { IfOk result (λ on. Goes (definitions_of table.now)
        (Use label (facts_of facts.now) numbers.now)
        (context_of context.old) on (context_of context.new)) }
{
    let all = usable_numbers(alloc, context, numbers)?;
    show_facts(alloc, table, context, facts, all.as_slice(), leaves)?;
    context.use_all(alloc, label, facts, numbers)?;
    Ok(true)
}

/// What a step does: adds its own leaves, and makes the context the one after it if the goal has the form that it asks for.
fn act(
    alloc: Global,
    table: &Table,
    context: &mut Context,
    place: Place,
    label: Option<u64>,
    step: &Move,
    leaves: &mut Items<Leaf>,
) -> Result<bool, Memory>
    requires { HasSuspects table.now }
    ensures own { OnOk result (leaves.new ≡ leaves.old ++ own_leaves (definitions_of table.now)
        place (step_of label step.now) (context_of context.old)) }
    ensures goes { IfOk result (λ on. Goes (definitions_of table.now) (step_of label step.now)
        (context_of context.old) on (context_of context.new)) }
{
    match step {
        Move::Have(f) => have(alloc, table, context, place, label, f, leaves),
        Move::Take(x) => take(alloc, table, context, *x),
        Move::TakeIn(x, set) => take_in(alloc, table, context, label, *x, set),
        Move::Witness(t) => witness(alloc, table, context, t),
        Move::WitnessIn(t, set) => {
            witness_in(alloc, table, context, place, label, t, set, leaves)
        }
        Move::Define(numbers) => {
            context.define(numbers.as_slice())?;
            Ok(true)
        }
        Move::Use(facts, numbers) => {
            let facts = facts.as_slice();
            let numbers = numbers.as_slice();
            use_all(alloc, table, context, label, facts, numbers, leaves)
        }
        Move::Hide(marks, numbers) => {
            context.hide(alloc, marks.as_slice(), numbers.as_slice())?;
            Ok(true)
        }
    }
}

/// A step without a proof of its own: adds its leaves, and the leaf that the goal has not the form that it asks for; makes the
/// context the one after the step. Says whether the proof goes on.
pub fn make(
    alloc: Global,
    table: &Table,
    context: &mut Context,
    place: Place,
    label: Option<u64>,
    step: &Move,
    leaves: &mut Items<Leaf>,
) -> Result<bool, Memory>
    requires { HasSuspects table.now }
    ensures made { IfOk result (λ on. Made (definitions_of table.now) place
        (step_of label step.now) (context_of context.old) leaves.old
        on (context_of context.new) leaves.new) }
    ensures grown { OnOk result
        (Grown (context_of context.old).known (context_of context.new).known) }
{
    if act(alloc, table, context, place, label, step, leaves)? {
        return Ok(true);
    }
    leaves.push(Leaf {
        place,
        kind: LeafKind::Shape,
    })?;
    Ok(false)
}
