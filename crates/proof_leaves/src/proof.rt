//! Leaves of proofs that have no steps.

ghost use Rattle.std.specs.Prelude.{◌≡◌, [], ◌∷◌, ◌++◌, IfOk, OnOk};
ghost use Rattle.proof_contexts.specs.Steps.Proof.{Missing, Omitted, Obvious, By};
ghost use Rattle.proof_contexts.specs.Contexts.{usable_of, cited_of};
ghost use Rattle.proof_contexts.specs.Leaves as spec;
ghost use Rattle.known_facts.specs.Clean.{definitions_of, HasSuspects};
ghost use Rattle.known_facts.specs.Shown.{facts_of, context_of};
ghost use Rattle.proof_leaves.specs.Made.{AddsLeaves};

use core_expr::{Expr, Memory};
use known_facts::{Context, Fact, Table};
use obligation::Obligation;
use proof_contexts::{Leaf, LeafKind};
use sqlite_items::Items;
use std::alloc::Global;
use tla_ast::Place;

/// The leaf that has to show a goal from facts, with the definitions of these numbers.
#[tactic(auto, using(crate::proofs::Leaves::leaf_temporal, crate::proofs::Leaves::leaf_plain))]
fn leaf(
    alloc: Global,
    table: &Table,
    place: Place,
    facts: Items<Expr>,
    goal: Expr,
    numbers: &[u64],
) -> Result<Leaf, Memory>
    requires { HasSuspects table.now }
    ensures { IfOk result (λ l. l
        ≡ spec.leaf (definitions_of table.now) place facts goal numbers.now) }
{
    if table.any_temporal(alloc, numbers, &goal, facts.as_slice())? {
        return Ok(Leaf {
            place,
            kind: LeafKind::Temporal,
        });
    }
    let defs = table.chosen(alloc, numbers)?;
    Ok(Leaf {
        place,
        kind: LeafKind::Search(Obligation { facts, goal, defs }),
    })
}

/// Adds the leaf that has to show a goal from the usable facts, with the definitions of these numbers.
fn show_with(
    alloc: Global,
    table: &Table,
    context: &Context,
    place: Place,
    goal: Expr,
    numbers: &[u64],
    leaves: &mut Items<Leaf>,
) -> Result<(), Memory>
    requires { HasSuspects table.now }
    ensures { OnOk result (leaves.new
        ≡ leaves.old ++ spec.leaf (definitions_of table.now) place
        (usable_of (context_of context.now).known) goal numbers.now ∷ []) }
{
    let mut facts = Items::new(alloc);
    context.usable(alloc, &mut facts)?;
    leaves.push(leaf(alloc, table, place, facts, goal, numbers)?)?;
    Ok(())
}

/// Adds the leaf that has to show a goal from the usable facts, with the usable definitions.
pub(crate) fn show(
    alloc: Global,
    table: &Table,
    context: &Context,
    place: Place,
    goal: Expr,
    leaves: &mut Items<Leaf>,
) -> Result<(), Memory>
    requires { HasSuspects table.now }
    ensures { OnOk result (leaves.new ≡ leaves.old
        ++ spec.leaf (definitions_of table.now) place (usable_of (context_of context.now).known)
        goal (context_of context.now).defs ∷ []) }
{
    let numbers = context.definitions();
    show_with(alloc, table, context, place, goal, numbers, leaves)?;
    Ok(())
}

/// Adds the leaf that has to show the goal from these facts and the cited ones behind them, with the definitions of these numbers.
fn show_cited(
    alloc: Global,
    table: &Table,
    context: &Context,
    place: Place,
    mut found: Items<Expr>,
    facts: &[Fact],
    numbers: &[u64],
    leaves: &mut Items<Leaf>,
) -> Result<(), Memory>
    requires { HasSuspects table.now }
    ensures { OnOk result (leaves.new
        ≡ leaves.old ++ spec.leaf (definitions_of table.now) place
        (found ++ cited_of (context_of context.now).known (facts_of facts.now))
        (context_of context.now).goal numbers.now ∷ []) }
{
    context.cited(alloc, facts, &mut found)?;
    let goal = context.goal().copy(alloc)?;
    leaves.push(leaf(alloc, table, place, found, goal, numbers)?)?;
    Ok(())
}

/// The numbers of the usable definitions, and these behind them.
pub(crate) fn usable_numbers(
    alloc: Global,
    context: &Context,
    numbers: &[u64],
) -> Result<Vec<u64>, Memory>
    ensures { IfOk result (λ v. v.items ≡ (context_of context.now).defs ++ numbers.now) }
{
    let mut all = Vec::from_slice(alloc, context.definitions())?;
    all.extend_from_slice(numbers)?;
    Ok(all)
}

/// Adds the leaf of a fact after BY or USE, if it is an expression.
fn show_fact(
    alloc: Global,
    table: &Table,
    context: &Context,
    fact: &Fact,
    numbers: &[u64],
    leaves: &mut Items<Leaf>,
) -> Result<(), Memory>
    requires { HasSuspects table.now }
    ensures { OnOk result (leaves.new ≡ leaves.old ++ spec.plain_leaves (definitions_of table.now)
        (usable_of (context_of context.now).known) numbers.now (facts_of (fact.now ∷ []))) }
{
    match fact {
        Fact::Cited(_) => Ok(()),
        Fact::Plain(place, formula) => {
            let formula = formula.copy(alloc)?;
            show_with(alloc, table, context, *place, formula, numbers, leaves)?;
            Ok(())
        }
    }
}

/// Adds a leaf for each expression among facts, from the usable facts, with the definitions of these numbers.
pub(crate) fn show_facts(
    alloc: Global,
    table: &Table,
    context: &Context,
    facts: &[Fact],
    numbers: &[u64],
    leaves: &mut Items<Leaf>,
) -> Result<(), Memory>
    requires { HasSuspects table.now }
    ensures { OnOk result (leaves.new ≡ leaves.old ++ spec.plain_leaves (definitions_of table.now)
        (usable_of (context_of context.now).known) numbers.now (facts_of facts.now)) }
{
    for fact in facts {
        show_fact(alloc, table, context, fact, numbers, leaves)?;
    }
    Ok(())
}

/// The leaf of a proof that is missing, at the place of the step or theorem that needs one.
pub fn missing(place: Place, leaves: &mut Items<Leaf>) -> Result<(), Memory>
    ensures { OnOk result (AddsLeaves (Missing place) leaves.old leaves.new) }
{
    leaves.push(Leaf {
        place,
        kind: LeafKind::Missing,
    })?;
    Ok(())
}

/// The leaf of OMITTED.
pub fn omitted(place: Place, leaves: &mut Items<Leaf>) -> Result<(), Memory>
    ensures { OnOk result (AddsLeaves (Omitted place) leaves.old leaves.new) }
{
    leaves.push(Leaf {
        place,
        kind: LeafKind::Omitted,
    })?;
    Ok(())
}

/// The leaf of OBVIOUS: the goal from the usable facts.
pub fn obvious(
    alloc: Global,
    table: &Table,
    context: &Context,
    place: Place,
    leaves: &mut Items<Leaf>,
) -> Result<(), Memory>
    requires { HasSuspects table.now }
    ensures { OnOk result (leaves.new ≡ leaves.old
        ++ spec.leaves (definitions_of table.now) (Obvious place) (context_of context.now)) }
{
    let goal = context.goal().copy(alloc)?;
    show(alloc, table, context, place, goal, leaves)?;
    Ok(())
}

/// Adds the leaf of the goal of BY: from the usable facts and then the cited ones, with all of these definitions; with ONLY from the
/// cited facts, with those after DEF.
fn show_goal(
    alloc: Global,
    table: &Table,
    context: &Context,
    place: Place,
    only: bool,
    facts: &[Fact],
    numbers: &[u64],
    leaves: &mut Items<Leaf>,
) -> Result<(), Memory>
    requires { HasSuspects table.now }
    ensures { OnOk result (leaves.new ≡ leaves.old ++ spec.main_leaf (definitions_of table.now)
        place (context_of context.now) only (facts_of facts.now) numbers.now ∷ []) }
{
    let mut start = Items::new(alloc);
    if only {
        show_cited(alloc, table, context, place, start, facts, numbers, leaves)?;
        return Ok(());
    }
    context.usable(alloc, &mut start)?;
    let all = usable_numbers(alloc, context, numbers)?;
    let all = all.as_slice();
    show_cited(alloc, table, context, place, start, facts, all, leaves)?;
    Ok(())
}

/// The leaves of BY, with ONLY or not, with facts and the numbers of the definitions after DEF: one for each expression among the
/// facts, and that of the goal.
pub fn by_facts(
    alloc: Global,
    table: &Table,
    context: &Context,
    place: Place,
    only: bool,
    facts: &[Fact],
    numbers: &[u64],
    leaves: &mut Items<Leaf>,
) -> Result<(), Memory>
    requires { HasSuspects table.now }
    ensures { OnOk result (leaves.new ≡ leaves.old ++ spec.leaves (definitions_of table.now)
        (By place only (facts_of facts.now) numbers.now) (context_of context.now)) }
{
    let all = usable_numbers(alloc, context, numbers)?;
    show_facts(alloc, table, context, facts, all.as_slice(), leaves)?;
    show_goal(alloc, table, context, place, only, facts, numbers, leaves)?;
    Ok(())
}
