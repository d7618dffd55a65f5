//! The run of the checker: a list of tasks in place of recursion.
ghost use Rattle.std.specs.Prelude.{◌≡◌, ◌↔◌, ◌+◌, ◌-◌, ◌<◌, ◌≤◌, ◌∷◌, [], length, take, drop, IfOk, IsTrue};
ghost use Rattle.std.proofs.Common.{get_or};
ghost use Rattle.core_expr.specs.Nodes.{AreBelow, picked};
ghost use Rattle.term_bank.specs.Banks.{tree_at};
ghost use Rattle.seq_calculus.specs.Calculus.{Correct};
ghost use Rattle.seq_calculus.specs.Lists.{AreSteps, step_fits};
ghost use Rattle.seq_calculus.specs.Steps.{proofs_of, no_proof, rule_of, of_lists};
ghost use Rattle.proof_checker.specs.Sides.{seen, AreFormulas};
ghost use Rattle.proof_checker.specs.Plans.{AreSides};
ghost use Rattle.proof_checker.specs.Runs.{task_for, IsPushed, Weakens, Moves, IsPut, IsTop, AreEntered, AreAddsClosed, IsTurn, Claim};

use crate::nodes::fetch;
use crate::plan::{left_plan, plan};
use crate::rule::{RuleName, adding, name_of};
use crate::schema::instance;
use crate::side::Side;
use crate::task::{Adds, Plan, Premise, Task};
use core_expr::Memory;
use seq_calculus::ProofStep;
use std::alloc::Global;
use term_bank::Bank;

/// The number at this place, or 0.
fn number_at(numbers: &[u64], i: u64) -> u64
    ensures { result ≡ get_or numbers.now i 0 }
{
    match numbers.get(i as usize) {
        Some(number) => *number,
        None => 0,
    }
}

/// A step over two sides with what its premise adds.
fn task_of(step: u64, premise: Premise, left: &Side, right: &Side) -> Task
    ensures { result ≡ task_for step premise left.now right.now }
{
    Task {
        step,
        left: left.with(premise.left),
        right: right.with(premise.right),
    }
}

/// Puts the premises of a step on the list, the first on top. False where there are not as many steps for them.
fn push_premises(
    todo: &mut Vec<Task>,
    plan: Plan,
    steps: &[u64],
    left: &Side,
    right: &Side,
) -> Result<bool, Memory>
    ensures { IfOk result (λ b.
        IsPushed plan steps.now left.now right.now todo.old.items todo.new.items b) }
{
    match plan {
        Plan::Closed => Ok(steps.is_empty()),
        Plan::Single(premise) => {
            if steps.len() != 1 {
                return Ok(false);
            }
            todo.push(task_of(steps[0], premise, left, right))?;
            Ok(true)
        }
        Plan::Pair(first, second) => {
            if steps.len() != 2 {
                return Ok(false);
            }
            todo.push(task_of(steps[1], second, left, right))?;
            todo.push(task_of(steps[0], first, left, right))?;
            Ok(true)
        }
    }
}

/// Begins both sides anew with the first operands and with the others. False where one of them is not there.
fn weaken(
    bank: &Bank,
    left: &mut Side,
    right: &mut Side,
    count: u64,
    operands: &[u64],
) -> Result<bool, Memory>
    requires sides { AreSides bank.now left.old right.old }
    requires below { AreBelow (length bank.now) operands.now }
    requires count { count ≤ length operands.now }
    ensures { IfOk result (λ b. Weakens bank.now left.old right.old
        (take count operands.now) (drop count operands.now) left.new right.new b) }
{
    let on_left = &operands[..count as usize];
    let on_right = &operands[count as usize..];
    if !left.has_all(bank, on_left) {
        return Ok(false);
    }
    if !right.has_all(bank, on_right) {
        return Ok(false);
    }
    left.begin(on_left)?;
    right.begin(on_right)?;
    Ok(true)
}

/// The premises of a weakening.
fn weakened(
    bank: &Bank,
    left: &mut Side,
    right: &mut Side,
    numbers: &[u64],
    operands: &[u64],
) -> Result<Option<Plan>, Memory>
    requires sides { AreSides bank.now left.old right.old }
    requires below { AreBelow (length bank.now) operands.now }
    requires count { get_or numbers.now 0 0 ≤ length operands.now }
    ensures { IfOk result (λ o. Moves bank.now bank.now
        (of_lists numbers.now (picked bank.now operands.now))
        left.old right.old left.new right.new o) }
{
    let begun = weaken(bank, left, right, number_at(numbers, 0), operands)?;
    if begun {
        return Ok(Some(Plan::Single(adding(Adds::Nothing, Adds::Nothing))));
    }
    Ok(None)
}

/// The premises of a step over two sides: None where it does not fit.
fn advance(
    bank: &mut Bank,
    alloc: Global,
    left: &mut Side,
    right: &mut Side,
    step: &ProofStep,
    operands: &[u64],
) -> Result<Option<Plan>, Memory>
    requires sides { AreSides bank.old left.old right.old }
    requires left_base { left.old.base ≤ length left.old.trail }
    requires right_base { right.old.base ≤ length right.old.trail }
    requires below { AreBelow (length bank.old) operands.now }
    requires form { IsTrue (step_fits step.now) }
    requires count { length operands.now ≡ length step.now.exprs }
    ensures { IfOk result (λ o. Moves bank.old bank.new
        (rule_of step.now.rule step.now.numbers (picked bank.old operands.now))
        left.old right.old left.new right.new o) }
{
    let numbers = step.numbers.as_slice();
    match name_of(step.rule) {
        RuleName::Weak => Ok(weakened(bank, left, right, numbers, operands)?),
        RuleName::Schema => {
            let schema = number_at(numbers, 0);
            let number = number_at(numbers, 1);
            let found = instance(bank, alloc, schema, number, operands)?;
            Ok(left_plan(found))
        }
        RuleName::Plain(rule) => Ok(plan(bank, alloc, left, right, rule, operands)?),
    }
}

/// Takes both sides back to what a task says. False where a formula that is added is open.
fn enter(bank: &Bank, left: &mut Side, right: &mut Side, task: Task) -> Result<bool, Memory>
    requires sides { AreSides bank.now left.old right.old }
    requires top { IsTop (length bank.now) (task.step + 1) (length left.old.trail) (length right.old.trail) task }
    ensures yes { IfOk result (λ b. IsTrue b → AreEntered bank.now task
        left.old.trail right.old.trail left.new right.new) }
    ensures no { IfOk result (λ b. (IsTrue b → ⊥) → AreAddsClosed bank.now task → ⊥) }
{
    if !left.enter(bank, task.left)? {
        return Ok(false);
    }
    let entered = right.enter(bank, task.right)?;
    Ok(entered)
}

/// A step of a proof.
fn step_at(steps: &[ProofStep], i: u64) -> &ProofStep
    requires { i < length steps.now }
    ensures { result.now ≡ get_or steps.now i result.now }
{
    &steps[i as usize]
}

/// Puts the premises of a step over two sides on the list. False where it does not fit.
fn put_step(
    bank: &mut Bank,
    alloc: Global,
    left: &mut Side,
    right: &mut Side,
    todo: &mut Vec<Task>,
    step: &ProofStep,
    operands: &[u64],
) -> Result<bool, Memory>
    requires sides { AreSides bank.old left.old right.old }
    requires left_base { left.old.base ≤ length left.old.trail }
    requires right_base { right.old.base ≤ length right.old.trail }
    requires below { AreBelow (length bank.old) operands.now }
    requires form { IsTrue (step_fits step.now) }
    requires count { length operands.now ≡ length step.now.exprs }
    ensures { IfOk result (λ b. IsPut bank.old bank.new
        (rule_of step.now.rule step.now.numbers (picked bank.old operands.now))
        left.old right.old left.new right.new step.now.premises todo.old.items todo.new.items b) }
{
    let found = advance(bank, alloc, left, right, step, operands)?;
    match found {
        Some(plan) => {
            let put = push_premises(todo, plan, step.premises.as_slice(), left, right)?;
            Ok(put)
        }
        None => Ok(false),
    }
}

/// One task: false where its claim does not hold, else its premises are put on the list.
fn turn(
    bank: &mut Bank,
    alloc: Global,
    steps: &[ProofStep],
    places: &[u64],
    left: &mut Side,
    right: &mut Side,
    operands: &mut Vec<u64>,
    todo: &mut Vec<Task>,
    task: Task,
) -> Result<bool, Memory>
    requires steps { AreSteps (length places.now) 0 steps.now }
    requires places { AreBelow (length bank.old) places.now }
    requires sides { AreSides bank.old left.old right.old }
    requires top { IsTop (length bank.old) (length steps.now)
        (length left.old.trail) (length right.old.trail) task }
    ensures yes { IfOk result (λ b. IsTrue b → IsTurn bank.old bank.new
        (proofs_of (picked bank.old places.now) steps.now) (length steps.now)
        left.old.trail right.old.trail task left.new.trail right.new.trail
        todo.old.items todo.new.items) }
    ensures no { IfOk result (λ b. (IsTrue b → ⊥) → Claim bank.old
        (proofs_of (picked bank.old places.now) steps.now)
        left.old.trail right.old.trail task → ⊥) }
{
    let entered = enter(bank, left, right, task)?;
    if !entered {
        return Ok(false);
    }
    let step = step_at(steps, task.step);
    fetch(operands, places, step.exprs.as_slice())?;
    let put = put_step(bank, alloc, left, right, todo, step, operands.as_slice())?;
    Ok(put)
}

/// Whether the last step's proof is correct for what is on the left, and the goal.
pub fn run(
    bank: &mut Bank,
    alloc: Global,
    steps: &[ProofStep],
    places: &[u64],
    left: &mut Side,
    goal: u64,
) -> Result<bool, Memory>
    requires steps { AreSteps (length places.now) 0 steps.now }
    requires some { 0 < length steps.now }
    requires places { AreBelow (length bank.old) places.now }
    requires left { AreFormulas bank.old left.old.trail }
    requires base { left.old.base ≡ 0 }
    requires goal { goal < length bank.old }
    ensures { IfOk result (λ b. IsTrue b ↔ Correct
        (get_or (proofs_of (picked bank.old places.now) steps.now) (length steps.now - 1) no_proof)
        (seen bank.old left.old) (tree_at bank.old goal ∷ [])) }
{
    let mut right = Side::new(alloc);
    let mut operands = Vec::new(alloc);
    let mut todo = Vec::new(alloc);
    let premise = adding(Adds::Nothing, Adds::One(goal));
    todo.push(task_of(steps.len() as u64 - 1, premise, left, &right))?;
    while let Some(task) = todo.pop() {
        let holds = turn(
            bank,
            alloc,
            steps,
            places,
            left,
            &mut right,
            &mut operands,
            &mut todo,
            task,
        )?;
        if !holds {
            return Ok(false);
        }
    }
    Ok(true)
}
