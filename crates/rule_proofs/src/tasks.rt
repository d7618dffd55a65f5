//! The value of a formula by grounds, with its proof, part by part.
ghost use Rattle.std.specs.Prelude.{◌≡◌, ◌<◌, ◌≤◌, ◌+◌, [], ◌∷◌, ◌++◌, ℕ, length, OnOk, IfOk, IfSome, IfNone};
ghost use Rattle.core_expr.specs.Nodes.{AreBelow, picked};
ghost use Rattle.proof_writer.specs.Written.{opens, count, tree_at};
ghost use Rattle.proof_trees.specs.Valued.{entries_of, not_by, and_by, or_by, imp_by, iff_by, shows};
ghost use Rattle.rule_proofs.specs.Shown.{one_joined, two_joined, laid, joined, done, opened, IsOpened, whole_shown, shown_of, IsVisited, IsTurn, AreUnder};
ghost use Rattle.rule_proofs.specs.declared.tasks.Task.TheVariants.{Visit, Join};
ghost use Rattle.search_definition.specs.Values.{opposite, both_true, one_true, implied, same_truth, truth, truth_by};
ghost use Rattle.search_definition.specs.Values.Truth.{Unknown};
ghost use Rattle.rule_proofs.specs.Values.{truth_of, whole_of};

use crate::reasons::{join_and, join_iff, join_imp, join_not, join_or, show_whole};
use crate::value::{Reason, Value, both_true, find_reason, one_true, opposite, same_truth};
use core_expr::Memory;
use proof_writer::Writer;
use std::alloc::Global;
use term_shapes::{Shape, shape_at};

/// What is to do: the value of a formula, or that of a connective from those of its parts, which are the latest.
#[derive(Clone, Copy, Debug)]
pub enum Task {
    Visit(u64),
    Join(u64),
}

/// The value by a reason; Unknown where there is none.
fn value_by(reason: Reason) -> Value
    ensures { truth_of result ≡ truth_by (whole_of reason) Unknown }
{
    match reason {
        Reason::Stands | Reason::ByItself | Reason::Mirrored => Value::Yes,
        Reason::NotStands | Reason::FalseItself | Reason::NotMirrored => Value::No,
        Reason::Undecided => Value::Unknown,
    }
}

/// The parts of a connective, its Join below them: false where the formula is none.
fn open(shape: Shape, f: u64, tasks: &mut Vec<Task>) -> Result<bool, Memory>
    ensures { IfOk result (λ b. IsOpened (opened shape f) b tasks.old.items tasks.new.items) }
{
    match shape {
        Shape::Not(a) => {
            tasks.push(Task::Join(f))?;
            tasks.push(Task::Visit(a))?;
            Ok(true)
        }
        Shape::And(a, b) | Shape::Or(a, b) | Shape::Imp(a, b) | Shape::Iff(a, b) => {
            tasks.push(Task::Join(f))?;
            tasks.push(Task::Visit(b))?;
            tasks.push(Task::Visit(a))?;
            Ok(true)
        }
        _ => Ok(false),
    }
}

/// The value of a formula as a whole, with its proof; Unknown by the reason Undecided.
fn settle(
    w: &mut Writer,
    alloc: Global,
    reason: Reason,
    f: u64,
    values: &mut Vec<Value>,
) -> Result<(), Memory>
    requires below { f < count w.old }
    requires enough { length values.old.items ≤ length (opens w.old) }
    ensures more { count w.old ≤ count w.new }
    ensures same { (i : ℕ) → i < count w.old → tree_at w.new i ≡ tree_at w.old i }
    ensures enough { OnOk result (length values.new.items ≤ length (opens w.new)) }
    ensures ok { OnOk result (shown_of values.new.items (opens w.new)
        ≡ whole_shown (whole_of reason) (tree_at w.old f) (shown_of values.old.items (opens w.old))) }
{
    show_whole(w, alloc, reason, f)?;
    values.push(value_by(reason))?;
    Ok(())
}

/// The tasks of the parts of a formula that has no value as a whole, or its value, Unknown.
fn visit_undecided(
    w: &mut Writer,
    alloc: Global,
    shape: Shape,
    f: u64,
    tasks: &mut Vec<Task>,
    values: &mut Vec<Value>,
) -> Result<(), Memory>
    requires below { f < count w.old }
    requires enough { length values.old.items ≤ length (opens w.old) }
    ensures more { count w.old ≤ count w.new }
    ensures same { (i : ℕ) → i < count w.old → tree_at w.new i ≡ tree_at w.old i }
    ensures enough { OnOk result (length values.new.items ≤ length (opens w.new)) }
    ensures ok { OnOk result (IsVisited shape f (tree_at w.old f)
        tasks.old.items (shown_of values.old.items (opens w.old)) tasks.new.items
        (shown_of values.new.items (opens w.new))) }
{
    if open(shape, f, tasks)? {
        return Ok(());
    }
    settle(w, alloc, Reason::Undecided, f, values)
}

/// The value of a formula, with its proof, comes next, or the tasks of its parts.
fn visit(
    w: &mut Writer,
    alloc: Global,
    grounds: &[u64],
    f: u64,
    tasks: &mut Vec<Task>,
    values: &mut Vec<Value>,
) -> Result<(), Memory>
    requires grounds { AreBelow (count w.old) grounds.now }
    requires below { f < count w.old }
    requires enough { length values.old.items ≤ length (opens w.old) }
    ensures more { count w.old ≤ count w.new }
    ensures same { (i : ℕ) → i < count w.old → tree_at w.new i ≡ tree_at w.old i }
    ensures enough { OnOk result (length values.new.items ≤ length (opens w.new)) }
    ensures ok { OnOk result (IsTurn w.old.trees (entries_of (picked w.old.trees grounds.now)) (Visit f)
        tasks.old.items (shown_of values.old.items (opens w.old)) tasks.new.items
        (shown_of values.new.items (opens w.new))) }
{
    let shape = shape_at(w.bank(), f);
    let reason = find_reason(w, alloc, grounds, f)?;
    match reason {
        Reason::Undecided => visit_undecided(w, alloc, shape, f, tasks, values),
        _ => settle(w, alloc, reason, f, values),
    }
}

/// The two latest values, the latest last: None exactly where there are fewer.
fn take_two(values: &mut Vec<Value>) -> Option<(Value, Value)>
    ensures none { IfNone result (length values.old.items < 2) }
    ensures unchanged { IfNone result (values.new.items ≡ values.old.items) }
    ensures some { IfSome result (λ p. values.old.items ≡ values.new.items ++ p.0 ∷ p.1 ∷ []) }
{
    if values.len() < 2 {
        return None;
    }
    let latest = values.len() - 1;
    let (x, y) = (values[latest - 1], values[latest]);
    values.truncate(latest - 1);
    Some((x, y))
}

/// The value and the proof of A /\ B by those of its parts.
#[tactic(auto, using(crate::proofs::Shown::few_shown))]
fn and_joined(
    w: &mut Writer,
    alloc: Global,
    a: u64,
    b: u64,
    values: &mut Vec<Value>,
) -> Result<(), Memory>
    requires first { a < count w.old }
    requires second { b < count w.old }
    requires enough { length values.old.items ≤ length (opens w.old) }
    ensures trees { w.new.trees ≡ w.old.trees }
    ensures enough { OnOk result (length values.new.items ≤ length (opens w.new)) }
    ensures ok { OnOk result (shown_of values.new.items (opens w.new) ≡ two_joined both_true
        (λ x y. and_by x y (tree_at w.old a) (tree_at w.old b)) (laid [] values.old.items) (opens w.old)) }
{
    if let Some((x, y)) = take_two(values) {
        join_and(w, alloc, x, y, a, b)?;
        values.push(both_true(x, y))?;
    }
    Ok(())
}

/// The value and the proof of A \/ B by those of its parts.
#[tactic(auto, using(crate::proofs::Shown::few_shown))]
fn or_joined(
    w: &mut Writer,
    alloc: Global,
    a: u64,
    b: u64,
    values: &mut Vec<Value>,
) -> Result<(), Memory>
    requires first { a < count w.old }
    requires second { b < count w.old }
    requires enough { length values.old.items ≤ length (opens w.old) }
    ensures trees { w.new.trees ≡ w.old.trees }
    ensures enough { OnOk result (length values.new.items ≤ length (opens w.new)) }
    ensures ok { OnOk result (shown_of values.new.items (opens w.new) ≡ two_joined one_true
        (λ x y. or_by x y (tree_at w.old a) (tree_at w.old b)) (laid [] values.old.items) (opens w.old)) }
{
    if let Some((x, y)) = take_two(values) {
        join_or(w, alloc, x, y, a, b)?;
        values.push(one_true(x, y))?;
    }
    Ok(())
}

/// The value and the proof of A => B by those of its parts.
#[tactic(auto, using(crate::proofs::Shown::few_shown))]
fn imp_joined(
    w: &mut Writer,
    alloc: Global,
    a: u64,
    b: u64,
    values: &mut Vec<Value>,
) -> Result<(), Memory>
    requires first { a < count w.old }
    requires second { b < count w.old }
    requires enough { length values.old.items ≤ length (opens w.old) }
    ensures trees { w.new.trees ≡ w.old.trees }
    ensures enough { OnOk result (length values.new.items ≤ length (opens w.new)) }
    ensures ok { OnOk result (shown_of values.new.items (opens w.new) ≡ two_joined implied
        (λ x y. imp_by x y (tree_at w.old a) (tree_at w.old b)) (laid [] values.old.items) (opens w.old)) }
{
    if let Some((x, y)) = take_two(values) {
        join_imp(w, alloc, x, y, a, b)?;
        values.push(one_true(opposite(x), y))?;
    }
    Ok(())
}

/// The value and the proof of A <=> B by those of its parts.
#[tactic(auto, using(crate::proofs::Shown::few_shown))]
fn iff_joined(
    w: &mut Writer,
    alloc: Global,
    a: u64,
    b: u64,
    values: &mut Vec<Value>,
) -> Result<(), Memory>
    requires first { a < count w.old }
    requires second { b < count w.old }
    requires enough { length values.old.items ≤ length (opens w.old) }
    ensures trees { w.new.trees ≡ w.old.trees }
    ensures enough { OnOk result (length values.new.items ≤ length (opens w.new)) }
    ensures ok { OnOk result (shown_of values.new.items (opens w.new) ≡ two_joined same_truth
        (λ x y. iff_by x y (tree_at w.old a) (tree_at w.old b)) (laid [] values.old.items) (opens w.old)) }
{
    if let Some((x, y)) = take_two(values) {
        join_iff(w, alloc, x, y, a, b)?;
        values.push(same_truth(x, y))?;
    }
    Ok(())
}

/// The value and the proof of ~A by those of A.
#[tactic(auto, using(crate::proofs::Shown::none_shown))]
fn not_joined(w: &mut Writer, alloc: Global, a: u64, values: &mut Vec<Value>) -> Result<(), Memory>
    requires below { a < count w.old }
    requires enough { length values.old.items ≤ length (opens w.old) }
    ensures trees { w.new.trees ≡ w.old.trees }
    ensures enough { OnOk result (length values.new.items ≤ length (opens w.new)) }
    ensures ok { OnOk result (shown_of values.new.items (opens w.new) ≡ one_joined opposite
        (λ x. not_by x (tree_at w.old a)) (laid [] values.old.items) (opens w.old)) }
{
    if let Some(x) = values.pop() {
        join_not(w, alloc, x, a)?;
        values.push(opposite(x))?;
    }
    Ok(())
}

/// The value and the proof of a connective by those of its parts.
fn join(w: &mut Writer, alloc: Global, f: u64, values: &mut Vec<Value>) -> Result<(), Memory>
    requires below { f < count w.old }
    requires enough { length values.old.items ≤ length (opens w.old) }
    ensures trees { w.new.trees ≡ w.old.trees }
    ensures enough { OnOk result (length values.new.items ≤ length (opens w.new)) }
    ensures ok { OnOk result (shown_of values.new.items (opens w.new)
        ≡ joined (tree_at w.old f) (shown_of values.old.items (opens w.old))) }
{
    match shape_at(w.bank(), f) {
        Shape::Not(a) => not_joined(w, alloc, a, values),
        Shape::And(a, b) => and_joined(w, alloc, a, b, values),
        Shape::Or(a, b) => or_joined(w, alloc, a, b, values),
        Shape::Imp(a, b) => imp_joined(w, alloc, a, b, values),
        Shape::Iff(a, b) => iff_joined(w, alloc, a, b, values),
        _ => Ok(()),
    }
}

/// The task, whose effect comes before that of all others, is done.
fn turn(
    w: &mut Writer,
    alloc: Global,
    grounds: &[u64],
    task: Task,
    tasks: &mut Vec<Task>,
    values: &mut Vec<Value>,
) -> Result<(), Memory>
    requires grounds { AreBelow (count w.old) grounds.now }
    requires under { AreUnder (count w.old) (task ∷ tasks.old.items) }
    requires enough { length values.old.items ≤ length (opens w.old) }
    ensures more { count w.old ≤ count w.new }
    ensures same { (i : ℕ) → i < count w.old → tree_at w.new i ≡ tree_at w.old i }
    ensures enough { OnOk result (length values.new.items ≤ length (opens w.new)) }
    ensures ok { OnOk result (IsTurn w.old.trees (entries_of (picked w.old.trees grounds.now)) task
        tasks.old.items (shown_of values.old.items (opens w.old)) tasks.new.items
        (shown_of values.new.items (opens w.new))) }
{
    match task {
        Task::Visit(f) => visit(w, alloc, grounds, f, tasks, values),
        Task::Join(f) => join(w, alloc, f, values),
    }
}

/// The proof of the formula `f`, which is true by the grounds, or of the contradiction of one that is false by them; the answer
/// is its value.
#[tactic(auto, using(crate::proofs::Showing::ends_value, crate::proofs::Showing::ends_none))]
pub fn show(w: &mut Writer, alloc: Global, grounds: &[u64], f: u64) -> Result<Value, Memory>
    requires grounds { AreBelow (count w.old) grounds.now }
    requires below { f < count w.old }
    ensures more { count w.old ≤ count w.new }
    ensures same { (i : ℕ) → i < count w.old → tree_at w.new i ≡ tree_at w.old i }
    ensures value { IfOk result (λ v. truth_of v
        ≡ truth (entries_of (picked w.old.trees grounds.now)) (tree_at w.old f)) }
    ensures ok { OnOk result (opens w.new
        ≡ shows (entries_of (picked w.old.trees grounds.now)) (tree_at w.old f) ∷ opens w.old) }
{
    let mut tasks = Vec::new(alloc);
    let mut values = Vec::new(alloc);
    tasks.push(Task::Visit(f))?;
    while let Some(task) = tasks.pop() {
        turn(w, alloc, grounds, task, &mut tasks, &mut values)?;
    }
    match values.pop() {
        Some(value) => Ok(value),
        None => Ok(Value::Unknown),
    }
}
