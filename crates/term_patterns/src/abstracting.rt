//! Patterns: terms with a variable for a term, over shared nodes.
ghost use Rattle.std.specs.Prelude.{◌≡◌, ◌<◌, length, IfOk};
ghost use Rattle.term_bank.specs.Banks.{IsDistinct, Extends, HasTree, tree_at};
ghost use Rattle.term_patterns.specs.Abstracted.{abstracted};
ghost use Rattle.term_patterns.specs.Walked.{is_bound};

use crate::images::Images;
use crate::spots::Spot;
use crate::tasks::{Task, turn};
use core_expr::Memory;
use std::alloc::Global;
use term_bank::Bank;
use term_shapes::{Shape, shape_at};

/// Whether the term is a variable.
fn is_bound(bank: &Bank, t: u64) -> bool
    requires { t < length bank.now }
    ensures { result ≡ is_bound (tree_at bank.now t) }
{
    match shape_at(bank, t) {
        Shape::Bound(_) => true,
        _ => false,
    }
}

/// The index of the term at `e` with one loose variable for each occurrence of the term at `s`. Each node is looked at once for
/// each number of binders above it.
pub fn pattern(bank: &mut Bank, alloc: Global, s: u64, e: u64) -> Result<u64, Memory>
    requires term { s < length bank.old }
    requires start { e < length bank.old }
    ensures extends { Extends bank.old bank.new }
    ensures distinct { IsDistinct bank.new }
    ensures ok { IfOk result (λ k. HasTree bank.new k
        (abstracted (tree_at bank.old s) 0 (tree_at bank.old e))) }
{
    let _count = bank.count();
    if is_bound(bank, s) {
        return Ok(e);
    }
    let start = Spot { node: e, depth: 0 };
    let mut images = Images::new(alloc);
    let mut tasks = Vec::new(alloc);
    tasks.push(Task::Visit(start))?;
    while let Some(task) = tasks.pop() {
        turn(bank, alloc, s, task, &mut tasks, &mut images)?;
    }
    match images.at(start) {
        Some(image) => Ok(image),
        None => Ok(e),
    }
}
