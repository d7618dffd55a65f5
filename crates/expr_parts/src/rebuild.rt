//! Expressions rebuilt.

ghost use Rattle.std.specs.Prelude.{◌≡◌, suc, ◌<◌, ◌≤◌, ◌++◌, [], ◌∷◌, length, slice_index_or, IfOk, OnOk};
ghost use Rattle.core_expr.specs.Tree.{true_};
ghost use Rattle.core_expr.specs.Heads.{parts_of, subtrees, IsWellFormed};
ghost use Rattle.core_expr.specs.Flat.{rows_of};
ghost use Rattle.core_expr.specs.Places.{subtree, kind_of};
ghost use Rattle.core_expr.specs.Put.{put};
ghost use Rattle.expr_parts.specs.declared.change.Change.{Change};
ghost use Rattle.expr_parts.specs.declared.change.Change.TheVariants as change;
ghost use Rattle.expr_parts.specs.Rebuilt.{rebuilt};
ghost use Rattle.expr_parts.specs.Walk as walk;
ghost use Rattle.expr_parts.specs.Walk.{Gives};

use crate::change::Change;
use crate::task::Task;
use core_expr::theorems::{last_is_root, shown_fits, shown_makes};
use core_expr::{Expr, Memory, RowKind, Sym};
use std::alloc::Global;

/// The depth of the last part of a node: one more than its own where a binder binds in it.
fn inner(depth: u64, kind: RowKind) -> Result<u64, Memory>
    ensures { IfOk result (λ d. d ≡ walk.inner depth kind) }
{
    match kind {
        RowKind::Binding(_) => depth.checked_add(1).ok_or(Memory),
        _ => Ok(depth),
    }
}

/// The depth of the part `k` of so many.
fn depth_of(k: u64, count: u64, depth: u64, last: u64) -> u64
    requires { k < count }
    ensures last { suc k ≡ count → result ≡ last }
    ensures others { suc k < count → result ≡ depth }
{
    if k == count - 1 {
        return last;
    }
    depth
}

/// Puts tasks for the parts of a node on the list, that for the first part uppermost.
fn visit_parts(tasks: &mut Vec<Task>, e: &Expr, node: u64, depth: u64) -> Result<(), Memory>
    requires inside { node < length (rows_of e.now) }
    requires formed { IsWellFormed (subtree e.now node) }
    ensures { OnOk result ((c : Change) → walk.Builds c e.now tasks.old.items tasks.new.items
        (walk.parts_rebuilt c depth (walk.inner depth (kind_of (subtree e.now node)))
        (subtrees (subtree e.now node)))) }
{
    let count = e.parts(node);
    let last = inner(depth, e.kind(node))?;
    for k in (0..count).rev() {
        tasks.push(Task::Visit {
            node: e.part(node, k),
            depth: depth_of(k, count, depth, last),
        })?;
    }
    Ok(())
}

/// The work of a walk: the tasks that wait, the next last, and the parts that are built.
#[derive(Drop)]
struct Work {
    tasks: Vec<Task>,
    built: Vec<Expr>,
}

/// Puts a node over its parts, which were built last.
#[tactic(auto, using(crate::proofs::Walking::fits_here))]
fn join(alloc: Global, e: &Expr, node: u64, built: &mut Vec<Expr>) -> Result<(), Memory>
    requires inside { node < length (rows_of e.now) }
    requires formed { IsWellFormed (subtree e.now node) }
    requires enough { length (subtrees (subtree e.now node)) ≤ length built.old.items }
    ensures { OnOk result (built.new.items ≡ walk.joined (subtree e.now node) built.old.items) }
{
    shown_fits();
    let start = built.len() - e.parts(node) as usize;
    let parts = built.split_off(start)?;
    let joined = Expr::build(alloc, e.head(node), e.sym(node), e.numbers(node), parts)?;
    built.push(joined)?;
    Ok(())
}

impl Work {
    /// Rebuilds the subtree at a node, or puts tasks for its parts on the list.
    #[tactic(auto, using(crate::proofs::Walking::leaf_built))]
    fn visit(
        &mut self,
        alloc: Global,
        change: Change,
        e: &Expr,
        root: u64,
        node: u64,
        depth: u64,
    ) -> Result<(), Memory>
        requires inside { node < length (rows_of e.now) }
        requires formed { IsWellFormed (subtree e.now node) }
        requires gives { Gives change e.now root self.old.tasks.items
            (self.old.built.items ++ rebuilt change depth (subtree e.now node) ∷ []) }
        ensures { OnOk result (Gives change.entry e.now root self.new.tasks.items
            self.new.built.items) }
    {
        shown_makes();
        if let Some(leaf) = change.at(alloc, e, node, depth)? {
            self.built.push(leaf)?;
            return Ok(());
        }
        self.tasks.push(Task::Join { node })?;
        visit_parts(&mut self.tasks, e, node, depth)?;
        Ok(())
    }

    /// Does a task that was taken off the list.
    fn step(
        &mut self,
        alloc: Global,
        change: Change,
        e: &Expr,
        root: u64,
        task: Task,
    ) -> Result<(), Memory>
        requires { Gives change e.now root (self.old.tasks.items ++ task ∷ [])
            self.old.built.items }
        ensures { OnOk result (Gives change.entry e.now root self.new.tasks.items
            self.new.built.items) }
    {
        match task {
            Task::Visit { node, depth } => {
                self.visit(alloc, change, e, root, node, depth)?;
                Ok(())
            }
            Task::Join { node } => {
                join(alloc, e, node, &mut self.built)?;
                Ok(())
            }
        }
    }
}

/// The subtree at a node with something else for some of its leaves.
fn rebuild(alloc: Global, change: Change, e: &Expr, node: u64) -> Result<Expr, Memory>
    requires inside { node < length (rows_of e.now) }
    requires formed { IsWellFormed (subtree e.now node) }
    ensures { IfOk result (λ r. r ≡ rebuilt change.entry 0 (subtree e.now node)) }
{
    let first = Task::Visit { node, depth: 0 };
    let mut work = Work {
        tasks: vec![in alloc; first]?,
        built: Vec::new(alloc),
    };
    for _ in 0..u64::MAX {
        let Some(task) = work.tasks.pop() else {
            return Ok(work.built.swap_remove(0));
        };
        work.step(alloc, change, e, node, task)?;
    }
    Err(Memory)
}

/// The expression with something else for some of its leaves.
fn rebuild_whole(alloc: Global, change: Change, e: &Expr) -> Result<Expr, Memory>
    ensures { IfOk result (λ r. r ≡ rebuilt change.entry 0 e.now) }
{
    last_is_root();
    rebuild(alloc, change, e, e.length() - 1)
}

/// The body of a binder round a closed expression: with the binder's variable for a symbol without arguments. Takes time linear in
/// the expression, where a part counts once more for each node in which it is not the first part, and no stack.
pub fn abstracted(alloc: Global, e: &Expr, symbol: Sym) -> Result<Expr, Memory>
    ensures { IfOk result (λ r. r ≡ rebuilt (change.Bind symbol) 0 e.now) }
{
    rebuild_whole(alloc, Change::Bind(symbol), e)
}

/// A body with the arguments for its loose variables, the last for 0; past the first, TRUE.
#[tactic(auto, using(crate::proofs::Meant::put_is))]
pub fn over_arguments(alloc: Global, body: &Expr, args: &[Expr]) -> Result<Expr, Memory>
    ensures { IfOk result (λ r. r ≡ put 0 (parts_of args.now) body.now) }
{
    rebuild_whole(alloc, Change::Fill(args), body)
}

/// The part `k` of the root, from 0; a binder's body is its last part.
#[tactic(auto, using(crate::proofs::Meant::kept_is, crate::proofs::Formed::part_formed))]
pub fn part(alloc: Global, e: &Expr, k: u64) -> Result<Expr, Memory>
    requires { k < length (subtrees e.now) }
    ensures { IfOk result (λ r. r ≡ slice_index_or (subtrees e.now) k true_) }
{
    last_is_root();
    let root = e.length() - 1;
    let _count = e.parts(root);
    rebuild(alloc, Change::Keep, e, e.part(root, k))
}

/// The parts of the root; a binder's body is the last.
pub fn parts(alloc: Global, e: &Expr) -> Result<Vec<Expr>, Memory>
    ensures { IfOk result (λ v. v.items ≡ subtrees e.now) }
{
    last_is_root();
    let root = e.length() - 1;
    let mut found = Vec::new(alloc);
    for k in 0..e.parts(root) {
        found.push(part(alloc, e, k)?)?;
    }
    Ok(found)
}
