//! The search on an obligation.
ghost use Rattle.std.specs.Prelude.{◌≡◌, ◌<◌, List, [], ◌∷◌, length, map, IfOk};
ghost use Rattle.core_expr.specs.Tree.{Tree};
ghost use Rattle.seq_calculus.specs.Calculus.{AllClosed};
ghost use Rattle.term_bank.specs.Banks.{IsDistinct, Extends};
ghost use Rattle.search_definition.specs.Search.{fresh, denied, search as written, steps};
ghost use Rattle.search_trace.specs.Traces.{moves_of, TurnsUnder};
ghost use Rattle.search_loop.specs.Turns.{StepsAre};
ghost use Rattle.branch_state.specs.Shown.{item_of, with_all};
ghost use Rattle.branch_state.specs.Parts.{AreClassed, Holds, shown};
ghost use Rattle.tableau_search.specs.Entries.{NewsUnder, ItemsUnder, new_trees};
ghost use Rattle.tableau_search.specs.Boards.{IsEnd};

use crate::engine::Engine;
use crate::finder::Finder;
use branch_book::Item;
use branch_state::{New, Parts, add_all, empty, entry, keep_set, length};
use core_expr::Memory;
use search_loop::{Ending, search};
use search_trace::Turn;
use std::alloc::{AllocError, Global};

/// What a search came to: the finder with all formulas, how it ended, the entries of the branch that was worked on last, by age,
/// and the turns.
#[derive(Drop)]
pub struct Solved<F> {
    pub finder: F,
    pub ending: Ending,
    pub branch: Vec<Item>,
    pub turns: Vec<Turn>,
}

/// One branch of these formulas, none of which needs a split.
fn start(alloc: Global, formulas: &[New]) -> Result<Parts, AllocError>
    requires { AreClassed formulas.now }
    ensures held { IfOk result Holds }
    ensures shown { IfOk result (λ p. shown p
        ≡ record { now = with_all [] [] formulas.now; waits = []; sets = [] ∷ [] }) }
{
    let mut parts = empty(alloc)?;
    let none = keep_set(&mut parts, Vec::new(alloc))?;
    add_all(&mut parts, formulas, none)?;
    Ok(parts)
}

/// The entries of the branch, by age.
fn entries(alloc: Global, parts: &Parts) -> Result<Vec<Item>, AllocError>
    requires { Holds parts.now }
    ensures { IfOk result (λ v. v.items ≡ map item_of (shown parts.now).now) }
{
    let mut items = Vec::new(alloc);
    for i in 0..length(parts) {
        items.push(entry(parts, i))?;
    }
    Ok(items)
}

/// How the written search ends with at most `limit` turns on an obligation: `formulas` are its facts in order and the Not of
/// its goal. The turns are those of the search's steps; where the limit is reached, with one more.
pub fn solve<F: Finder + Drop>(
    alloc: Global,
    finder: F,
    formulas: &[New],
    limit: u64,
) -> Result<Solved<F>, Memory>
    requires holds { F.holds finder }
    requires limit { limit < 9223372036854775808 }
    requires distinct { IsDistinct (F.trees finder) }
    requires known { NewsUnder (length (F.trees finder)) formulas.now }
    requires classed { AreClassed formulas.now }
    requires closed { AllClosed (new_trees (F.trees finder) formulas.now) }
    requires right { F.right finder [] }
    requires count { F.count finder ≡ 0 }
    ensures holds { IfOk result (λ s. F.holds s.finder) }
    ensures extends { IfOk result (λ s. Extends (F.trees finder) (F.trees s.finder)) }
    ensures fresh { IfOk result (λ s. F.fresh s.finder ≡ F.fresh finder) }
    ensures known { IfOk result (λ s. ItemsUnder (length (F.trees s.finder)) s.branch.items) }
    ensures under { IfOk result (λ s. TurnsUnder (length (F.trees s.finder)) s.turns.items) }
    ensures ends { (facts : List Tree) (goal : Tree) → F.fresh finder ≡ fresh facts goal
        → new_trees (F.trees finder) formulas.now ≡ denied facts goal
        → IfOk result (λ s.
        IsEnd (F.trees s.finder) s.branch.items s.ending (written facts goal limit)) }
    ensures steps { (facts : List Tree) (goal : Tree) → F.fresh finder ≡ fresh facts goal
        → new_trees (F.trees finder) formulas.now ≡ denied facts goal
        → IfOk result (λ s. StepsAre s.ending (steps facts goal limit) []
        (moves_of (F.trees s.finder) s.turns.items)) }
{
    let parts = start(alloc, formulas)?;
    let mut engine = Engine {
        finder,
        parts,
        turns: Vec::new(alloc),
    };
    let ending = search(alloc, &mut engine, limit)?;
    let branch = entries(alloc, &engine.parts)?;
    Ok(Solved {
        finder: engine.finder,
        ending,
        branch,
        turns: engine.turns,
    })
}
