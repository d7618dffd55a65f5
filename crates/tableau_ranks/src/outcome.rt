//! The search on an obligation, over these ranks.
ghost use Rattle.std.specs.Prelude.{◌≡◌, ◌<◌, List, [], length, IfOk};
ghost use Rattle.core_expr.specs.Tree.{Tree};
ghost use Rattle.seq_calculus.specs.Calculus.{AllClosed};
ghost use Rattle.term_bank.specs.Banks.{Extends};
ghost use Rattle.search_definition.specs.Search.{fresh, denied, search as written, steps};
ghost use Rattle.search_trace.specs.Traces.{moves_of, TurnsUnder};
ghost use Rattle.search_loop.specs.Turns.{StepsAre};
ghost use Rattle.branch_state.specs.Parts.{AreClassed};
ghost use Rattle.tableau_search.specs.Entries.{NewsUnder, ItemsUnder, new_trees};
ghost use Rattle.tableau_search.specs.Boards.{IsEnd};
ghost use Rattle.tableau_ranks.specs.Kept.{trees_in};

use crate::state::TableauRanks;
use branch_state::New;
use core_expr::Memory;
use std::alloc::Global;
use tableau_search::{Ranked, Solved, solve};
use term_bank::Bank;

/// How the written search ends with at most `limit` turns on an obligation: `formulas` are its facts in order and the Not of
/// its goal, by their numbers in the bank; `spare` and `metas` are the numbers of its fresh symbols. The turns are those of
/// the search's steps; where the limit is reached, with one more.
pub fn search(
    alloc: Global,
    bank: Bank,
    spare: u64,
    metas: u64,
    formulas: &[New],
    limit: u64,
) -> Result<Solved<Ranked<TableauRanks>>, Memory>
    requires limit { limit < 9223372036854775808 }
    requires known { NewsUnder (length bank) formulas.now }
    requires classed { AreClassed formulas.now }
    requires closed { AllClosed (new_trees bank formulas.now) }
    ensures extends { IfOk result (λ s. Extends bank (trees_in s.finder.ranks)) }
    ensures known { IfOk result (λ s.
        ItemsUnder (length (trees_in s.finder.ranks)) s.branch.items) }
    ensures under { IfOk result (λ s.
        TurnsUnder (length (trees_in s.finder.ranks)) s.turns.items) }
    ensures ends { (facts : List Tree) (goal : Tree)
        → record { spare = spare; metas = metas } ≡ fresh facts goal
        → new_trees bank formulas.now ≡ denied facts goal
        → IfOk result (λ s. IsEnd (trees_in s.finder.ranks) s.branch.items s.ending
        (written facts goal limit)) }
    ensures steps { (facts : List Tree) (goal : Tree)
        → record { spare = spare; metas = metas } ≡ fresh facts goal
        → new_trees bank formulas.now ≡ denied facts goal
        → IfOk result (λ s. StepsAre s.ending (steps facts goal limit) []
        (moves_of (trees_in s.finder.ranks) s.turns.items)) }
{
    let _count = bank.count();
    let ranks = TableauRanks::new(alloc, bank, spare, metas)?;
    solve(alloc, Ranked { ranks }, formulas, limit)
}
