//! What the ranks keep.
ghost use Rattle.std.specs.Prelude.{◌≡◌, List, length, IfOk};
ghost use Rattle.branch_state.specs.Shown.{Placed};
ghost use Rattle.entry_positions.specs.Places.{place_at};
ghost use Rattle.rank_memo.specs.Looked.{IsLooked, looked_added, looked_used};
ghost use Rattle.tableau_ranks.specs.Kept.{trees_in, fresh_in, IsSized, LooksAt};

use core_expr::Memory;
use rank_memo::RankMemo;
use std::alloc::{AllocError, Global};
use tableau_search::Memo;
use term_bank::Bank;
use term_order::Sizes;

/// The formulas by number with the fresh symbols and how far each branch was looked at, and the sizes of the first formulas.
#[derive(Drop)]
pub struct TableauRanks {
    pub memo: RankMemo,
    pub sizes: Sizes,
}

impl TableauRanks {
    /// The ranks over these formulas, where `spare` is the number of the spare symbol and `metas` the first of those of the
    /// metavariables. Nothing was looked at yet.
    pub fn new(
        alloc: Global,
        bank: Bank,
        spare: u64,
        metas: u64,
    ) -> Result<TableauRanks, AllocError>
        ensures trees { IfOk result (λ t. ⟦<TableauRanks as Memo>⟧.trees t ≡ bank) }
        ensures fresh { IfOk result (λ t.
            ⟦<TableauRanks as Memo>⟧.fresh t ≡ record { spare = spare; metas = metas }) }
        ensures holds { IfOk result ⟦<TableauRanks as Memo>⟧.holds }
        ensures right { IfOk result (λ t. (es : List Placed)
            → ⟦<TableauRanks as Memo>⟧.right t es) }
        ensures count { IfOk result (λ t. ⟦<TableauRanks as Memo>⟧.count t ≡ 0) }
    {
        let memo = RankMemo::new(alloc, bank, spare, metas)?;
        Ok(TableauRanks {
            memo,
            sizes: Sizes::new(alloc),
        })
    }
}

impl Memo for TableauRanks {
    ghost trees = { λ t. trees_in t };

    ghost fresh = { λ t. fresh_in t };

    ghost holds = { λ t. IsSized t };

    ghost right = { λ t es. LooksAt t es };

    ghost saved = { λ t k es. IsLooked (trees_in t) es (place_at t.memo.positions.saved k) };

    ghost count = { λ t. length t.memo.positions.saved };

    fn put_off(&mut self, alloc: Global) -> Result<(), Memory> {
        self.memo.put_off(alloc)
    }

    fn take_up(&mut self, at: u64) -> Result<(), Memory> {
        self.memo.take_up(at)
    }

    ghost added = { λ t es needs n u d a l c h.
        looked_added (trees_in t) es needs n t.memo.positions.current d a l h };

    ghost used = { λ t es stays rises i u v h.
        looked_used (trees_in t) es stays rises i t.memo.positions.current v h };
}
