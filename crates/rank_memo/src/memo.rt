//! The memo.
ghost use Rattle.std.specs.Prelude.{◌≡◌, List, length, IfOk};
ghost use Rattle.branch_state.specs.Shown.{Placed};
ghost use Rattle.entry_positions.specs.Places.{place_at};
ghost use Rattle.rank_memo.specs.Looked.{IsLooked, position_at, moved, IsRightAt, looked_added, looked_used};

use crate::place::Place;
use core_expr::Memory;
use entry_positions::Positions;
use std::alloc::{AllocError, Global};
use tableau_search::Memo;
use term_bank::Bank;

/// Formulas by number, the number of the spare symbol, the first of the metavariables, and the positions.
#[derive(Drop)]
pub struct RankMemo {
    pub bank: Bank,
    pub spare: u64,
    pub metas: u64,
    pub positions: Positions,
}

impl RankMemo {
    /// A memo of these formulas that has looked at nothing.
    pub fn new(alloc: Global, bank: Bank, spare: u64, metas: u64) -> Result<RankMemo, AllocError>
        ensures bank { IfOk result (λ m. m.bank ≡ bank) }
        ensures spare { IfOk result (λ m. m.spare ≡ spare) }
        ensures metas { IfOk result (λ m. m.metas ≡ metas) }
        ensures right { IfOk result (λ m. (es : List Placed)
            → IsLooked m.bank es m.positions.current) }
        ensures count { IfOk result (λ m. length m.positions.saved ≡ 0) }
    {
        let positions = Positions::new(alloc, 8)?;
        Ok(RankMemo {
            bank,
            spare,
            metas,
            positions,
        })
    }

    /// The position of the place.
    pub fn position(&self, place: Place) -> u64
        requires { length self.now.positions.current ≡ 8 }
        ensures { result ≡ position_at self.now.positions.current place }
    {
        self.positions.get(place.number())
    }

    /// Moves the position of the place to where it is right for the branch of these entries.
    pub fn move_to(&mut self, place: Place, position: u64)
        requires { length self.old.positions.current ≡ 8 }
        ensures bank { self.new.bank ≡ self.old.bank }
        ensures spare { self.new.spare ≡ self.old.spare }
        ensures metas { self.new.metas ≡ self.old.metas }
        ensures saved { self.new.positions.saved ≡ self.old.positions.saved }
        ensures moved { self.new.positions.current
            ≡ moved self.old.positions.current place position }
        ensures right { (es : List Placed) → IsLooked self.old.bank es self.old.positions.current
            → IsRightAt self.old.bank es place position
            → IsLooked self.new.bank es self.new.positions.current }
    {
        self.positions.set(place.number(), position);
    }
}

impl Memo for RankMemo {
    ghost trees = { λ m. m.bank };

    ghost fresh = { λ m. record { spare = m.spare; metas = m.metas } };

    ghost holds = { λ m. Unit {0} };

    ghost right = { λ m es. IsLooked m.bank es m.positions.current };

    ghost saved = { λ m k es. IsLooked m.bank es (place_at m.positions.saved k) };

    ghost count = { λ m. length m.positions.saved };

    fn put_off(&mut self, alloc: Global) -> Result<(), Memory> {
        self.positions.put_off(alloc)?;
        Ok(())
    }

    fn take_up(&mut self, at: u64) -> Result<(), Memory> {
        self.positions.take_up(at);
        Ok(())
    }

    ghost added = { λ m es needs n u d a l c h.
        looked_added m.bank es needs n m.positions.current d a l h };

    ghost used = { λ m es stays rises i u v h.
        looked_used m.bank es stays rises i m.positions.current v h };
}
