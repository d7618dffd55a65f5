//! Where the walk of a rank begins.
ghost use Rattle.std.specs.Prelude.{◌≡◌, List, length, IfSome};
ghost use Rattle.branch_state.specs.Shown.{Placed};
ghost use Rattle.rank_memo.specs.Looked.{IsLooked, IsRightAt};
ghost use Rattle.tableau_ranks.specs.Starts.{start_at};

use rank_memo::{Place, RankMemo};

/// The position of the place; without one, 0.
pub fn start_at(memo: &RankMemo, place: Option<Place>) -> u64
    requires { length memo.now.positions.current ≡ 8 }
    ensures { result ≡ start_at memo.now.positions.current place }
{
    match place {
        Some(place) => memo.position(place),
        None => 0,
    }
}

/// Moves the position of the place, if there is one, to where it is right for the branch of these entries.
pub fn move_on(memo: &mut RankMemo, place: Option<Place>, position: u64)
    requires { length memo.old.positions.current ≡ 8 }
    ensures bank { memo.new.bank ≡ memo.old.bank }
    ensures spare { memo.new.spare ≡ memo.old.spare }
    ensures metas { memo.new.metas ≡ memo.old.metas }
    ensures saved { memo.new.positions.saved ≡ memo.old.positions.saved }
    ensures right { (es : List Placed)
        → IsLooked memo.old.bank es memo.old.positions.current
        → IfSome place (λ q. IsRightAt memo.old.bank es q position)
        → IsLooked memo.new.bank es memo.new.positions.current }
{
    match place {
        Some(place) => memo.move_to(place, position),
        None => {}
    }
}
