//! The entries of formulas that are looked up, and which of two is older.
ghost use Rattle.std.specs.Prelude.{◌≡◌, ◌<◌, ◌≤◌, ℕ, length, IfSome, IfNone};
ghost use Rattle.branch_state.specs.Shown.{placed_at};
ghost use Rattle.branch_state.specs.Parts.{Holds, shown};
ghost use Rattle.equation_ranks.specs.Partners.{IsOldest, is_named, is_either, older_of};

use branch_state::Parts;

/// The place of the formula's entry, which no other entry has: None exactly where it has none.
fn place_of(parts: &Parts, formula: u64) -> Option<u64>
    requires held { Holds parts.now }
    ensures found { IfSome result (λ i. (i < length (shown parts.now).now)
        × ((placed_at (shown parts.now).now i).formula ≡ formula)) }
    ensures only { IfSome result (λ i. (j : ℕ) → j < length (shown parts.now).now
        → (placed_at (shown parts.now).now j).formula ≡ formula → j ≡ i) }
    ensures absent { IfNone result ((j : ℕ) → j < length (shown parts.now).now
        → (placed_at (shown parts.now).now j).formula ≡ formula → ⊥) }
{
    parts.book.find(formula)
}

/// The place of the formula's entry, where that is one of the oldest `i`.
fn place_among(parts: &Parts, i: u64, formula: u64) -> Option<u64>
    requires held { Holds parts.now }
    requires within { i ≤ length (shown parts.now).now }
    ensures { IsOldest (is_named (Some formula) (shown parts.now).now) i result }
{
    match place_of(parts, formula) {
        Some(place) => { if place < i { Some(place) } else { None } }
        None => None,
    }
}

/// The place of this formula's entry, if there is a formula, where that is one of the oldest `i`.
fn place_before(parts: &Parts, i: u64, named: Option<u64>) -> Option<u64>
    requires held { Holds parts.now }
    requires within { i ≤ length (shown parts.now).now }
    ensures { IsOldest (is_named named (shown parts.now).now) i result }
{
    match named {
        Some(formula) => place_among(parts, i, formula),
        None => None,
    }
}

/// The lesser of two places, if there are any.
fn older_of(a: Option<u64>, b: Option<u64>) -> Option<u64>
    ensures { result ≡ older_of a b }
{
    match (a, b) {
        (Some(i), Some(j)) => { if i < j { Some(i) } else { Some(j) } }
        (Some(i), None) => Some(i),
        (None, other) => other,
    }
}

/// The oldest of the first `i` entries whose formula is one of these two.
pub fn oldest_of(parts: &Parts, i: u64, a: Option<u64>, b: Option<u64>) -> Option<u64>
    requires held { Holds parts.now }
    requires within { i ≤ length (shown parts.now).now }
    ensures { IsOldest (is_either a b (shown parts.now).now) i result }
{
    older_of(place_before(parts, i, a), place_before(parts, i, b))
}
