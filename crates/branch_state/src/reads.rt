//! What is read of the branch that is worked on.
ghost use Rattle.std.specs.Prelude.{◌≡◌, ◌<◌, ℕ, length, true, false, IfSome, IfNone};
ghost use Rattle.branch_state.specs.Shown.{Falls, placed_at, item_of, stands, needs_at, IsAlive};
ghost use Rattle.branch_state.specs.Parts.{Holds, shown};

use crate::parts::Parts;
use branch_book::Item;

/// The number of entries.
pub fn length(parts: &Parts) -> u64
    requires { Holds parts.now }
    ensures { result ≡ length (shown parts.now).now }
{
    parts.book.length()
}

/// The number of branches that wait.
pub fn waits(parts: &Parts) -> u64
    ensures { result ≡ length (shown parts.now).waits }
{
    parts.waits.len() as u64
}

/// The entry with this number, by age.
pub fn entry(parts: &Parts, i: u64) -> Item
    requires held { Holds parts.now }
    requires within { i < length (shown parts.now).now }
    ensures { result ≡ item_of (placed_at (shown parts.now).now i) }
{
    parts.book.entry(i)
}

/// The entry of the formula. No other entry has it.
pub fn find(parts: &Parts, formula: u64) -> Option<u64>
    requires held { Holds parts.now }
    ensures within { IfSome result (λ i. i < length (shown parts.now).now) }
    ensures found { IfSome result (λ i. (placed_at (shown parts.now).now i).formula ≡ formula) }
    ensures stands { IfSome result (λ _. stands (shown parts.now).now formula ≡ true) }
    ensures absent { IfNone result (stands (shown parts.now).now formula ≡ false) }
{
    parts.book.find(formula)
}

/// Whether the formula has an entry.
pub fn has(parts: &Parts, formula: u64) -> bool
    requires { Holds parts.now }
    ensures { result ≡ stands (shown parts.now).now formula }
{
    find(parts, formula).is_some()
}

/// The oldest live entry of the class.
pub fn first(parts: &Parts, class: u64) -> Option<u64>
    requires held { Holds parts.now }
    requires class { class < 68 }
    ensures alive { IfSome result (λ i. IsAlive (shown parts.now).now class i) }
    ensures oldest { IfSome result (λ i.
        (j : ℕ) → j < i → IsAlive (shown parts.now).now class j → ⊥) }
    ensures absent { IfNone result ((j : ℕ) → IsAlive (shown parts.now).now class j → ⊥) }
{
    parts.book.first(class)
}

/// The next younger live entry of the class of a live entry.
pub fn next(parts: &Parts, class: u64, i: u64) -> Option<u64>
    requires held { Holds parts.now }
    requires alive { IsAlive (shown parts.now).now class i }
    ensures alive { IfSome result (λ k. IsAlive (shown parts.now).now class k) }
    ensures younger { IfSome result (λ k. i < k) }
    ensures next { IfSome result (λ k.
        (j : ℕ) → i < j → j < k → IsAlive (shown parts.now).now class j → ⊥) }
    ensures absent { IfNone result (
        (j : ℕ) → i < j → IsAlive (shown parts.now).now class j → ⊥) }
{
    parts.book.next(i)
}

/// The needs of the formula's entry, none where it has no entry.
pub fn needs_of(parts: &Parts, formula: u64) -> &[u64]
    requires held { Holds parts.now }
    ensures needs { result.now ≡ needs_at (shown parts.entry.now).now formula }
    ensures falls { Falls result.now }
{
    match parts.book.find(formula) {
        None => &[],
        Some(i) => &parts.sets[parts.links[i as usize] as usize],
    }
}
