//! What is known of formulas and kept of branches.
ghost use Rattle.std.specs.Prelude.{◌≡◌, ◌<◌, ◌+◌, ℕ, Bool, true, List, length, OnOk};
ghost use Rattle.core_expr.specs.Tree.{Tree};
ghost use Rattle.seq_calculus.specs.Calculus.{IsClosed};
ghost use Rattle.term_bank.specs.Banks.{IsDistinct, tree_at};
ghost use Rattle.search_definition.specs.Instances.{Fresh};
ghost use Rattle.branch_state.specs.declared.parts.New.{New};
ghost use Rattle.branch_state.specs.Shown.{Placed, placed_at, with_new, used_at};
ghost use Rattle.tableau_search.specs.Entries.{AreKnown};
ghost use Rattle.tableau_search.specs.Memos.{Stays};

use core_expr::Memory;
use std::alloc::Global;

/// Formulas by number, and what is kept of the branch at hand from turn to turn, as how far its entries have been looked at.
/// Where a branch waits, what was kept of it is put off, and taken up with it.
pub trait Memo {
    /// The formula of each number.
    ghost trees: { Self → List Tree };

    /// The symbols that no formula has.
    ghost fresh: { Self → Fresh };

    /// What holds between calls.
    ghost holds: { Self → Type 0 };

    /// What is kept is right for the branch of these entries.
    ghost right: { Self → List Placed → Type 0 };

    /// What was put off at this place is right for the branch of these entries.
    ghost saved: { Self → ℕ → List Placed → Type 0 };

    /// The number of places.
    ghost count: { Self → ℕ };

    /// Puts what is kept off, at the next place, and keeps it too.
    fn put_off(&mut self, alloc: Global) -> Result<(), Memory>
        requires { holds self.old }
        ensures holds { OnOk result (holds self.new) }
        ensures trees { OnOk result (trees self.new ≡ trees self.old) }
        ensures fresh { OnOk result (fresh self.new ≡ fresh self.old) }
        ensures count { OnOk result (count self.new ≡ count self.old + 1) }
        ensures right { OnOk result ((es : List Placed) → right self.old es → right self.new es) }
        ensures put { OnOk result ((es : List Placed)
            → right self.old es → saved self.new (count self.old) es) }
        ensures saved { OnOk result (Stays (length (trees self.old)) (count self.old)
            (saved self.old) (saved self.new)) };

    /// Takes up what was put off at this place. What was put off before it stays, what after it goes.
    fn take_up(&mut self, at: u64) -> Result<(), Memory>
        requires holds { holds self.old }
        requires within { at < count self.old }
        ensures holds { OnOk result (holds self.new) }
        ensures trees { OnOk result (trees self.new ≡ trees self.old) }
        ensures fresh { OnOk result (fresh self.new ≡ fresh self.old) }
        ensures count { OnOk result (count self.new ≡ at) }
        ensures right { OnOk result ((es : List Placed) → saved self.old at es → right self.new es) }
        ensures saved { OnOk result (Stays (length (trees self.old)) at
            (saved self.old) (saved self.new)) };

    /// What is kept stays right when a closed formula is added.
    ghost added: { (x : Self) (es : List Placed) (needs : List ℕ) (n : New)
        → holds x → IsDistinct (trees x) → AreKnown (length (trees x)) es
        → n.formula < length (trees x) → IsClosed (tree_at (trees x) n.formula)
        → right x es → right x (with_new needs es n) };

    /// What is kept stays right when a live entry is used.
    ghost used: { (x : Self) (es : List Placed) (stays rises : Bool) (i : ℕ)
        → holds x → (placed_at es i).live ≡ true → right x es
        → right x (used_at stays rises es i) };
}
