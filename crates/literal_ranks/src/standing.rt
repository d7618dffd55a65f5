//! What stands on the branch.
ghost use Rattle.std.specs.Prelude.{◌≡◌, ◌<◌, length};
ghost use Rattle.core_expr.specs.Tree.{not_};
ghost use Rattle.term_bank.specs.Banks.{tree_at};
ghost use Rattle.search_definition.specs.Terms.{either};
ghost use Rattle.search_definition.specs.Branches.{has};
ghost use Rattle.branch_state.specs.Parts.{Holds, shown};
ghost use Rattle.tableau_search.specs.Entries.{AreKnown, branch_of};

use branch_state::{Parts, has};
use branch_values::is_denied;
use term_bank::Bank;

/// Whether the formula at an index stands on the branch.
fn stands(bank: &Bank, parts: &Parts, i: u64) -> bool
    requires within { i < length bank.now }
    requires held { Holds parts.now }
    requires known { AreKnown (length bank.now) (shown parts.now).now }
    ensures { result ≡ has (branch_of bank.now (shown parts.now).now) (tree_at bank.now i) }
{
    let _count = bank.count();
    has(parts, i)
}

/// Whether the formula at an index or its Not stands on the branch.
pub fn is_told(bank: &Bank, parts: &Parts, i: u64) -> bool
    requires within { i < length bank.now }
    requires held { Holds parts.now }
    requires known { AreKnown (length bank.now) (shown parts.now).now }
    ensures { result ≡ either (has (branch_of bank.now (shown parts.now).now) (tree_at bank.now i))
        (has (branch_of bank.now (shown parts.now).now) (not_ (tree_at bank.now i))) }
{
    stands(bank, parts, i) || is_denied(bank, parts, i)
}
