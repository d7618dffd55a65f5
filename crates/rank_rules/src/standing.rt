//! What stands on the branch.
ghost use Rattle.std.specs.Prelude.{◌≡◌, ◌<◌, length};
ghost use Rattle.term_bank.specs.Banks.{tree_at};
ghost use Rattle.search_definition.specs.Branches.{has};
ghost use Rattle.branch_state.specs.Parts.{Holds, shown};
ghost use Rattle.rank_rules.specs.Ranked.{branch_of, AreKnown};

use branch_state::{Parts, has};
use term_bank::Bank;

/// Whether the formula stands on the branch, live or dead.
pub fn stands(bank: &Bank, parts: &Parts, f: u64) -> bool
    requires held { Holds parts.now }
    requires known { AreKnown (length bank.now) (shown parts.now).now }
    requires within { f < length bank.now }
    ensures { result ≡ has (branch_of bank.now (shown parts.now).now) (tree_at bank.now f) }
{
    let _count = bank.count();
    has(parts, f)
}
