//! Answers of rules that add one formula.
ghost use Rattle.std.specs.Prelude.{◌≡◌, ◌<◌, true, Some, List, length, IfOk};
ghost use Rattle.core_expr.specs.Nodes.{AreBelow};
ghost use Rattle.branch_state.specs.Shown.{Placed, placed_at};
ghost use Rattle.tableau_search.specs.Found.{IsFound};
ghost use Rattle.equation_ranks.specs.Replacing.{used_result};

use branch_state::New;
use core_expr::Memory;
use formula_rules::class;
use search_definition::Rule;
use search_trace::Used;
use std::alloc::Global;
use tableau_search::Found;
use term_bank::Bank;

/// What the rule at an entry names, works with and adds.
pub fn alone_found(
    bank: &Bank,
    alloc: Global,
    entry: u64,
    rule: Rule,
    named: &[u64],
    terms: &[u64],
    added: u64,
) -> Result<Found, Memory>
    requires named { AreBelow (length bank.now) named.now }
    requires terms { AreBelow (length bank.now) terms.now }
    requires added { added < length bank.now }
    ensures { (es : List Placed) → entry < length es → (placed_at es entry).live ≡ true
        → IfOk result (IsFound bank.now es
        (Some (used_result bank.now entry rule named.now terms.now added))) }
{
    let new = New {
        formula: added,
        class: class(bank, added),
    };
    let used = Used {
        entry,
        rule,
        named: Vec::from_slice(alloc, named)?,
        terms: Vec::from_slice(alloc, terms)?,
    };
    let added = Vec::from_slice(alloc, &[new])?;
    Ok(Found::Alone(used, added))
}
