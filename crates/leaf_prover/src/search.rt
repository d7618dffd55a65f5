//! The written search on a canonical form.
ghost use Rattle.std.specs.Prelude.{◌≡◌, true, length, IfOk};
ghost use Rattle.propositional_laws.specs.Formulas.{symbol_count};
ghost use Rattle.search_definition.specs.Search.{End};
ghost use Rattle.tableau_search.specs.Entries.{ItemsUnder};
ghost use Rattle.tableau_search.specs.Boards.{IsEnd};
ghost use Rattle.leaf_prover.specs.Forms.{is_form};
ghost use Rattle.tableau_ranks.specs.Kept.{trees_in};
ghost use Rattle.leaf_prover.specs.Searches.{IsSearched};
ghost use Rattle.leaf_prover.specs.Answers.{answer, answer_for, WithValues};

use crate::answer::Answer;
use crate::start::intern_denied;
use crate::unused::unused_symbols;
use crate::values::values_of;
use branch_book::Item;
use branch_values::with_classes;
use core_expr::{Canon, Memory};
use proof_cache::Limit;
use rank_memo::RankMemo;
use search_loop::Ending;
use search_trace::Turn;
use std::alloc::Global;
use tableau_ranks::{TableauRanks, search};
use tableau_search::Ranked;
use term_bank::Bank;

/// The answer of a search that ended so, whose last branch has these entries, on a form with so many symbols.
fn answer_of(
    alloc: Global,
    bank: &Bank,
    branch: &[Item],
    ending: Ending,
    canon: &Canon,
    symbols: u64,
) -> Result<Answer, Memory>
    requires under { ItemsUnder (length bank.now) branch.now }
    requires symbols { symbols ≡ symbol_count canon.now }
    ensures { IfOk result (λ a. (e : End) → IsEnd bank.now branch.now ending e
        → a ≡ answer_for canon.now e) }
{
    match ending {
        Ending::Closed(turns) => Ok(Answer::Proved { turns }),
        Ending::Saturated(turns) => {
            let values = values_of(alloc, bank, branch, canon, symbols)?;
            Ok(Answer::Saturated { values, turns })
        }
        Ending::Spent(turns) => Ok(Answer::Spent { turns }),
    }
}

/// What a search on a form came to: the formulas by number, how it ended, the entries of the branch that was worked on last, by age, and the
/// turns; the number of the goal; and above which number no symbol of the form is.
#[derive(Drop)]
pub struct Searched {
    pub bank: Bank,
    pub ending: Ending,
    pub branch: Vec<Item>,
    pub turns: Vec<Turn>,
    pub goal: u64,
    pub symbols: u64,
}

/// The formulas that the ranks keep by number.
fn bank_of(finder: Ranked<TableauRanks>) -> Bank
    ensures { result ≡ trees_in finder.ranks }
{
    let Ranked { ranks } = finder;
    let TableauRanks { memo, sizes: _ } = ranks;
    let RankMemo {
        bank,
        spare: _,
        metas: _,
        positions: _,
    } = memo;
    bank
}

/// The written search on the canonical form, with at most so many turns.
pub fn search_form(alloc: Global, canon: &Canon, limit: Limit) -> Result<Searched, Memory>
    requires form { is_form canon.now ≡ true }
    ensures { IfOk result (IsSearched limit canon.now) }
{
    let unused = unused_symbols(alloc, canon)?;
    let mut bank = Bank::new(alloc)?;
    let denied = intern_denied(&mut bank, alloc, canon)?;
    let formulas = with_classes(&bank, alloc, denied.formulas.as_slice())?;
    let solved = search(
        alloc,
        bank,
        unused.spare,
        unused.metas,
        formulas.as_slice(),
        limit.turns(),
    )?;
    Ok(Searched {
        bank: bank_of(solved.finder),
        ending: solved.ending,
        branch: solved.branch,
        turns: solved.turns,
        goal: denied.goal,
        symbols: unused.above,
    })
}

/// What the written search answers to the canonical form, with at most so many turns. Want of memory is the only other answer.
pub fn answer_to(alloc: Global, canon: &Canon, limit: Limit) -> Result<Answer, Memory>
    requires form { is_form canon.now ≡ true }
    ensures answer { IfOk result (λ a. a ≡ answer limit canon.now) }
    ensures values { IfOk result (λ a. WithValues (symbol_count canon.now) a) }
{
    let s = search_form(alloc, canon, limit)?;
    let branch = s.branch.as_slice();
    let answer = answer_of(alloc, &s.bank, branch, s.ending, canon, s.symbols)?;
    Ok(answer)
}
