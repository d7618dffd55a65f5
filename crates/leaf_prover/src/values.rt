//! The values of the symbols on a branch.
ghost use Rattle.std.specs.Prelude.{◌≡◌, ◌<◌, length, IfOk};
ghost use Rattle.term_bank.specs.Banks.{tree_at};
ghost use Rattle.propositional_laws.specs.Formulas.{symbol_count};
ghost use Rattle.propositional_laws.specs.Valuations.{valuation};
ghost use Rattle.tableau_search.specs.Entries.{ItemsUnder, branch_by};
ghost use Rattle.leaf_prover.specs.Marks.{letter, marked};
ghost use Rattle.leaf_prover.specs.Answers.{values_of};

use branch_book::Item;
use core_expr::{Canon, Memory};
use sqlite_items::Items;
use std::alloc::Global;
use term_bank::Bank;
use term_shapes::{Shape, parts_at, shape_at};
use valuation::is_propositional;

/// The number of the symbol that the formula at an index is, where it is a symbol without arguments.
fn letter(bank: &Bank, i: u64) -> Option<u64>
    requires { i < length bank.now }
    ensures { result ≡ letter (tree_at bank.now i) }
{
    match shape_at(bank, i) {
        Shape::Symbol(number, 0) if parts_at(bank, i).is_empty() => Some(number),
        _ => None,
    }
}

/// Sets the value with this number to TRUE.
fn mark(values: &mut Vec<bool>, number: Option<u64>)
    ensures { values.new.items ≡ marked values.old.items number }
{
    if let Some(n) = number {
        if n < values.len() as u64 {
            values[n as usize] = true;
        }
    }
}

/// TRUE for those of the first `symbols` symbols that stand on the branch as formulas.
fn values_on(alloc: Global, bank: &Bank, branch: &[Item], symbols: u64) -> Result<Vec<bool>, Memory>
    requires { ItemsUnder (length bank.now) branch.now }
    ensures { IfOk result (λ v. v.items ≡ valuation symbols (branch_by bank.now branch.now)) }
{
    let mut values: Vec<bool> = vec![in alloc; false; symbols as usize]?;
    for i in 0..branch.len() {
        let number = letter(bank, branch[i].formula);
        mark(&mut values, number);
    }
    Ok(values)
}

/// The values of the symbols of a form on the branch, where the form is propositional; it has so many symbols.
pub fn values_of(
    alloc: Global,
    bank: &Bank,
    branch: &[Item],
    canon: &Canon,
    symbols: u64,
) -> Result<Option<Items<bool>>, Memory>
    requires under { ItemsUnder (length bank.now) branch.now }
    requires symbols { symbols ≡ symbol_count canon.now }
    ensures { IfOk result (λ v. v ≡ values_of canon.now (branch_by bank.now branch.now)) }
{
    if !is_propositional(canon) {
        return Ok(None);
    }
    let values = values_on(alloc, bank, branch, symbols)?;
    Ok(Some(Items::from_vec(values)))
}
