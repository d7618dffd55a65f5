//! The laws of the search on propositional obligations. The functions do nothing: their contracts are the laws.

ghost use Rattle.propositional_laws.specs.Laws.{TestsFormulas, TestsFalsifies, FormsAreFormulas, SaturatedFalsifies, ValuesFalsify, ClosedIsValid, TurnsSuffice, DecidesPropositional, FewConnectives};

use search_definition::{first_is_by_rank, used_stands};

/// The tests of propositional formulas say what they test.
#[tactic(auto, using(crate::proofs::Forms::tests))]
pub fn tests_formulas()
    ensures { TestsFormulas }
{}

/// The test of whether a valuation makes the facts true and the goal false says what it tests.
#[tactic(auto, using(crate::proofs::Values::tests_falsifies))]
pub fn tests_falsifies()
    ensures { TestsFalsifies }
{}

/// The facts and the goal of a propositional canonical form are propositional formulas.
pub fn forms_are_formulas()
    ensures { FormsAreFormulas }
{}

/// Where the search ends saturated, the branch's valuation makes the facts true and the goal false.
#[tactic(auto, using(crate::proofs::Saturates::saturated_falsifies))]
pub fn saturated_falsifies()
    ensures { SaturatedFalsifies }
{
    first_is_by_rank();
}

/// Where it does on a canonical form, the values of the form's symbols, by their numbers, do too.
#[tactic(auto, using(crate::proofs::Numbers::values_falsify))]
pub fn values_falsify()
    ensures { ValuesFalsify }
{
    saturated_falsifies();
}

/// Where the search ends closed, no valuation makes the facts true and the goal false.
#[tactic(auto, using(crate::proofs::Refutes::closed_is_valid))]
pub fn closed_is_valid()
    ensures { ClosedIsValid }
{
    used_stands();
}

/// With `2 ^ (c + 1)` turns or more, c the number of connectives of facts and goal, the search does not end spent.
#[tactic(auto, using(crate::proofs::Turns::turns_suffice))]
pub fn turns_suffice()
    ensures { TurnsSuffice }
{}

/// With so many turns the search ends closed exactly where no valuation makes the facts true and the goal false.
pub fn decides_propositional()
    ensures { DecidesPropositional }
{
    saturated_falsifies();
    closed_is_valid();
    turns_suffice();
}

/// A hundred thousand turns are enough for 15 connectives, and a million for 18.
#[tactic(auto, using(crate::proofs::Numbers::few_connectives))]
pub fn few_connectives()
    ensures { FewConnectives }
{}
