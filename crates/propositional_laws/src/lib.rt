//! What the written search, second edition, says of propositional obligations.
//!
//! To the layers above this crate promises, of facts and a goal that are built of TRUE, FALSE, symbols without arguments and
//! the five connectives: a saturated branch is a valuation that makes the facts true and the goal false; the search ends
//! closed only where there is none; and with `2 ^ (c + 1)` turns or more, c the number of connectives of facts and goal, it
//! ends in one of the two ways. The laws are the contracts of functions that do nothing.
#![tactic(auto)]

mod laws;

pub use laws::{
    closed_is_valid, decides_propositional, few_connectives, forms_are_formulas,
    saturated_falsifies, tests_falsifies, tests_formulas, turns_suffice, values_falsify,
};
