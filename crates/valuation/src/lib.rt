//! Truth values of propositional canonical forms.
//!
//! To the layers above this crate promises that [`is_formula`] says exactly whether an expression is built of TRUE, FALSE,
//! symbols without arguments and the five connectives, [`is_propositional`] whether the facts and the goal are, and [`falsifies`]
//! whether values of the symbols, by their numbers, make every fact true and the goal false. None takes memory.
#![tactic(auto)]

mod falsify;
mod form;

pub use falsify::falsifies;
pub use form::{is_formula, is_propositional};
