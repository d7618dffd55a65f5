//! The written search's answer to a canonical form.
//!
//! To the layer above this crate promises:
//! - [`is_form`] says exactly whether the facts and the goal are closed expressions over canonical symbols without a temporal mark: those
//!   that the search over shared nodes can take.
//! - [`answer_to`] answers what the written search answers to such a form with a limit of turns: proved, saturated, with the values of its
//!   symbols where the form is propositional, or spent. Want of memory is the only other answer.
//! - [`Engine`] is the prover of jobs. A list of formulas that is no form is not searched, and is spent after no turn. For a form the first
//!   kept proof that is correct for it is taken, and else it is searched. A right verdict says what is answered, and its proof is correct
//!   whatever the cache holds ([`right_is_answered`]); a cache never turns a yes into a no ([`cache_keeps_proved`]).
//! - [`prove`] gives the same as a verdict, in which a proved form has a sequent proof that is correct for it.
//! - What answers mean, of the definition in `specs/Answers.antt`: the goal of a proved form has a derivation from its facts
//!   ([`proved_derives`]), values that are found falsify their form ([`values_are_right`]), and with enough turns a propositional form is
//!   proved exactly where nothing falsifies it ([`enough_turns_decide`]).
#![tactic(auto)]

mod answer;
mod engine;
mod form;
mod laws;
mod search;
mod start;
mod unused;
mod values;

pub use answer::Answer;
pub use engine::{Engine, prove};
pub use form::is_form;
pub use laws::{
    answered_derives, cache_keeps_proved, enough_turns_decide, proved_derives, right_is_answered,
    values_are_right,
};
pub use search::answer_to;
