//! The most general unifier, as a definition: metavariables are the symbols of a list that is given, each without arguments.
//!
//! To the layers above this crate promises, of what `specs/` defines: the answer is a unifier, most general and fully
//! applied; there is none exactly where no unifier exists; and as many rounds as there are metavariables suffice.
//!
//! Its functions do nothing. Each is there for its contract, which is a law of the definitions.
#![tactic(auto)]

ghost use Rattle.unifier_definition.specs.Walk.{DifferenceByParts};
ghost use Rattle.unifier_definition.specs.Laws.{AnswerUnifies, AnswerIsGeneral, AnswerIsApplied, AnswerIsListed, NoneMeansNone, UnifierHasRoom, SameIsEqual};

/// What the unifier answers is a unifier: closed terms that make both terms equal.

pub fn answer_unifies()
    ensures { AnswerUnifies }
{}

/// What the unifier answers is most general: every unifier is an instance of it.
#[tactic(auto, using(crate::proofs::Contracts::answer_is_general))]
pub fn answer_is_general()
    ensures { AnswerIsGeneral }
{}

/// What the unifier answers is fully applied: putting it into its own terms changes nothing.
#[tactic(auto, using(crate::proofs::Contracts::answer_is_applied))]
pub fn answer_is_applied()
    ensures { AnswerIsApplied }
{}

/// What the unifier answers binds metavariables of the list alone.
#[tactic(auto, using(crate::proofs::Contracts::answer_is_listed))]
pub fn answer_is_listed()
    ensures { AnswerIsListed }
{}

/// The unifier answers None exactly where there is no unifier.
#[tactic(auto, using(crate::proofs::Contracts::none_means_none))]
pub fn none_means_none()
    ensures { NoneMeansNone }
{}

/// Room for as many rounds as there are metavariables is enough for the unifier.
#[tactic(auto, using(crate::proofs::Contracts::unifier_has_room))]
pub fn unifier_has_room()
    ensures { UnifierHasRoom }
{}

/// Two terms differ nowhere exactly where they are equal.
#[tactic(auto, using(crate::proofs::Contracts::same_is_equal))]
pub fn same_is_equal()
    ensures { SameIsEqual }
{}

/// Two nodes of one kind with the same numbers differ first where their parts do.
#[tactic(auto, using(crate::proofs::Walked::difference_by_parts))]
pub fn difference_by_parts()
    ensures { DifferenceByParts }
{}
