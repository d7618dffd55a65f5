//! What answers mean. The functions do nothing: their contracts are the laws.
ghost use Rattle.leaf_prover.specs.Laws.{ProvedDerives, ProvedIsValid, ValuesFalsify, EnoughTurnsDecide, FewConnectivesDecide};
ghost use Rattle.leaf_prover.specs.Provers.{RightIsAnswered, ProofsAreCorrect, AnsweredDerives, SaturatedIsSearched, NoneKeptIsSearched, CacheKeepsProved};

use cache_hit::hit_is_correct;
use proof_trees::loop_proves;
use propositional_laws::{
    closed_is_valid, decides_propositional, few_connectives, forms_are_formulas, turns_suffice,
    values_falsify,
};

/// The goal of a proved form has a derivation in the calculus from its facts.
#[tactic(auto, using(crate::proofs::Meant::derives))]
pub fn proved_derives()
    ensures { ProvedDerives }
{
    loop_proves();
}

/// So has that of a form that is answered as proved, whatever the cache holds; what is saturated is so by the search.
#[tactic(auto, using(crate::proofs::Deriving::answered_derives, crate::proofs::Deriving::saturated_is_searched))]
pub fn answered_derives()
    ensures derives { AnsweredDerives }
    ensures searched { SaturatedIsSearched }
{
    proved_derives();
    hit_is_correct();
}

/// No valuation falsifies a propositional form that is proved, and the values of a saturated answer falsify theirs.
pub fn values_are_right()
    ensures valid { ProvedIsValid }
    ensures falsified { ValuesFalsify }
{
    forms_are_formulas();
    closed_is_valid();
    values_falsify();
}

/// With enough turns a propositional form is proved exactly where no valuation falsifies it; 100000 turns are enough for 15 connectives.
pub fn enough_turns_decide()
    ensures enough { EnoughTurnsDecide }
    ensures few { FewConnectivesDecide }
{
    forms_are_formulas();
    turns_suffice();
    decides_propositional();
    few_connectives();
}

/// A right verdict of a job says what is answered to its form, and where it is a proof, that proof is correct, whatever the cache holds.
#[tactic(auto, using(crate::proofs::Saying::right_is_answered, crate::proofs::Saying::proofs_are_correct))]
pub fn right_is_answered()
    ensures says { RightIsAnswered }
    ensures correct { ProofsAreCorrect }
{}

/// Where no proofs are kept, a form is searched; and what is proved so is proved whatever the cache holds.
#[tactic(auto, using(crate::proofs::Saying::none_kept_is_searched, crate::proofs::Saying::cache_keeps_proved))]
pub fn cache_keeps_proved()
    ensures searched { NoneKeptIsSearched }
    ensures proved { CacheKeepsProved }
{}
