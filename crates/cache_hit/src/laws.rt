//! What the test and the hits mean. The functions do nothing: their contracts are the laws.
ghost use Rattle.cache_hit.specs.Laws.{CorrectIsTested, HitIsCorrect};

/// The test of proofs says what it is to be correct in the calculus.
#[tactic(auto, using(crate::proofs::Tested::correct_is_tested))]
pub fn correct_is_tested()
    ensures { CorrectIsTested }
{}

/// A hit proves the goal of its form from the facts.
#[tactic(auto, using(crate::proofs::Tested::hit_is_correct))]
pub fn hit_is_correct()
    ensures { HitIsCorrect }
{}
