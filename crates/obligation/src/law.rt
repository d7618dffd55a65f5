//! What unfolding comes to.

ghost use Rattle.obligation.specs.Unfolding.{NoneIsLeft};

/// Where each body mentions earlier definitions alone, unfolding leaves none of their symbols.
#[tactic(auto, using(crate::proofs::Left::none_is_left))]
pub fn none_is_left()
    ensures { NoneIsLeft }
{}
