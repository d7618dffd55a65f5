//! The laws of proof trees. The functions do nothing: their contracts are the laws.
ghost use Rattle.proof_trees.specs.Laws.{RulesAreCarried, LoopProves, StepsTold};

use search_definition::used_stands;

/// The proof tree of a rule that applies is correct over what the rule names, from proofs of its sides.
#[tactic(auto, using(crate::proofs::Carried::rules_are_carried))]
pub fn rules_are_carried()
    ensures { RulesAreCarried }
{}

/// The loop over the steps of a search that ended closed proves the obligation.
pub fn loop_proves()
    ensures { LoopProves }
{
    used_stands();
}

/// The steps of a search that ended closed tell what the translation needs.

pub fn steps_told()
    ensures { StepsTold }
{}
