//! What words ask for. The function does nothing: its contract is the law.
ghost use Rattle.command_words.specs.Laws.{AskedOnce};

/// Words ask for one thing at most.
#[tactic(auto, using(crate::proofs::Asking::asked_once))]
pub fn asked_once()
    ensures { AskedOnce }
{}
