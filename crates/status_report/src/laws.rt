//! What the statuses mean. The function does nothing: its contract is the law.

ghost use Rattle.status_report.specs.Laws.{StatusesAgree};

/// The statuses that are reported are those that the theorems have: where what is reported has the keys of the theorems, the
/// theorems that their proofs cite, and what their leaves come to.
#[tactic(auto, using(crate::proofs::Agreeing::statuses_agree))]
pub fn statuses_agree()
    ensures { StatusesAgree }
{}
