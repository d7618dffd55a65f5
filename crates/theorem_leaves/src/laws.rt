//! What the chapters are told of. The function does nothing: its contract is the law.

ghost use Rattle.theorem_leaves.specs.Chapters.{ChaptersReport};

/// The theorems of the chapters are those of the modules, one after another, each with its key, its leaves and what it cites.
#[tactic(auto, using(crate::proofs::Reports::chapters_report))]
pub fn chapters_report()
    ensures { ChaptersReport }
{}
