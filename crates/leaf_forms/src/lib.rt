//! The leaves of theorems that are to be proved have canonical forms that the search can take. The function does nothing: its
//! contract is the law.
//!
//! A leaf is to be proved only where none of its formulas has a temporal mark, and its canonical form numbers every symbol. Where the
//! names of modules are resolved, the formulas of statements, steps and facts are closed, and what steps make of them is closed too:
//! so are the facts and the goal of each leaf. To the layers above this crate promises that no leaf that is to be proved is turned
//! away because of its form ([`leaves_are_forms`]).
#![tactic(auto)]

ghost use Rattle.leaf_forms.specs.Laws.{LeavesAreForms};

/// Of modules whose names are resolved, and of which none has two names at one place: each leaf of a theorem that is to be proved has
/// a canonical form that the search can take. Its facts and its goal are closed, each symbol is a numbered one, and there is no
/// temporal mark.
#[tactic(auto, using(crate::proofs::Chapters::leaves_are_forms))]
pub fn leaves_are_forms()
    ensures { LeavesAreForms }
{}
