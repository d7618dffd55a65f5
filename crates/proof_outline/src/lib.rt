//! Step names: which step of a theorem's proof each cited name means.
//!
//! To the layers above this crate promises that [`outline`] gives, for each place where a step is cited by its name, the number of
//! the step that it means (steps are numbered from 0 in the order of the text), or the first fault of the names in that order:
//! UnknownStep where no step of the theorem has the name, StepOutOfScope where one has it that is not seen there, DuplicateStep
//! at the second of two steps of one proof with one name. A step's name is its level and its label, `<1>2`; it is seen in the
//! step's own proof and by the later steps of the same proof and their subproofs ("TLA+ Version 2: A Preliminary Guide").
#![tactic(auto)]

mod finding;
mod meaning;
mod scope;
mod walk;

pub use finding::outline;
pub use meaning::Outline;
