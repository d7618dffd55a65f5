//! The most general unifier of two shared terms, for metavariables that are constants of a canonical form.
//!
//! To the layers above this crate promises that [`unify`] answers the bindings of the unifier's definition, and None exactly
//! where the definition has none; that the terms of the bindings are fully applied; and that [`grounded`] is the term with
//! one term for each metavariable. Equal terms have one index, so the first difference is found along one path.
#![tactic(auto)]

mod binding;
mod disagreement;
mod ground;
mod metas;
mod put_in;
mod round;
mod step;
mod unifier;

pub use binding::{BoundMeta, bound_to};
pub use ground::grounded;
pub use unifier::unify;
