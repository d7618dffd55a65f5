//! Whether a proof that is kept as lists is correct for a canonical form.
//!
//! To the layers above this crate promises [`check`], which is true exactly where the proof tree that the lists stand for is
//! correct in the sequent calculus for the facts and the goal, for all 22 rules and 22 schemas; it has no other answer but want
//! of memory. Each expression of the proof's table and of the canonical form is put into one bank of shared nodes, and from
//! then on all work is on the numbers of that bank: equal formulas have one number. A side of a sequent is a list of numbers
//! that is cut back (`trail`), the newest first, so that the sides of a premise are exactly those of the calculus. The steps
//! that are left to check stand in a list of tasks, so no proof is too deep; each step is looked at once for each place where
//! it is a premise, and a look at a side takes near constant time.
#![tactic(auto)]

mod checker;
mod nodes;
mod pattern;
mod plan;
mod rule;
mod run;
mod schema;
mod side;
mod task;
mod trail;
mod tuple;

pub use checker::check;
