//! Writers of the proof trees of single rules, over the open proofs of a writer.
//!
//! To the layers above this crate promises a function for each shape of rule that needs no pattern: after it the latest open
//! proofs, those of the rule's sides, have become the proof tree of the rule over them. [`show`] does so for the value of a
//! formula by grounds, [`close`] for the closings of a branch. The writer's expressions grow, and none changes its number.
#![tactic(auto)]

mod choices;
mod closing;
mod equated;
mod left;
mod plain_rank;
mod reasons;
mod sets;
mod shapes;
mod splits;
mod tasks;
mod value;

pub use choices::{choice, instance};
pub use closing::{close, equal};
pub use equated::{function_set, function_values, other_function};
pub use left::{left_over, not_over};
pub use plain_rank::plain;
pub use sets::{extension, same_members};
pub use shapes::{mirror, neg_left};
pub use splits::{split, take_up};
pub use tasks::show;
pub use value::Value;
