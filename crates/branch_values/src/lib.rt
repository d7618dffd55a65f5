//! The values of formulas on the branch.
//!
//! To the layers above this crate promises the value of a formula on a branch with what it rests on, each as the search's
//! definition has it; and formulas to be added with their classes, and what a rule gives at an entry, as a finder of the search
//! answers it. A shared part of a formula is looked at once, and no walk recurses.
#![tactic(auto)]

mod grounds;
mod judge;
mod link;
mod news;
mod plan;
mod reason;
mod value;
mod values;
mod work;

pub use judge::{grounds_on, value_on};
pub use news::{found_at, with_classes};
pub use reason::is_denied;
pub use value::{Connective, Value};
