//! The reader of expressions.
//!
//! To the layers above this crate promises that [`expression`] and [`read_expr`] give exactly the reading of the tokens by the
//! definition of `specs/Reading.antt`, or exactly its fault; and, as laws on that definition in any setting: what is read is
//! spelled by the tokens that are used, in order, by the grammar of `specs/Spelling.antt`; no token outside the region is used; a
//! reading ends before the first token that doesn't go on with it, and before the token that ends the list; a fault stands at a
//! token of the list, and is Expected, Precedence, TooDeep or Unsupported. Recursion is bounded by the nestings.
#![tactic(auto)]

mod bound;
mod brace;
mod bracket;
mod build;
mod except;
mod flat;
mod grammar;
mod laws;
mod member;
mod operand;
mod phrases;
mod reader;
mod square;
mod step;
mod words;

pub use laws::{
    end_is_exact, end_is_the_place, ends_before_the_last, faults_stand_in_the_list,
    inside_the_region, read_in_order,
};
pub use phrases::{bounds, definition_head, expression};
pub use reader::read_expr;
