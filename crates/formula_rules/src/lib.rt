//! What the rules of the written search do to a formula alone, over shared nodes.
//!
//! To the layers above this crate promises functions of a closed formula by its index in a bank, each equal to its definition
//! in the search's definition: the ranks plain, choice, split and extension, what derive, take up and the instances add, and
//! how a formula closes a branch by itself. The answers are indices in the bank, which grows; no index changes its meaning. A
//! partner of a formula, as its Not or its mirror, is found by a look-up in the bank, not by a walk.
#![tactic(auto)]

mod chosen;
mod closing;
mod equation;
mod given;
mod join;
mod kind;
mod laws;
mod left;
mod meaning;
mod membership;
mod parting;
mod plain_rank;
mod quantified;
mod rewriting;

pub use chosen::{choice, taken_up, witnessed};
pub use closing::{
    denial, denied, mirror_denial, mirror_denied, same_term, shuts_first, shuts_last, shuts_third,
};
pub use equation::{
    domain_is, extension, fun_of, is_fun, is_set, members, not_equal, same_members,
};
pub use given::{Given, Sides, adds, gives, parts};
pub use kind::{class, is_literal, is_logical};
pub use laws::added_is_closed;
pub use left::{LeftSide, left_side};
pub use meaning::{at_all, put_in, raised};
pub use membership::member;
pub use parting::{Parting, parting_of, split};
pub use plain_rank::plain;
pub use quantified::{Quantified, instance, universal};
pub use rewriting::{Equation, rewrite_of};
