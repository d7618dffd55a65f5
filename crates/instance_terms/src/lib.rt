//! The terms by which a universal is instantiated: what a partner of an atom gives, without the branch.
//!
//! To the layers above this crate promises, by indices of a bank, what the search's definition has of metavariables, of the
//! term that unifying two terms gives, and of the terms by the partners of an atom: the sides of an equation that is to fail, a
//! literal of opposite sign, and an atom of opposite sign.
#![tactic(auto)]

mod atoms;
mod expand;
mod fresh;
mod metas;
mod partners;
mod sides;
mod term;

pub use atoms::{own_atoms, partner_atoms};
pub use fresh::{FreshNumbers, SignedAtom};
pub use metas::{both_metas, own_metas};
pub use partners::{literal_term, sides_term, signed_literal, signed_term};
pub use sides::is_side;
pub use term::{instance_term, spare_term};
