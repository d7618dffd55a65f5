//! What the ranks of the written search keep: the formulas by number, and for each branch how far it has been looked at.
//!
//! To the layers above this crate promises [`RankMemo`], a [`Memo`] of a bank of formulas and of a position for each
//! [`Place`]: for closings, and for each rank whose rule is that of the oldest entry that it fits. Contracts see a position as
//! a fact about the branch at hand (`IsOpen`, `IsPassed`), which holds by itself after formulas are added, entries are used
//! and branches are taken up again. A rank looks from its position on and moves it.
#![tactic(auto)]

mod memo;
mod place;

pub use memo::RankMemo;
pub use place::Place;
