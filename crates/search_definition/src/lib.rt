//! The written search, second edition, as a definition: branches, closings, values, the twelve ranks of rules, turns with
//! dropping and the list of steps, in the form in which fast code is shown to be equal to it. `docs/SEARCH.md` says it in
//! words.
//!
//! To the layers above this crate promises, of what `specs/` defines: the steps of a search that ends closed are those of
//! a closed tree of its start branch; a rule names its live entry first, names formulas on the branch alone, and adds
//! closed formulas; what stays when a formula is added or an entry is used; and how first entries are kept by positions.
//! The laws are the contracts of functions that do nothing. The enums [`Rank`], [`Rule`] and [`Clash`] stand in the
//! definitions and in code alike, with their numbers.
#![tactic(auto)]

mod codes;
mod laws;
mod rule;

pub use laws::{
    atoms_have_room, closed_has_tree, closing_added, closing_stays, closing_used, falling_contains,
    falling_first, falling_union, falling_without, first_is_by_rank, left_is_instance, members_at,
    oldest_found, oldest_from, oldest_is, oldest_none, position_kept, position_stays,
    position_used, rule_tells, searched_is_closed, settle_stays, sides_stay_closed, used_stands,
    used_stays, value_stays,
};
pub use rule::{Clash, Rank, Rule};
