//! The answer to a canonical form.
use sqlite_items::Items;

/// How the written search ends on a canonical form, or that it was not needed.
#[derive(Debug, Drop)]
pub enum Answer {
    /// Each branch closed, after this many turns.
    Proved {
        turns: u64,
    },
    /// A branch stays open where no rule applies, after this many turns. Where the form is propositional, these values of its symbols
    /// make the facts true and the goal false.
    Saturated {
        values: Option<Items<bool>>,
        turns: u64,
    },
    /// The turns were used up.
    Spent {
        turns: u64,
    },
    /// A kept proof is correct for the form, which is then not searched.
    Cached,
}
