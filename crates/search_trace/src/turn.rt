//! A turn of the search.

use search_definition::{Clash, Rule};

/// A formula that a rule adds, by its number, and whether it did not stand on the branch before the rule.
#[derive(Clone, Copy, Debug)]
pub struct Added {
    pub formula: u64,
    pub is_new: bool,
}

/// What a rule does to its entry: the index of the entry on the branch, the rule, the numbers of the formulas that it names, the
/// entry's first, and those of the terms that it works with.
#[derive(Debug, Drop)]
pub struct Used {
    pub entry: u64,
    pub rule: Rule,
    pub named: Vec<u64>,
    pub terms: Vec<u64>,
}

/// A turn: a branch closes by these formulas, the younger first, and the second side of the split with this number is next, if
/// there is one; a rule goes on with one branch; or a rule splits it, with what it adds on the first and on the second side.
#[derive(Debug, Drop)]
pub enum Turn {
    Shut(Clash, Vec<u64>, Option<u64>),
    Alone(Used, Vec<Added>),
    Split(Used, Vec<Added>, Vec<Added>),
}
