//! The numbers of ranks, rules and closings, and what a rule does to its entry.
ghost use Rattle.std.specs.Prelude.{◌≡◌, ◌<◌, ◌^◌};
ghost use Rattle.search_definition.specs.Branches.{clash_code};
ghost use Rattle.search_definition.specs.Rules as rules;

use crate::rule::{Clash, Rank, Rule};

impl Rank {
    /// The rank's number, 1 to 12.
    pub fn number(self) -> u64
        ensures { result ≡ rules.rank_code self }
    {
        match self {
            Rank::Plain => 1,
            Rank::Rewrite => 2,
            Rank::Derive => 3,
            Rank::Replace => 4,
            Rank::Settle => 5,
            Rank::Choice => 6,
            Rank::Split => 7,
            Rank::TermSplit => 8,
            Rank::Extension => 9,
            Rank::Instance => 10,
            Rank::Spare => 11,
            Rank::TakeUp => 12,
        }
    }
}

impl Rule {
    /// The rank of the rule.
    pub fn rank(self) -> Rank
        ensures { result ≡ rules.rank_of self }
    {
        match self {
            Rule::DoubleNot => Rank::Plain,
            Rule::Conjunction => Rank::Plain,
            Rule::DeniedDisjunction => Rank::Plain,
            Rule::DeniedImplication => Rank::Plain,
            Rule::FunctionSet => Rank::Plain,
            Rule::LeftSide(_) => Rank::Plain,
            Rule::DeniedLeftSide(_) => Rank::Plain,
            Rule::Rewritten(_) => Rank::Rewrite,
            Rule::SameMembers => Rank::Derive,
            Rule::FunctionValues => Rank::Derive,
            Rule::OtherFunction => Rank::Derive,
            Rule::Replaced => Rank::Replace,
            Rule::TrueSide => Rank::Settle,
            Rule::FalseLeft => Rank::Settle,
            Rule::FalseRight => Rank::Settle,
            Rule::Witness => Rank::Choice,
            Rule::Counterexample => Rank::Choice,
            Rule::Disjunction => Rank::Split,
            Rule::DeniedConjunction => Rank::Split,
            Rule::Implication => Rank::Split,
            Rule::Equivalence => Rank::Split,
            Rule::DeniedEquivalence => Rank::Split,
            Rule::Conditional => Rank::TermSplit,
            Rule::Application => Rank::TermSplit,
            Rule::Members => Rank::Extension,
            Rule::Instance => Rank::Instance,
            Rule::Spare => Rank::Spare,
            Rule::TakenUp => Rank::TakeUp,
        }
    }

    /// The rule's number within its rank.
    pub fn kind(self) -> u64
        requires { rules.kind_code self < 2 ^ 64 }
        ensures { result ≡ rules.kind_code self }
    {
        match self {
            Rule::LeftSide(schema) => 100 + schema,
            Rule::DeniedLeftSide(schema) => 200 + schema,
            Rule::Rewritten(schema) => 100 + schema,
            Rule::Conjunction => 1,
            Rule::FunctionValues => 1,
            Rule::FalseLeft => 1,
            Rule::Counterexample => 1,
            Rule::DeniedConjunction => 1,
            Rule::Application => 1,
            Rule::DeniedDisjunction => 2,
            Rule::OtherFunction => 2,
            Rule::FalseRight => 2,
            Rule::Implication => 2,
            Rule::DeniedImplication => 3,
            Rule::Equivalence => 3,
            Rule::FunctionSet => 4,
            Rule::DeniedEquivalence => 4,
            _ => 0,
        }
    }

    /// Whether the used entry stays live on the one side or the first.
    pub fn stays(self) -> bool
        ensures { result ≡ rules.stays self }
    {
        match self {
            Rule::SameMembers => true,
            Rule::FunctionValues => true,
            Rule::OtherFunction => true,
            Rule::Instance => true,
            Rule::Spare => true,
            Rule::TakenUp => true,
            _ => false,
        }
    }

    /// Whether the used entry stays live on the second side.
    pub fn stays_second(self) -> bool
        ensures { result ≡ rules.stays_second self }
    {
        match self {
            Rule::Application => true,
            Rule::TakenUp => true,
            _ => false,
        }
    }

    /// Whether the used entry's count of instances rises.
    pub fn rises(self) -> bool
        ensures { result ≡ rules.rises self }
    {
        match self {
            Rule::Instance => true,
            Rule::Spare => true,
            _ => false,
        }
    }
}

impl Clash {
    /// The case's number in the list of closings, 0 to 6.
    pub fn number(self) -> u64
        ensures { result ≡ clash_code self }
    {
        match self {
            Clash::Falsehood => 0,
            Clash::DeniedTruth => 1,
            Clash::Denied => 2,
            Clash::DeniedIdentity => 3,
            Clash::DeniedMirror => 4,
            Clash::Literals => 5,
            Clash::Truths => 6,
        }
    }
}
