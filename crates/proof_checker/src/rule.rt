//! The rules of the calculus by name.
ghost use Rattle.std.specs.Prelude.{◌≡◌, ◌<◌};
ghost use Rattle.proof_checker.specs.Rules.{name_of, head_of, is_left};
ghost use Rattle.proof_checker.specs.Plans.{plan_of};

use crate::task::{Adds, Plan, Premise};

/// The rules that take apart a formula with two parts.
#[derive(Clone, Copy, Debug)]
pub enum Connective {
    AndL,
    AndR,
    OrL,
    OrR,
    ImpL,
    ImpR,
    IffL,
    IffR,
}

/// The other rules with one expression.
#[derive(Clone, Copy, Debug)]
pub enum Unary {
    Ax,
    Cut,
    NotL,
    NotR,
    AllR,
    ExL,
    Refl,
}

/// The rules but weakening and the schemas.
#[derive(Clone, Copy, Debug)]
pub enum Plain {
    TrueR,
    FalseL,
    One(Unary),
    Two(Connective),
    AllL,
    ExR,
    Repl,
}

/// The rules.
#[derive(Clone, Copy, Debug)]
pub enum RuleName {
    Weak,
    Schema,
    Plain(Plain),
}

/// The rules in order of their numbers.
pub const RULES: [RuleName; 22] = [
    RuleName::Plain(Plain::One(Unary::Ax)),
    RuleName::Plain(Plain::TrueR),
    RuleName::Plain(Plain::FalseL),
    RuleName::Weak,
    RuleName::Plain(Plain::One(Unary::Cut)),
    RuleName::Plain(Plain::One(Unary::NotL)),
    RuleName::Plain(Plain::One(Unary::NotR)),
    RuleName::Plain(Plain::Two(Connective::AndL)),
    RuleName::Plain(Plain::Two(Connective::AndR)),
    RuleName::Plain(Plain::Two(Connective::OrL)),
    RuleName::Plain(Plain::Two(Connective::OrR)),
    RuleName::Plain(Plain::Two(Connective::ImpL)),
    RuleName::Plain(Plain::Two(Connective::ImpR)),
    RuleName::Plain(Plain::Two(Connective::IffL)),
    RuleName::Plain(Plain::Two(Connective::IffR)),
    RuleName::Plain(Plain::AllL),
    RuleName::Plain(Plain::One(Unary::AllR)),
    RuleName::Plain(Plain::One(Unary::ExL)),
    RuleName::Plain(Plain::ExR),
    RuleName::Plain(Plain::One(Unary::Refl)),
    RuleName::Plain(Plain::Repl),
    RuleName::Schema,
];

/// The rule with this number.
pub fn name_of(rule: u64) -> RuleName
    requires { rule < 22 }
    ensures { result ≡ name_of rule }
{
    RULES[rule as usize]
}

/// The head number of the formula that the rule takes apart.
pub fn head_of(rule: Connective) -> u64
    ensures { result ≡ head_of rule }
{
    match rule {
        Connective::AndL | Connective::AndR => 8,
        Connective::OrL | Connective::OrR => 9,
        Connective::ImpL | Connective::ImpR => 10,
        Connective::IffL | Connective::IffR => 11,
    }
}

/// Whether that formula stands on the left.
pub fn is_left(rule: Connective) -> bool
    ensures { result ≡ is_left rule }
{
    matches!(
        rule,
        Connective::AndL | Connective::OrL | Connective::ImpL | Connective::IffL
    )
}

/// A premise that adds this.
pub fn adding(left: Adds, right: Adds) -> Premise
    ensures { result ≡ record { left = left; right = right } }
{
    Premise { left, right }
}

/// The premises of a rule of a connective, by the two parts.
pub fn plan_of(rule: Connective, a: u64, b: u64) -> Plan
    ensures { result ≡ plan_of rule a b }
{
    let (no, one, other) = (Adds::Nothing, Adds::One(a), Adds::One(b));
    let both = Adds::Both(a, b);
    match rule {
        Connective::AndL => Plan::Single(adding(both, no)),
        Connective::AndR => Plan::Pair(adding(no, one), adding(no, other)),
        Connective::OrL => Plan::Pair(adding(one, no), adding(other, no)),
        Connective::OrR => Plan::Single(adding(no, both)),
        Connective::ImpL => Plan::Pair(adding(no, one), adding(other, no)),
        Connective::ImpR => Plan::Single(adding(one, other)),
        Connective::IffL => Plan::Pair(adding(both, no), adding(no, both)),
        Connective::IffR => Plan::Pair(adding(one, other), adding(other, one)),
    }
}
