//! Rules by how their proofs stand over those of their sides.
ghost use Rattle.std.specs.Prelude.{◌≡◌};
ghost use Rattle.equation_proofs.specs.Kinds.{kind_of};

use search_definition::Rule;

/// How the proof of a rule stands over those of its sides: over that of its one side, or over both where there are two.
#[derive(Clone, Copy, Debug, PartialEq, Eq)]
pub enum Kind {
    Single,
    Split,
    TermSplit,
    TakeUp,
}

/// The kind of a rule.
pub fn kind_of(rule: Rule) -> Kind
    ensures { result ≡ kind_of rule }
{
    match rule {
        Rule::Disjunction
        | Rule::DeniedConjunction
        | Rule::Implication
        | Rule::Equivalence
        | Rule::DeniedEquivalence => Kind::Split,
        Rule::Conditional | Rule::Application => Kind::TermSplit,
        Rule::TakenUp => Kind::TakeUp,
        _ => Kind::Single,
    }
}
