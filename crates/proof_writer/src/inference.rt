//! Inferences: the rules of the calculus over expressions by number.
ghost use Rattle.std.specs.Prelude.{◌≡◌, ◌≤◌, [], ◌∷◌, IfOk};
ghost use Rattle.proof_writer.specs.Inferences.{number_of, exprs_of, premises_of};

use core_expr::Memory;
use sqlite_items::Items;
use std::alloc::Global;

/// A rule of the calculus but for weakening and schemas, with its expressions by number.
#[derive(Clone, Copy, Debug)]
pub enum Inference {
    /// The expression is on both sides.
    Axiom(u64),
    TrueRight,
    FalseLeft,
    Cut(u64),
    /// The expression under the Not.
    NotLeft(u64),
    NotRight(u64),
    AndLeft(u64, u64),
    AndRight(u64, u64),
    OrLeft(u64, u64),
    OrRight(u64, u64),
    ImpLeft(u64, u64),
    ImpRight(u64, u64),
    IffLeft(u64, u64),
    IffRight(u64, u64),
    /// The body and the term.
    AllLeft(u64, u64),
    AllRight(u64),
    ExistsLeft(u64),
    ExistsRight(u64, u64),
    /// The term that equals itself.
    Reflexive(u64),
    /// The pattern with one loose variable, the term that stands for it, and the one that takes its place.
    Replacement(u64, u64, u64),
}

impl Inference {
    /// The number of the rule.
    pub(crate) fn number(self) -> u64
        ensures { result ≡ number_of self }
    {
        match self {
            Inference::Axiom(_) => 0,
            Inference::TrueRight => 1,
            Inference::FalseLeft => 2,
            Inference::Cut(_) => 4,
            Inference::NotLeft(_) => 5,
            Inference::NotRight(_) => 6,
            Inference::AndLeft(_, _) => 7,
            Inference::AndRight(_, _) => 8,
            Inference::OrLeft(_, _) => 9,
            Inference::OrRight(_, _) => 10,
            Inference::ImpLeft(_, _) => 11,
            Inference::ImpRight(_, _) => 12,
            Inference::IffLeft(_, _) => 13,
            Inference::IffRight(_, _) => 14,
            Inference::AllLeft(_, _) => 15,
            Inference::AllRight(_) => 16,
            Inference::ExistsLeft(_) => 17,
            Inference::ExistsRight(_, _) => 18,
            Inference::Reflexive(_) => 19,
            Inference::Replacement(_, _, _) => 20,
        }
    }

    /// How many premises it has.
    pub(crate) fn premises(self) -> u64
        ensures is { result ≡ premises_of self }
        ensures few { result ≤ 2 }
    {
        match self {
            Inference::Axiom(_)
            | Inference::TrueRight
            | Inference::FalseLeft
            | Inference::Reflexive(_) => 0,
            Inference::Cut(_)
            | Inference::AndRight(_, _)
            | Inference::OrLeft(_, _)
            | Inference::ImpLeft(_, _)
            | Inference::IffLeft(_, _)
            | Inference::IffRight(_, _) => 2,
            _ => 1,
        }
    }

    /// Its expressions.
    pub(crate) fn exprs(self, alloc: Global) -> Result<Items<u64>, Memory>
        ensures { IfOk result (λ l. l ≡ exprs_of self) }
    {
        match self {
            Inference::TrueRight | Inference::FalseLeft => Ok(none(alloc)),
            Inference::Axiom(a)
            | Inference::Cut(a)
            | Inference::NotLeft(a)
            | Inference::NotRight(a)
            | Inference::AllRight(a)
            | Inference::ExistsLeft(a)
            | Inference::Reflexive(a) => one(alloc, a),
            Inference::AndLeft(a, b)
            | Inference::AndRight(a, b)
            | Inference::OrLeft(a, b)
            | Inference::OrRight(a, b)
            | Inference::ImpLeft(a, b)
            | Inference::ImpRight(a, b)
            | Inference::IffLeft(a, b)
            | Inference::IffRight(a, b)
            | Inference::AllLeft(a, b)
            | Inference::ExistsRight(a, b) => two(alloc, a, b),
            Inference::Replacement(a, b, c) => three(alloc, a, b, c),
        }
    }
}

/// No numbers.
pub fn none(alloc: Global) -> Items<u64>
    ensures { result ≡ [] }
{
    Items::new(alloc)
}

/// One number.
pub fn one(alloc: Global, a: u64) -> Result<Items<u64>, Memory>
    ensures { IfOk result (λ l. l ≡ a ∷ []) }
{
    let mut list = Items::new(alloc);
    list.push(a)?;
    Ok(list)
}

/// Two numbers.
pub fn two(alloc: Global, a: u64, b: u64) -> Result<Items<u64>, Memory>
    ensures { IfOk result (λ l. l ≡ a ∷ b ∷ []) }
{
    let mut list = one(alloc, a)?;
    list.push(b)?;
    Ok(list)
}

/// Three numbers.
pub fn three(alloc: Global, a: u64, b: u64, c: u64) -> Result<Items<u64>, Memory>
    ensures { IfOk result (λ l. l ≡ a ∷ b ∷ c ∷ []) }
{
    let mut list = two(alloc, a, b)?;
    list.push(c)?;
    Ok(list)
}
