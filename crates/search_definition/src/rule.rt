//! The rules of the search, as cases.

/// The ranks of rules, in the order in which they are tried.
#[derive(Clone, Copy, Debug, PartialEq, Eq)]
pub enum Rank {
    Plain,
    Rewrite,
    Derive,
    Replace,
    Settle,
    Choice,
    Split,
    TermSplit,
    Extension,
    Instance,
    Spare,
    TakeUp,
}

/// A rule of a rank, by its case. The examples say what the used formula is.
#[derive(Clone, Copy, Debug, PartialEq, Eq)]
pub enum Rule {
    /// Plain, `~~A`.
    DoubleNot,
    /// Plain, `A /\ B`.
    Conjunction,
    /// Plain, `~(A \/ B)`.
    DeniedDisjunction,
    /// Plain, `~(A => B)`.
    DeniedImplication,
    /// Plain, `f \in [S -> T]`.
    FunctionSet,
    /// Plain, the left side of the schema with this number.
    LeftSide(u64),
    /// Plain, the Not of the left side of the schema with this number.
    DeniedLeftSide(u64),
    /// Rewrite, by the equation of the schema with this number.
    Rewritten(u64),
    /// Derive, `A = B` with a set constructor.
    SameMembers,
    /// Derive, `g = [x \in S |-> e]`.
    FunctionValues,
    /// Derive, `~(g = [x \in S |-> e])`.
    OtherFunction,
    /// Replace.
    Replaced,
    /// Settle, where all formulas of one side are true.
    TrueSide,
    /// Settle, where the left side has a false formula.
    FalseLeft,
    /// Settle, where the right side has a false formula.
    FalseRight,
    /// Choice, `\E x : P`.
    Witness,
    /// Choice, `~\A x : P`.
    Counterexample,
    /// Split, `A \/ B`.
    Disjunction,
    /// Split, `~(A /\ B)`.
    DeniedConjunction,
    /// Split, `A => B`.
    Implication,
    /// Split, `A <=> B`.
    Equivalence,
    /// Split, `~(A <=> B)`.
    DeniedEquivalence,
    /// Term split, a part `IF p THEN a ELSE b`.
    Conditional,
    /// Term split, a part `[x \in S |-> e][a]`.
    Application,
    /// Extension.
    Members,
    /// Instance.
    Instance,
    /// Spare.
    Spare,
    /// Take up.
    TakenUp,
}

/// How formulas close a branch.
#[derive(Clone, Copy, Debug, PartialEq, Eq)]
pub enum Clash {
    /// `FALSE`.
    Falsehood,
    /// `~TRUE`.
    DeniedTruth,
    /// `F` with `~F`.
    Denied,
    /// `~(t = t)`.
    DeniedIdentity,
    /// `s = t` with `~(t = s)`.
    DeniedMirror,
    /// An equation of two different numerals or of two different strings.
    Literals,
    /// `TRUE = FALSE` or `FALSE = TRUE`.
    Truths,
}
