//! The forms.

/// The form of a term, by its head, with the indices of its parts. A binder's body comes last. The entries of an enumeration
/// or a tuple, the arguments of a symbol and the characters of a string are not named here: `parts_at` has the first three.
#[derive(Clone, Copy, Debug, PartialEq, Eq)]
pub enum Shape {
    True,
    False,
    /// A numeral, by its two halves.
    Num(u64, u64),
    Str,
    Boolean,
    /// A bound variable, by how many binders stand between it and its own.
    Bound(u64),
    /// A symbol of a canonical form, by its number and how many arguments it takes.
    Symbol(u64, u64),
    Not(u64),
    And(u64, u64),
    Or(u64, u64),
    Imp(u64, u64),
    Iff(u64, u64),
    All(u64),
    Ex(u64),
    Eq(u64, u64),
    In(u64, u64),
    Subseteq(u64, u64),
    Enum,
    Cup(u64, u64),
    Cap(u64, u64),
    Diff(u64, u64),
    Power(u64),
    Union(u64),
    Filter(u64, u64),
    Image(u64, u64),
    Fun(u64, u64),
    FunSet(u64, u64),
    Dom(u64),
    Apply(u64, u64),
    Except(u64, u64, u64),
    Tuple,
    If(u64, u64, u64),
    Choose(u64),
}
