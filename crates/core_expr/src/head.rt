//! The heads of expressions, and symbols.
/// What a symbol stands for.
#[derive(Clone, Copy, Debug, PartialEq, Eq, Hash)]
pub enum SymKind {
    /// A constant, a bound name of level 0 or a library operator.
    Constant,
    /// A variable in the present state.
    State,
    /// A variable in the next state.
    Primed,
    /// A definition that is still folded.
    Defined,
    /// A definition that is still folded, primed.
    DefinedPrimed,
    /// A symbol of a canonical form, numbered by first occurrence.
    Canon,
}

/// A symbol. Two symbols are equal where kind, number and arity are.
#[derive(Clone, Copy, Debug, PartialEq, Eq, Hash)]
pub struct Sym {
    pub kind: SymKind,
    pub number: u64,
    pub arity: u64,
}

/// The heads of expressions that bind nothing, in the order of their numbers.
#[derive(Clone, Copy, Debug, PartialEq, Eq, Hash)]
pub enum Head {
    True,
    False,
    Num,
    Str,
    Boolean,
    Not,
    And,
    Or,
    Imp,
    Iff,
    Eq,
    In,
    Subseteq,
    Enum,
    Cup,
    Cap,
    Diff,
    Power,
    Union,
    FunSet,
    Dom,
    Apply,
    Except,
    Tuple,
    If,
    Temporal,
}

/// The heads whose last part stands under one binder, in the order of their numbers.
#[derive(Clone, Copy, Debug, PartialEq, Eq, Hash)]
pub enum Binder {
    All,
    Ex,
    Filter,
    Image,
    Fun,
    Choose,
}
