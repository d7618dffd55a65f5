//! Where an expression stands.

ghost use Rattle.std.specs.Prelude.{◌≡◌};
ghost use Rattle.token_reader.specs.Input as spec;

/// The innermost unfinished bracket round a token, as far as what may be refused there goes by it.
#[derive(Clone, Copy, Debug, PartialEq, Eq)]
pub enum Around {
    /// None, or `(`, `<<` or a list of arguments or parameters.
    Other,
    /// `[`.
    Square,
    /// `{`, before a `:` of its own.
    Brace,
    /// `{`, after its `:`.
    Colon,
    /// `{` with a tuple and `\in` right after it.
    Tuple,
}

/// What an expression may use, wherever in it: tokens whose column is over the region, and `@` where it has a meaning.
#[derive(Clone, Copy, Debug, PartialEq, Eq)]
pub struct Setting {
    /// The column over which tokens are used.
    pub region: u64,
    /// The innermost unfinished bracket.
    pub around: Around,
    /// Whether a new value of an EXCEPT is round it.
    pub has_at: bool,
}

impl Setting {
    /// The same, inside a bracket of this kind.
    pub fn within(self, around: Around) -> Setting
        ensures { result ≡ spec.within around self }
    {
        Setting { around, ..self }
    }

    /// The same, where `@` has a meaning.
    pub fn with_at(self) -> Setting
        ensures { result ≡ spec.with_at self }
    {
        Setting {
            has_at: true,
            ..self
        }
    }

    /// The same, right of this column.
    pub fn right_of(self, column: u64) -> Setting
        ensures { result ≡ spec.right_of column self }
    {
        Setting {
            region: column,
            ..self
        }
    }
}

/// What stands right before a token at which a reading stops, as far as what is refused there goes by it.
#[derive(Clone, Copy, Debug, PartialEq, Eq)]
pub enum Stop {
    /// An operand must come.
    Operand,
    /// An expression has ended.
    Expression,
    /// A bound name must come.
    Bound,
    /// A parameter of a definition, or the name of a NEW item, has ended.
    Parameter,
    /// The name with which a definition begins has ended.
    Defined,
    /// The expression of a step has ended, and its outermost operator is `f[e]`.
    Indexed,
    /// Anything else.
    Other,
}
