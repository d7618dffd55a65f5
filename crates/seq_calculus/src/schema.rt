//! The schemas by name.
ghost use Rattle.std.specs.Prelude.{◌≡◌};
ghost use Rattle.seq_calculus.specs.Families.{schema_numbered};

use sqlite_items::at;

/// The schemas with one parameter.
#[derive(Clone, Copy, Debug, PartialEq, Eq)]
pub(crate) enum OfOne {
    /// What is in BOOLEAN.
    Boolean,
    /// What exists is had by the chosen value.
    Choice,
}

/// The schemas with two parameters.
#[derive(Clone, Copy, Debug, PartialEq, Eq)]
pub(crate) enum OfTwo {
    /// What is in a set of subsets.
    Power,
    /// What is in the union of a set's elements.
    Union,
    /// What it is to be a subset.
    Subset,
    /// Sets with the same elements are equal.
    Extensionality,
    /// The domain of a function that is written out.
    Domain,
}

/// The schemas with three parameters.
#[derive(Clone, Copy, Debug, PartialEq, Eq)]
pub(crate) enum OfThree {
    /// What is in a union of two sets.
    Cup,
    /// What is in an intersection.
    Cap,
    /// What is in a difference.
    Difference,
    /// What is in a set that a condition selects.
    Filter,
    /// What is in a set of images.
    Image,
    /// A choice whose condition holds.
    Then,
    /// A choice whose condition does not hold.
    Otherwise,
    /// The value of a function that is written out.
    Application,
    /// What is in a set of functions.
    FunctionSet,
    /// A function with one value changed.
    Except,
}

/// The schemas by how many parameters they have.
#[derive(Clone, Copy, Debug, PartialEq, Eq)]
pub(crate) enum Schema {
    /// What is in a set whose elements are listed.
    Enumeration,
    One(OfOne),
    Two(OfTwo),
    Three(OfThree),
    /// When two functions that are written out are equal.
    FunctionEquality,
    /// When two tuples are equal.
    TupleEquality,
    /// An entry of a tuple.
    TupleEntry,
    /// Two different numbers or strings.
    Literals,
}

/// The schemas in order of their numbers, from 1.
pub(crate) const SCHEMAS: [Schema; 22] = [
    Schema::Enumeration,
    Schema::Three(OfThree::Cup),
    Schema::Three(OfThree::Cap),
    Schema::Three(OfThree::Difference),
    Schema::Two(OfTwo::Power),
    Schema::Two(OfTwo::Union),
    Schema::Three(OfThree::Filter),
    Schema::Three(OfThree::Image),
    Schema::One(OfOne::Boolean),
    Schema::Two(OfTwo::Subset),
    Schema::Two(OfTwo::Extensionality),
    Schema::One(OfOne::Choice),
    Schema::Three(OfThree::Then),
    Schema::Three(OfThree::Otherwise),
    Schema::Two(OfTwo::Domain),
    Schema::Three(OfThree::Application),
    Schema::FunctionEquality,
    Schema::Three(OfThree::FunctionSet),
    Schema::Three(OfThree::Except),
    Schema::TupleEquality,
    Schema::TupleEntry,
    Schema::Literals,
];

/// The schema with this number, if there is one.
pub(crate) fn schema_at(number: u64) -> Option<Schema>
    ensures { result ≡ schema_numbered number }
{
    if number == 0 {
        return None;
    }
    at(&SCHEMAS, (number - 1) as usize).copied()
}
