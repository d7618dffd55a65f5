//! Truth values.
ghost use Rattle.std.specs.Prelude.{◌≡◌};
ghost use Rattle.search_definition.specs.Values.{opposite, both_true, one_true, same_truth};
ghost use Rattle.branch_values.specs.Judging.{truth_of, joined_truth};

/// The value of a formula on a branch.
#[derive(Clone, Copy, Debug, PartialEq, Eq)]
pub enum Value {
    Yes,
    No,
    Unknown,
}

/// A connective of two formulas.
#[derive(Clone, Copy, Debug, PartialEq, Eq)]
pub enum Connective {
    And,
    Or,
    Imp,
    Iff,
}

/// The value of a Not.
pub fn opposite(x: Value) -> Value
    ensures { truth_of result ≡ opposite (truth_of x) }
{
    match x {
        Value::Yes => Value::No,
        Value::No => Value::Yes,
        Value::Unknown => Value::Unknown,
    }
}

/// The value of a conjunction.
fn both(x: Value, y: Value) -> Value
    ensures { truth_of result ≡ both_true (truth_of x) (truth_of y) }
{
    match (x, y) {
        (Value::No, _) => Value::No,
        (Value::Yes, _) => y,
        (Value::Unknown, Value::No) => Value::No,
        (Value::Unknown, _) => Value::Unknown,
    }
}

/// The value of a disjunction.
fn one(x: Value, y: Value) -> Value
    ensures { truth_of result ≡ one_true (truth_of x) (truth_of y) }
{
    match (x, y) {
        (Value::Yes, _) => Value::Yes,
        (Value::No, _) => y,
        (Value::Unknown, Value::Yes) => Value::Yes,
        (Value::Unknown, _) => Value::Unknown,
    }
}

/// The value of an equivalence.
fn same(x: Value, y: Value) -> Value
    ensures { truth_of result ≡ same_truth (truth_of x) (truth_of y) }
{
    match x {
        Value::Yes => y,
        Value::No => opposite(y),
        Value::Unknown => Value::Unknown,
    }
}

/// The value of two formulas joined by the connective.
pub fn joined(connective: Connective, x: Value, y: Value) -> Value
    ensures { truth_of result ≡ joined_truth connective (truth_of x) (truth_of y) }
{
    match connective {
        Connective::And => both(x, y),
        Connective::Or => one(x, y),
        Connective::Imp => one(opposite(x), y),
        Connective::Iff => same(x, y),
    }
}
