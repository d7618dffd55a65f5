//! The first numbers of lists.
ghost use Rattle.std.specs.Prelude.{◌≡◌};
ghost use Rattle.std.proofs.Common.{get_or};
ghost use Rattle.equation_proofs.specs.Firsts.{first_number};

use search_trace::Added;

/// The first number; 0 where there is none.
pub fn first(numbers: &[u64]) -> u64
    ensures { result ≡ get_or numbers.now 0 0 }
{
    match numbers.get(0) {
        Some(number) => *number,
        None => 0,
    }
}

/// The second number; 0 where there is none.
pub fn second(numbers: &[u64]) -> u64
    ensures { result ≡ get_or numbers.now 1 0 }
{
    match numbers.get(1) {
        Some(number) => *number,
        None => 0,
    }
}

/// The number of the first formula that is added; 0 where none is.
pub fn first_added(added: &[Added]) -> u64
    ensures { result ≡ first_number added.now }
{
    match added.get(0) {
        Some(formula) => formula.formula,
        None => 0,
    }
}
