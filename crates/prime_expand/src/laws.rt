//! The laws of cores. The functions do nothing: their contracts are the laws.

ghost use Rattle.prime_expand.specs.Laws.{CoreIsClosed, BodiesAreScoped, ConstantIsItsPrime};

/// The core of an expression, plain and primed, is closed. The loose variables of a definition's bodies are its parameters, and one
/// more for each parameter that it primes. The symbols of both are those of the entries that the names mean, where they are not
/// bound in the text.
pub fn cores_are_scoped()
    ensures expression { CoreIsClosed }
    ensures bodies { BodiesAreScoped }
{}

/// An expression without names of variables, and of definitions of a level above 0, is its own prime.
pub fn constants_are_own_primes()
    ensures { ConstantIsItsPrime }
{}
