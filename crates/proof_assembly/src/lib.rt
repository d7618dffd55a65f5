//! What the resolved names of whole modules say of their theorems. The functions do nothing: their contracts are the laws.
//!
//! Where the names of modules are resolved, each formula of a statement, a step or a fact is closed and over symbols that are in scope
//! where it stands, each NEW name is a symbol that nothing before it has, and definitions stand in an order in which bodies have
//! earlier symbols alone. So each theorem that the definitions call reported proved has a derivation of its fully expanded fact from
//! the fully expanded assumptions before it alone ([`reported_derives`], [`statuses_are_justified`]). What is asked of modules is that they have different names, and
//! that no two names of one stand at one place.
//!
//! That stands on what the walk over names says of cores ([`names_are_fine`], [`cores_are_in_scope`]): where it ends without faults,
//! each name of an expression is bound there, or means an entry that was in scope before and that fits.
#![tactic(auto)]

ghost use Rattle.proof_assembly.specs.ScopeLaws.{NumbersGrow, NamesAreFine, BodiesAreFine, CoresAreInScope, BodiesAreInScope};
ghost use Rattle.proof_assembly.specs.Laws.{InScopeIsRight, ReportedDerives, StatusesAreJustified};

/// A statement whose symbols are in scope where they stand meets what the derivation of its theorem asks for, and so do the names
/// that PICK chooses.
pub fn in_scope_is_right()
    ensures { InScopeIsRight }
{}

/// Of modules with different names whose names are resolved, and of which none has two names at one place: each theorem that is
/// reported proved has a derivation of its fully expanded fact from the fully expanded assumptions before it alone.
pub fn reported_derives()
    ensures { ReportedDerives }
{}

/// Of such modules each status that is proved is justified: its theorem has a derivation of its fully expanded fact from the fully
/// expanded assumptions before it alone.
pub fn statuses_are_justified()
    ensures { StatusesAreJustified }
{}

/// After a walk without faults each name of an expression, or of a definition's text, is bound there, or means an entry that was in
/// scope, which fits. On the way numbers only grow, and what was known stays.
pub fn names_are_fine()
    ensures grows { NumbersGrow }
    ensures expression { NamesAreFine }
    ensures body { BodiesAreFine }
{}

/// After such a walk the core of an expression is closed, and the bodies of a definition have its parameters as loose variables,
/// and one more for each that it primes. Their symbols are those of entries that were in scope.
pub fn cores_are_in_scope()
    ensures expression { CoresAreInScope }
    ensures bodies { BodiesAreInScope }
{}
