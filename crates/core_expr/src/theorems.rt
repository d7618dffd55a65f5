//! Laws of expressions, each the contract of a function that does nothing.
ghost use Rattle.core_expr.specs.Laws.{PuttingInCommutes, MovingCommutes, MovingScopes, MovingKeepsForm, ScopeIsLoose, ClosedStays, SubstitutionKeepsScopes, PuttingInScopes, PuttingInKeepsForm, NodesGiveBack, SameIsEqual, ScopedIsTested, MadeShows, MadeIsFormed, ShownMakes, ShownFits, LastIsRoot, NodeShows, NodeIsCanonical, CanonicalIsNode};

/// Putting in and substituting for symbols commute.
#[tactic(auto, using(crate::proofs::Proved::putting_in_commutes))]
pub fn putting_in_commutes()
    ensures { PuttingInCommutes }
{}

/// Moving the loose variables and substituting for symbols commute.
#[tactic(auto, using(crate::proofs::Proved::moving_commutes))]
pub fn moving_commutes()
    ensures { MovingCommutes }
{}

/// Moving the loose variables up by a number widens the scope by that number.
#[tactic(auto, using(crate::proofs::Proved::moving_scopes))]
pub fn moving_scopes()
    ensures { MovingScopes }
{}

/// Moving the loose variables of a well-formed expression gives a well-formed one.
#[tactic(auto, using(crate::proofs::Proved::moving_keeps_form))]
pub fn moving_keeps_form()
    ensures { MovingKeepsForm }
{}

/// An expression's scope is a bound on its loose variables.
#[tactic(auto, using(crate::proofs::Proved::scope_is_loose))]
pub fn scope_is_loose()
    ensures { ScopeIsLoose }
{}

/// Putting anything into a closed expression, and moving its loose variables, leave it as it is.
#[tactic(auto, using(crate::proofs::Proved::closed_stays))]
pub fn closed_stays()
    ensures { ClosedStays }
{}

/// Substituting for symbols adds no loose variable.
#[tactic(auto, using(crate::proofs::Proved::substitution_keeps_scopes))]
pub fn substitution_keeps_scopes()
    ensures { SubstitutionKeepsScopes }
{}

/// Putting in leaves only the loose variables of what is put in, and those below the depth.
#[tactic(auto, using(crate::proofs::Proved::putting_in_scopes))]
pub fn putting_in_scopes()
    ensures { PuttingInScopes }
{}

/// Putting a well-formed expression into another gives a well-formed one.
#[tactic(auto, using(crate::proofs::Proved::putting_in_keeps_form))]
pub fn putting_in_keeps_form()
    ensures { PuttingInKeepsForm }
{}

/// The nodes of a tree give it back.
#[tactic(auto, using(crate::proofs::Proved::nodes_give_back))]
pub fn nodes_give_back()
    ensures { NodesGiveBack }
{}

/// The test of equality says equality.
#[tactic(auto, using(crate::proofs::Proved::same_is_equal))]
pub fn same_is_equal()
    ensures { SameIsEqual }
{}

/// The test of scopes says that there is no loose variable from a number on.
#[tactic(auto, using(crate::proofs::Proved::scoped_is_tested))]
pub fn scoped_is_tested()
    ensures { ScopedIsTested }
{}

/// A node made of fitting things shows them.
pub fn made_shows()
    ensures { MadeShows }
{}

/// A node made of fitting things over well-formed parts is well formed.
#[tactic(auto, using(crate::proofs::Proved::made_is_formed))]
pub fn made_is_formed()
    ensures { MadeIsFormed }
{}

/// A tree is the node made of what it shows.
#[tactic(auto, using(crate::proofs::Proved::shown_makes))]
pub fn shown_makes()
    ensures { ShownMakes }
{}

/// What a well-formed tree shows fits the table of heads.
#[tactic(auto, using(crate::proofs::Proved::shown_fits))]
pub fn shown_fits()
    ensures { ShownFits }
{}

/// The last node is the root of the whole.
#[tactic(auto, using(crate::proofs::Proved::last_is_root))]
pub fn last_is_root()
    ensures { LastIsRoot }
{}

/// A node of a table, made of what the table of heads allows, shows it.
pub fn node_shows()
    ensures { NodeShows }
{}

/// A node of a table over well-formed canonical trees is one.
pub fn node_is_canonical()
    ensures { NodeIsCanonical }
{}

/// The root of a well-formed canonical tree is a node of a table.
pub fn canonical_is_node()
    ensures { CanonicalIsNode }
{}
