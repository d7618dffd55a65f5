//! Laws of the calculus, each the contract of a function that does nothing.
ghost use Rattle.seq_calculus.specs.Laws.{Weakening, Substitution, Closedness, ClosedInstances};
ghost use Rattle.seq_calculus.specs.Example.{FlatExample};

/// More formulas on either side, in any order, keep a sequent derivable. A law: it does nothing when it runs.
pub fn weakening()
    ensures { Weakening }
{}

/// A map from symbols to expressions, whose loose variables are the symbol's arguments, keeps a sequent derivable when
/// it is applied to each formula. A law: it does nothing when it runs.
pub fn substitution()
    ensures { Substitution }
{}

/// A derivable sequent has closed formulas alone. A law: it does nothing when it runs.
pub fn closedness()
    ensures { Closedness }
{}

/// The formula that a correct step brings in by a schema is that schema's closed instance. A law: it does nothing when it
/// runs.
pub fn closed_instances()
    ensures { ClosedInstances }
{}

/// Two steps, as they are written in flat lists, prove A => A, and with another rule in the second they do not. A law: it
/// does nothing when it runs.
pub fn flat_example()
    ensures { FlatExample }
{}
