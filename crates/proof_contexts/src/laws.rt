//! Laws of proofs. The functions do nothing: their contracts are the laws.
ghost use Rattle.proof_contexts.specs.Laws.{ReportedDerives, ExpansionIsFinal, CanonGoesBack};

/// A theorem that is reported proved has a derivation of its fully expanded fact from the fully expanded assumptions before it
/// alone.
pub fn reported_derives()
    ensures { ReportedDerives }
{}

/// What is unfolded in part, everywhere or at its head, has the same full expansion.
pub fn expansion_is_final()
    ensures { ExpansionIsFinal }
{}

/// An obligation's formulas come back from its canonical form by a map from symbols.
pub fn canon_goes_back()
    ensures { CanonGoesBack }
{}
