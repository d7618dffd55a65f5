//! Laws of the lists, each the contract of a function that does nothing.
ghost use Rattle.proof_text.specs.Texts.{ProofsDiffer, ObligationsDiffer};

/// Proofs that are written alike are the same lists of nodes and steps. A law: it does nothing when it runs.
pub fn proofs_differ()
    ensures { ProofsDiffer }
{}

/// Obligations that are written alike are the same. A law: it does nothing when it runs.
pub fn obligations_differ()
    ensures { ObligationsDiffer }
{}
