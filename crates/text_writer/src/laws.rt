//! Laws of what is written, each the contract of a function that does nothing.
ghost use Rattle.text_writer.specs.Laws.{CanonIsShown, ProofIsShown, AlikeIfSame};

use core_expr::theorems::{canonical_is_node, node_is_canonical};
use proof_text::proofs_differ;

/// What is written of a canonical form is read back as it. A law: it does nothing when it runs.
pub fn canon_is_shown()
    ensures { CanonIsShown }
{
    canonical_is_node();
}

/// What is written of a proof is read back as a proof with the same tree, so that it is correct for the same obligations. A
/// law: it does nothing when it runs.
pub fn proof_is_shown()
    ensures { ProofIsShown }
{
    canonical_is_node();
    node_is_canonical();
}

/// Proofs are written alike exactly where they have the same tree, whatever else stands in their lists. A law: it does nothing
/// when it runs.
pub fn alike_if_same()
    ensures { AlikeIfSame }
{
    canonical_is_node();
    node_is_canonical();
    proofs_differ();
}
