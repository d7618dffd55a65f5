//! The proof that a cache gives for a canonical form.
ghost use Rattle.std.specs.Prelude.{◌≡◌, IfOk};
ghost use Rattle.core_expr.specs.Heads.{IsCanonical};
ghost use Rattle.core_expr.specs.Put.{IsScoped};
ghost use Rattle.seq_calculus.specs.Calculus.{AllClosed};
ghost use Rattle.proof_checker.specs.Runs.{AreCanonical};
ghost use Rattle.proof_cache.specs.Records.{kept_for};
ghost use Rattle.cache_hit.specs.Hits.{is_proof_of, hit};

use crate::copies::copy;
use crate::laws::correct_is_tested;
use core_expr::{Canon, Memory};
use proof_cache::Cache;
use proof_checker::check;
use seq_calculus::SeqProof;
use std::alloc::Global;

/// Whether the proof is correct for the canonical form.
fn is_proof_of(alloc: Global, canon: &Canon, proof: &SeqProof) -> Result<bool, Memory>
    requires canonical_facts { AreCanonical canon.now.facts }
    requires canonical_goal { IsCanonical canon.now.goal }
    requires closed_facts { AllClosed canon.now.facts }
    requires closed_goal { IsScoped 0 canon.now.goal }
    ensures { IfOk result (λ b. b ≡ is_proof_of canon.now proof.now) }
{
    correct_is_tested();
    check(alloc, proof, canon)
}

/// A copy of the first proof that is kept for the canonical form and is correct for it. The symbols of the facts and the goal are those of
/// a canonical form, they hold no temporal mark, and they are closed. The time is linear in the proofs that are kept for the form, on the
/// average of the hashes.
pub fn hit(alloc: Global, cache: &Cache, canon: &Canon) -> Result<Option<SeqProof>, Memory>
    requires canonical_facts { AreCanonical canon.now.facts }
    requires canonical_goal { IsCanonical canon.now.goal }
    requires closed_facts { AllClosed canon.now.facts }
    requires closed_goal { IsScoped 0 canon.now.goal }
    ensures { IfOk result (λ r. r ≡ hit canon.now (kept_for cache.now canon.now)) }
{
    let kept = cache.proofs(canon);
    for proof in kept {
        if is_proof_of(alloc, canon, proof)? {
            return Ok(Some(copy(alloc, proof)?));
        }
    }
    Ok(None)
}
