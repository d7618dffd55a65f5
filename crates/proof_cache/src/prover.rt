//! What proves jobs.
use crate::cache::Cache;
use crate::limit::Limit;
use crate::verdict::Verdict;
use core_expr::Canon;

/// What proves jobs, from several threads at once.
pub trait Prover: Sync {
    ghost use Rattle.std.specs.Prelude.{ℕ, List};
    ghost use Rattle.core_expr.specs.declared.canon.Canon.{Canon};
    ghost use Rattle.seq_calculus.specs.Lists.{Lists};
    ghost use Rattle.proof_cache.specs.declared.verdict.Verdict.{Verdict};
    ghost use Rattle.proof_cache.specs.Records.{kept_for};
    ghost use Rattle.proof_cache.specs.Verdicts.{Allowed};

    /// With these proofs kept for each canonical form, which nobody has checked, and this limit, in turns, the verdicts that are right for
    /// a canonical form.
    ghost answers: { Self → (Canon → List Lists) → ℕ → Canon → Verdict → Type 0 };

    /// A right verdict for the canonical form, or Memory.
    fn prove(&self, canon: &Canon, cache: &Cache, limit: Limit) -> Verdict
        ensures { Allowed (answers self.now (kept_for cache.now) limit) canon.now result };
}
