//! What answers jobs by number, and what is told before it.
ghost use Rattle.std.specs.Prelude.{◌<◌, length};
ghost use Rattle.proof_cache.specs.Records.{kept_for};
ghost use Rattle.worker_map.specs.Answers.{IsVerdict};

use core_expr::Canon;
use proof_cache::{Cache, Limit, Prover, Verdict};

/// What a worker answers jobs with.
pub trait Answers: Sync {
    ghost use Rattle.std.specs.Prelude.{ℕ};
    ghost use Rattle.proof_cache.specs.declared.verdict.Verdict.{Verdict};

    /// The verdicts that may be given to a job.
    ghost right: { Self → ℕ → Verdict → Type 0 };

    /// The number of jobs.
    ghost count: { Self → ℕ };

    /// A verdict of the job with this number.
    fn answer(&self, job: u64) -> Verdict
        requires { job < count self.now }
        ensures { right self.now job result };
}

/// The jobs of a run in order, with what proves them, its cache, and its limit of turns.
#[derive(Drop)]
pub struct Jobs<'a, P> {
    pub list: &'a [Canon],
    pub prover: &'a P,
    pub cache: &'a Cache,
    pub limit: Limit,
}

/// What is told of each job before it is proved.
pub trait Gate: Sync {
    /// The worker with this number is about to prove this job.
    fn enter(&self, worker: u64, job: u64);
}

/// A gate that does nothing.
pub struct Through;

impl Gate for Through {
    fn enter(&self, _worker: u64, _job: u64) {}
}

impl<'a, P: Prover> Answers for Jobs<'a, P> {
    ghost right = { λ j. IsVerdict (P.answers j.prover.now (kept_for j.cache.now) j.limit) j.list.now };

    ghost count = { λ j. length j.list.now };

    fn answer(&self, job: u64) -> Verdict {
        self.prover
            .prove(&self.list[job as usize], self.cache, self.limit)
    }
}
