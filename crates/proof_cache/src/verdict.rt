//! The verdict of a job.
ghost use Rattle.std.specs.Prelude.{◌≡◌};
ghost use Rattle.proof_cache.specs.Verdicts.{is_failed};

use seq_calculus::SeqProof;
use sqlite_items::Items;

/// What a job comes to: a proof, with the turns of the search or of the cache's record, and whether it came from the cache; a branch that
/// no rule fits, after so many turns, with the value of each symbol where the form is propositional; the limit of turns reached; or no
/// memory.
#[derive(Drop)]
pub enum Verdict {
    Proved {
        proof: SeqProof,
        turns: u64,
        cached: bool,
    },
    Saturated {
        valuation: Option<Items<bool>>,
        turns: u64,
    },
    Spent {
        turns: u64,
    },
    Memory,
}

impl Verdict {
    /// Whether the job is not proved.
    pub fn is_failed(&self) -> bool
        ensures { result ≡ is_failed self.now }
    {
        !matches!(self, Verdict::Proved { .. })
    }
}
