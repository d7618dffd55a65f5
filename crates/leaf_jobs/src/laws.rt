//! What is reported, against the leaves of all theorems. The functions do nothing: their contracts are the laws.

ghost use Rattle.leaf_jobs.specs.Laws.{UnstoppedIsWhole, ReportWithoutMemory, FrontsAreProved, WholeIsGiven, WholeFindsMemory};

/// Where failures do not stop the run, all leaves of all theorems are reported.
#[tactic(auto, using(crate::proofs::Fronts::unstopped_is_whole))]
pub fn unstopped_is_whole()
    ensures { UnstoppedIsWhole }
{}

/// Where some jobs find no memory, and no leaf of the report wanted memory, the report is the one that is given where all jobs find it.
#[tactic(auto, using(crate::proofs::Fronts::report_without_memory))]
pub fn report_without_memory()
    ensures { ReportWithoutMemory }
{}

/// A theorem that is reported proved is proved by all its leaves, also where a failed leaf ended the run; and the theorems that are
/// reported are the first ones.
#[tactic(auto, using(crate::proofs::FrontStatuses::fronts_are_proved))]
pub fn fronts_are_proved()
    ensures { FrontsAreProved }
{}

/// Where the report is not stopped at a failed leaf, no job was skipped: each has a verdict.
#[tactic(auto, using(crate::proofs::Whole::whole_is_given))]
pub fn whole_is_given()
    ensures { WholeIsGiven }
{}

/// Where the report is not stopped at a failed leaf, and no leaf of it wanted memory, each job found its memory.
#[tactic(auto, using(crate::proofs::Whole::whole_finds_memory))]
pub fn whole_finds_memory()
    ensures { WholeFindsMemory }
{}
