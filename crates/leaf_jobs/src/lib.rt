//! From the leaves of theorems to the jobs of a run, and from their verdicts back to what is reported.
//!
//! To the top call this crate promises:
//! - [`forms`] gives the canonical forms of the leaves that are to be proved, in the order of the report.
//! - [`judge`] gives the modules with what their leaves come to by the verdicts of their jobs, up to the first failed leaf where failures
//!   stop the run. A job that was skipped is behind that leaf, and is not shown.
//! - What is reported of all leaves is all of them where failures do not stop the run ([`unstopped_is_whole`]). A theorem of a stopped
//!   report is proved only where it is proved by all its leaves ([`fronts_are_proved`]). Where no leaf of a report wanted memory, it is
//!   the report of a run that finds all memory ([`report_without_memory`]).
//! - Where a report is not stopped, each job has a verdict ([`whole_is_given`]), and each found its memory where no leaf of the report
//!   wanted some ([`whole_finds_memory`]).
#![tactic(auto)]

mod fill;
mod gather;
mod laws;
mod show;
mod teller;
mod values;

pub use gather::forms;
pub use laws::{
    fronts_are_proved, report_without_memory, unstopped_is_whole, whole_finds_memory,
    whole_is_given,
};
pub use teller::{Judged, judge};
