//! Statuses of theorems, and the text of the report.
//!
//! To the program this crate promises that [`report`] gives, for what the leaves of the theorems of the modules come to, the text
//! of the report, how many theorems there are and how many are proved, and whether some leaf wanted memory. A theorem is reported as
//! the definition of statuses in `proof_contexts` says ([`statuses_agree`]).
#![tactic(auto)]

mod json;
mod judge;
mod laws;
mod seen;
mod table;
mod tell;
mod text;

pub use laws::statuses_agree;
pub use table::{LeafIn, ModuleIn, Report, Shown, Style, TheoremIn};
pub use tell::report;
