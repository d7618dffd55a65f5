//! From the verdicts of jobs to what is reported.

ghost use Rattle.std.specs.Prelude.{◌≡◌, IfOk};
ghost use Rattle.core_expr.specs.declared.canon.Canon.{Canon};
ghost use Rattle.leaf_jobs.specs.Came.{Came};
ghost use Rattle.leaf_jobs.specs.Forms.{forms_of};
ghost use Rattle.leaf_jobs.specs.Judging.{judged};
ghost use Rattle.leaf_jobs.specs.Stopping.{reported};
ghost use Rattle.leaf_jobs.specs.Plans.{IsPlanned, AreVerdicts, ComeTo};

use crate::fill::modules_by;
use crate::show::shown_all;
use core_expr::Memory;
use job_plan::Plan;
use proof_cache::Verdict;
use sqlite_items::Items;
use status_report::ModuleIn;
use std::alloc::Global;
use symbol_table::Scoped;
use theorem_leaves::Chapter;

/// What is reported.
#[derive(Drop)]
pub struct Judged {
    pub modules: Items<ModuleIn>,
    /// Whether a failed leaf ended the run. It is the last one, then.
    pub stopped: bool,
}

/// The modules with what the leaves of their theorems come to, by the verdicts of the jobs of their plan; with `stop` up to the first
/// failed leaf. Jobs behind the least failed one may then be without a verdict. Takes linear time.
pub fn judge(
    alloc: Global,
    scoped: &Scoped,
    chapters: &[Chapter],
    plan: &Plan,
    verdicts: &[Option<Verdict>],
    least: Option<u64>,
    stop: bool,
) -> Result<Judged, Memory>
    requires plan { IsPlanned (forms_of chapters.now) plan.now }
    requires verdicts { AreVerdicts stop least plan.now.jobs.items verdicts.now }
    ensures { IfOk result (λ j. (came : Canon → Came) → ComeTo came plan.now.jobs.items verdicts.now
        → (j.modules, j.stopped) ≡ reported stop (judged came scoped.now.entries chapters.now)) }
{
    let _ = least;
    let shown = shown_all(
        alloc,
        scoped,
        verdicts,
        plan.names.as_slice(),
        plan.of_leaf.as_slice(),
    )?;
    let (modules, stopped) = modules_by(alloc, stop, shown.into_iter(), chapters)?;
    Ok(Judged { modules, stopped })
}
