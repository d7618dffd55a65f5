//! What is shown of jobs.

ghost use Rattle.std.specs.Prelude.{◌≡◌, map, option_map, IfOk};
ghost use Rattle.leaf_jobs.specs.Values.{symbol_text, valuation_text};
ghost use Rattle.leaf_jobs.specs.Came.{shown_of, came_of, came_at};
ghost use Rattle.leaf_jobs.specs.Filling.{shown_all};

use crate::values::push_valuation;
use core_expr::{Memory, Sym, Text};
use proof_cache::Verdict;
use sqlite_items::Items;
use status_report::Shown;
use std::alloc::Global;
use symbol_table::Scoped;

/// The text of the values of symbols, where there are values.
fn valuation(
    alloc: Global,
    scoped: &Scoped,
    symbols: &[Sym],
    values: &Option<Items<bool>>,
) -> Result<Option<Text>, Memory>
    ensures { IfOk result (λ t. t ≡ option_map (valuation_text
        (map (symbol_text scoped.now.entries) symbols.now)) values.now) }
{
    let Some(values) = values else {
        return Ok(None);
    };
    let mut text = Vec::new(alloc);
    push_valuation(&mut text, scoped, symbols, values.as_slice())?;
    Ok(Some(Text::from_vec(text)))
}

/// What is shown of a verdict.
fn shown(
    alloc: Global,
    scoped: &Scoped,
    symbols: &[Sym],
    verdict: &Verdict,
) -> Result<Shown, Memory>
    ensures { IfOk result (λ s. s ≡ shown_of
        (map (symbol_text scoped.now.entries) symbols.now) (came_of verdict.now)) }
{
    match verdict {
        Verdict::Proved { cached: true, .. } => Ok(Shown::Cached),
        Verdict::Proved { turns, .. } => Ok(Shown::Proved(*turns)),
        Verdict::Saturated {
            valuation: values,
            turns,
        } => {
            let text = valuation(alloc, scoped, symbols, values)?;
            Ok(Shown::Saturated(*turns, text))
        }
        Verdict::Spent { turns } => Ok(Shown::Spent(*turns)),
        Verdict::Memory => Ok(Shown::Memory),
    }
}

/// What is shown of the job with this number.
fn shown_job(
    alloc: Global,
    scoped: &Scoped,
    symbols: &[Sym],
    verdicts: &[Option<Verdict>],
    job: u64,
) -> Result<Shown, Memory>
    ensures { IfOk result (λ s. s ≡ shown_of
        (map (symbol_text scoped.now.entries) symbols.now) (came_at verdicts.now job)) }
{
    match verdicts.get(job as usize) {
        Some(Some(verdict)) => shown(alloc, scoped, symbols, verdict),
        _ => Ok(Shown::Memory),
    }
}

/// What is shown of leaves with these names and these jobs.
pub fn shown_all(
    alloc: Global,
    scoped: &Scoped,
    verdicts: &[Option<Verdict>],
    names: &[Items<Sym>],
    jobs: &[u64],
) -> Result<Vec<Shown>, Memory>
    ensures { IfOk result (λ v. v.items
        ≡ shown_all scoped.now.entries verdicts.now names.now jobs.now) }
{
    let mut found = Vec::new(alloc);
    for i in 0..names.len().min(jobs.len()) {
        found.push(shown_job(alloc, scoped, names[i].as_slice(), verdicts, jobs[i])?)?;
    }
    Ok(found)
}
