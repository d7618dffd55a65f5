//! The written search with a proof of what it proves.
ghost use Rattle.std.specs.Prelude.{◌≡◌, true, IfOk};
ghost use Rattle.proof_cache.specs.Records.{kept_for};
ghost use Rattle.proof_cache.specs.Verdicts.{Allowed};
ghost use Rattle.cache_hit.specs.Hits.{hit};
ghost use Rattle.leaf_prover.specs.Forms.{is_form};
ghost use Rattle.leaf_prover.specs.Answers.{IsRight};
ghost use Rattle.leaf_prover.specs.Provers.{IsAnsweredBy};
ghost use Rattle.leaf_prover.specs.Searches.{IsSearched};

use crate::form::is_form;
use crate::search::{Searched, search_form};
use crate::values::values_of;
use cache_hit::{hit, hit_is_correct};
use core_expr::{Canon, Memory};
use equation_proofs::Rules;
use proof_cache::{Cache, Limit, Prover, Verdict};
use proof_trees::steps_told;
use search_loop::Ending;
use seq_translate::translate;
use std::alloc::Global;

/// The verdict of a search on the form.
fn verdict_of(alloc: Global, canon: &Canon, limit: Limit, s: Searched) -> Result<Verdict, Memory>
    requires form { is_form canon.now ≡ true }
    requires searched { IsSearched limit canon.now s }
    ensures { IfOk result (IsRight limit canon.now) }
{
    let _ = limit;
    steps_told();
    match s.ending {
        Ending::Closed(turns) => {
            let proof = translate(&Rules, alloc, s.bank, s.turns.as_slice(), s.goal)?;
            Ok(Verdict::Proved {
                proof,
                turns,
                cached: false,
            })
        }
        Ending::Saturated(turns) => {
            let branch = s.branch.as_slice();
            let valuation = values_of(alloc, &s.bank, branch, canon, s.symbols)?;
            Ok(Verdict::Saturated { valuation, turns })
        }
        Ending::Spent(turns) => Ok(Verdict::Spent { turns }),
    }
}

/// What the written search answers to the canonical form, with at most so many turns: a proved form comes with a proof that is correct
/// for it. Want of memory is a verdict of its own.
pub fn prove(alloc: Global, canon: &Canon, limit: Limit) -> Verdict
    requires form { is_form canon.now ≡ true }
    ensures { Allowed (IsRight limit) canon.now result }
{
    let Ok(searched) = search_form(alloc, canon, limit) else {
        return Verdict::Memory;
    };
    match verdict_of(alloc, canon, limit, searched) {
        Ok(verdict) => verdict,
        Err(_) => Verdict::Memory,
    }
}

/// The first proof that the cache keeps for the form and that is correct for it, after no turn, and else what the written search answers.
fn recall_or_prove(alloc: Global, canon: &Canon, cache: &Cache, limit: Limit) -> Verdict
    requires form { is_form canon.now ≡ true }
    ensures { Allowed (IsAnsweredBy (hit canon.now (kept_for cache.now canon.now)) limit) canon.now result }
{
    hit_is_correct();
    match hit(alloc, cache, canon) {
        Ok(Some(proof)) => Verdict::Proved {
            proof,
            turns: 0,
            cached: true,
        },
        Ok(None) => prove(alloc, canon, limit),
        Err(_) => Verdict::Memory,
    }
}

/// The prover of jobs: the kept proofs, and the written search on forms.
#[derive(Drop)]
pub struct Engine {
    alloc: Global,
}

impl Engine {
    /// The prover whose searches take memory here.
    pub fn new(alloc: Global) -> Engine {
        Engine { alloc }
    }
}

impl Prover for Engine {
    ghost use Rattle.leaf_prover.specs.Provers.{IsAnswered};

    ghost answers = { λ e kept n c v. IsAnswered (kept c) n c v };

    /// A kept proof that is correct for the form, or the verdict of the written search. What is no form is neither looked up nor searched.
    fn prove(&self, canon: &Canon, cache: &Cache, limit: Limit) -> Verdict {
        if !is_form(canon) {
            return Verdict::Spent { turns: 0 };
        }
        recall_or_prove(self.alloc, canon, cache, limit)
    }
}
