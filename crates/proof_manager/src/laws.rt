//! What reports mean.

ghost use Rattle.proof_manager.specs.Causes.{ReadsAreJust};

use leaf_forms::leaves_are_forms;
use leaf_jobs::fronts_are_proved;
use leaf_prover::{answered_derives, cache_keeps_proved, enough_turns_decide, values_are_right};
use proof_assembly::statuses_are_justified;
use propositional_laws::few_connectives;
use reading_places::read_places_differ;
use status_report::statuses_agree;
use theorem_leaves::chapters_report;

/// What is reported of modules with different names is so: each theorem that is reported proved has its derivation, whatever
/// the cache held, whichever searches found no memory and wherever the run was stopped; each leaf that is to be proved is searched; no valuation falsifies a leaf that is
/// proved, printed values falsify theirs, and leaves of few connectives are decided.
pub fn reports_are_just()
    ensures { ReadsAreJust }
{
    read_places_differ();
    statuses_are_justified();
    statuses_agree();
    chapters_report();
    fronts_are_proved();
    answered_derives();
    cache_keeps_proved();
    values_are_right();
    enough_turns_decide();
    few_connectives();
    leaves_are_forms();
}
