//! Laws of records, each the contract of a function that does nothing.
ghost use Rattle.cache_file.specs.Laws.{RecordsAreOne};

use proof_text::{obligations_differ, proofs_differ};

/// The records of lines are one list, and so is the number of those that are none. A law: it does nothing when it runs.
pub fn records_are_one()
    ensures { RecordsAreOne }
{
    obligations_differ();
    proofs_differ();
}
