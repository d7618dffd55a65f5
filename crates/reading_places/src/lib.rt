//! What is read has names at different places. The function does nothing: its contract is the law.
//!
//! The names of a module are looked up by the places at which they stand. To the layers above, this crate promises that no two names
//! of a module that a text is read as stand at one place ([`read_places_differ`]): the places of tokens rise, and each name of what
//! tokens spell stands at a token of its own.
#![tactic(auto)]

ghost use Rattle.reading_places.specs.Laws.{ReadPlacesDiffer};

use proof_parser::read_in_order;
use tla_lexer::tokens_lie_in_the_text;

/// No two names of a module that a text is read as stand at one place.
pub fn read_places_differ()
    ensures { ReadPlacesDiffer }
{
    tokens_lie_in_the_text();
    read_in_order();
}
