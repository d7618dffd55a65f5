//! Laws of the marks.

ghost use Rattle.token_reader.specs.Laws.{WordsAreReserved};

/// The words that have a mark of their own are the reserved words: any other word is a name.
#[tactic(auto, unfolding(crate::specs::Marks::words, tla_ast::specs::Word::reserved))]
pub fn words_are_reserved()
    ensures { WordsAreReserved }
{}
