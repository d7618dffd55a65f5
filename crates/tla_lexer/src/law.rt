//! What tokens are, in the words of the text.

ghost use Rattle.tla_lexer.specs.Law.{TokensLie, FaultsLie};

/// The tokens' spellings and what lies between them, which are blanks and comments, are the text from the header to the
/// end token, in order. The places rise by line and then column, and the last token and no other is `End` or `Eof`.
pub fn tokens_lie_in_the_text()
    ensures { TokensLie }
{}

/// The fault of a text that has no tokens stands at a byte of the text or at its end, and is no want of memory.
pub fn faults_lie_in_the_text()
    ensures { FaultsLie }
{}
