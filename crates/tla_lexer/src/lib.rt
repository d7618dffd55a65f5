//! From the bytes of a module to its tokens.
//!
//! To the layers above this crate promises that `lex` gives exactly the tokens of a text or exactly its first fault, and that
//! the tokens and what lies between them are the text from the header to the end token, in order. A fault stands at a byte of
//! the text or at its end. The work is linear in the
//! text: each byte is looked at a few times.
#![tactic(auto)]

mod comment;
mod header;
mod law;
mod lexer;
mod piece;
mod place;
mod run;
mod signs;
mod string;

pub use law::{faults_lie_in_the_text, tokens_lie_in_the_text};
pub use lexer::lex;
