//! The kit of readers: what the reader of expressions and the reader of modules are made of.
//!
//! To the layers above this crate promises a cursor over the tokens that are left, whose every step is that of a reader of
//! `specs/Input.antt`: the marks of tokens, the tests of the next one, and the fault where no rule goes on with it, which is
//! Unsupported in the place of Expected by what is round the token and what stands before it. `specs/Lists.antt` has the one
//! form of every list. A function that reads ensures its reader's outcome, unless memory fails. The words with a mark of their
//! own are the reserved words.
#![tactic(auto)]

mod cursor;
mod laws;
mod list;
mod mark;
mod setting;

pub use cursor::Cursor;
pub use laws::words_are_reserved;
pub use list::names;
pub use mark::{Mark, mark_of, same_mark, spelling};
pub use setting::{Around, Setting, Stop};
