//! The types of the text side: places, tokens, the syntax tree of a module and the faults.
//!
//! To the layers above this crate promises types that contracts compare and recurse over as plain data, the order of
//! places, the order and the texts of the kinds of fault, and the test of what an identifier is.
#![tactic(auto)]

mod fault;
mod limit;
mod parts;
mod place;
mod token;
mod tree;
mod unit;
mod word;

pub use fault::{Fault, Kind, LexFault, OutlineFault, ScopeFault, SynFault};
pub use limit::{MOST_BYTES, MOST_MODULES, MOST_NESTINGS};
pub use parts::Parts;
pub use place::Place;
pub use token::{Tok, Token, Tokens};
pub use tree::{Decl, Def, Form, Group, Key, Node, Path};
pub use unit::{
    Fact, Item, Loaded, Module, Proof, Sort, Statement, Step, StepKind, Unit, UnitKind,
};
pub use word::{
    begins_with_fairness, has_letter, is_among, is_identifier, is_reserved, is_word_byte,
};
