//! What the reader of modules reads of expressions: these themselves, the head of a definition, bound names with sets.

ghost use Rattle.tla_ast.specs.Answers.{Reads};
ghost use Rattle.layout_parser.specs.Reading as spec;
ghost use Rattle.layout_parser.specs.Reading.{rule};

use crate::grammar::{Grammar, read_chain};
use sqlite_items::Items;
use std::alloc::Global;
use tla_ast::{Decl, Fault, Group, Node};
use token_reader::{Cursor, Setting};

/// Reads the expression that begins at the next token, in a setting, where so many nestings may begin, itself among them. After a
/// fault nothing is said of the cursor.
///
/// The fault is the one of the least place: Expected where no rule goes on, or Unsupported in its stead at what the language has
/// and this reader has not; Precedence at the first operator up to which a chain has no right tree; TooDeep at the token that
/// would begin a nesting too many. Brackets, argument lists, junction items, bodies, sets of bounds, the parts of IF and CASE and
/// the right sides of definitions nest. After Lamport, "Specifying Systems", chapters 15 and 16, and "TLA+ Version 2".
///
/// The time is linear in the tokens read. The nesting bounds the recursion; a node may be deeper by its operators.
pub fn expression(
    alloc: Global,
    cursor: &mut Cursor<'_>,
    nestings: usize,
    setting: Setting,
) -> Result<Node, Fault>
    ensures { Reads (spec.expression nestings setting cursor.old) result cursor.new }
{
    let grammar = Grammar {
        alloc,
        left: nestings,
        read: read_chain,
    };
    grammar.part(cursor, setting)
}

/// Reads what a definition has before its right side: the parameters, if any, and the `==`.
pub fn definition_head(
    alloc: Global,
    cursor: &mut Cursor<'_>,
    nestings: usize,
    setting: Setting,
) -> Result<Items<Decl>, Fault>
    ensures { Reads (rule nestings spec.head setting cursor.old) result cursor.new }
{
    let grammar = Grammar {
        alloc,
        left: nestings,
        read: read_chain,
    };
    grammar.head(cursor, setting)
}

/// Reads one or more groups of bound names with sets, of which the first has these names.
pub fn bounds(
    alloc: Global,
    cursor: &mut Cursor<'_>,
    nestings: usize,
    setting: Setting,
    names: Items<Decl>,
) -> Result<Items<Group>, Fault>
    ensures { Reads (rule nestings spec.bounds setting names cursor.old) result cursor.new }
{
    let grammar = Grammar {
        alloc,
        left: nestings,
        read: read_chain,
    };
    grammar.bounds(cursor, setting, names)
}
