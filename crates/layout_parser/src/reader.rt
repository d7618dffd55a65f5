//! The reading of an expression in a list of tokens.

ghost use Rattle.std.specs.Prelude.{◌<◌, ◌≤◌, length, IfOk};
ghost use Rattle.tla_ast.specs.Answers.{Answers};
ghost use Rattle.tla_ast.specs.Listing.{IsTokenList};
ghost use Rattle.layout_parser.specs.Reading as spec;

use crate::laws::ends_before_the_last;
use crate::phrases::expression;
use operator_chain::one_right_tree;
use std::alloc::Global;
use tla_ast::{Fault, MOST_NESTINGS, Node, Tokens};
use token_reader::{Around, Cursor, Setting};

/// Reads the expression that begins at a token of the list, from 0, of tokens whose column is over `region` alone, with `depth`
/// nestings round it of the 200 that a token may have, as [`expression`] does. Answers the node and the place in the list of the
/// token after it: the list goes on there, since an expression never uses the token that ends the list.
#[tactic(auto, unfolding(crate::specs::Reading::reading))]
pub fn read_expr(
    alloc: Global,
    tokens: &Tokens,
    from: u64,
    region: u64,
    depth: u64,
) -> Result<(Node, u64), Fault>
    requires within { from < length tokens.now.list }
    requires nested { depth ≤ 200 }
    requires list { IsTokenList tokens.now.list }
    ensures reading { Answers result (spec.reading tokens.now.list from region depth) }
    ensures after { IfOk result (λ r. (from < r.1) × (r.1 < length tokens.now.list)) }
{
    one_right_tree();
    ends_before_the_last();
    let list = tokens.list.as_slice();
    let mut cursor = Cursor::new(&list[from as usize..]);
    let setting = Setting {
        region,
        around: Around::Other,
        has_at: false,
    };
    let nestings = (MOST_NESTINGS - depth) as usize + 1;
    let node = expression(alloc, &mut cursor, nestings, setting)?;
    let after = list.len().saturating_sub(cursor.left());
    Ok((node, after as u64))
}
