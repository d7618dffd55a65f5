//! Chains of operands and operators.

ghost use Rattle.std.specs.Prelude.{◌≡◌, false, Some, None, IfOk, MatchOption};
ghost use Rattle.std_names.specs.Operators as table;
ghost use Rattle.operator_chain.specs.Chain.{OneRightTree, FirstFault};
ghost use Rattle.operator_chain.specs.Listed.{IsListed, sign_of};

use core_expr::{Memory, Text};
use std::alloc::Global;
use std_names::{Fix, operator};
use tla_ast::{Node, Place};

/// A prefix or an infix operator, with its row of the table of operators and its place.
#[derive(Debug, Drop)]
pub struct Operator {
    pub sign: Text,
    pub low: u64,
    pub high: u64,
    pub is_left: bool,
    pub place: Place,
}

/// Which postfix operator it is.
#[derive(Debug, Drop)]
pub enum Ending {
    /// `'`.
    Prime,
    /// `[e]`, with the argument.
    Index(Node),
    /// `.h`, with the name of the field.
    Field(Text),
}

/// A postfix operator, with its row of the table of operators and its place.
#[derive(Debug, Drop)]
pub struct Suffix {
    pub ending: Ending,
    pub low: u64,
    pub high: u64,
    pub place: Place,
}

impl Operator {
    /// The operator of the table with this sign, prefix or infix as `fix` says; None exactly where the table has none.
    pub fn find(
        alloc: Global,
        sign: &[u8],
        fix: Fix,
        place: Place,
    ) -> Result<Option<Operator>, Memory>
        ensures { IfOk result (λ r. MatchOption r (table.operator sign.now fix ≡ None)
            (λ o. (table.operator o.sign fix ≡ Some (o.low, o.high, o.is_left)) × (o.sign ≡ sign.now) × (o.place ≡ place))) }
    {
        match operator(sign, fix) {
            Some((low, high, is_left)) => {
                let sign = Text::of(alloc, sign)?;
                Ok(Some(Operator {
                    sign,
                    low,
                    high,
                    is_left,
                    place,
                }))
            }
            None => Ok(None),
        }
    }
}

impl Ending {
    fn precedence(&self) -> u64
        ensures { table.operator (sign_of self.now) Fix.Postfix ≡ Some (result, result, false) }
    {
        match self {
            Ending::Prime => 15,
            Ending::Index(_) => 16,
            Ending::Field(_) => 17,
        }
    }
}

impl Suffix {
    /// The postfix operator with its row of the table.
    pub fn new(ending: Ending, place: Place) -> Suffix
        ensures listed { IsListed (Piece.Postfix result) }
        ensures same_ending { result.ending ≡ ending }
        ensures same_place { result.place ≡ place }
    {
        let precedence = ending.precedence();
        Suffix {
            ending,
            low: precedence,
            high: precedence,
            place,
        }
    }
}

/// A piece of a chain. What stands in parentheses is an operand.
#[derive(Debug, Drop)]
pub enum Piece {
    Operand(Node),
    Prefix(Operator),
    Infix(Operator),
    Postfix(Suffix),
}

/// A tree is right and has these pieces in this order exactly where it is the tree that the definition gives for the chain.
/// So a chain has one right tree at most.
pub fn one_right_tree()
    ensures { OneRightTree }
{}

/// The fault of a chain stands at an operator exactly where the chain has no right tree, the chain up to that operator has
/// none, and the chain up to each earlier operator has one.
pub fn first_fault()
    ensures { FirstFault }
{}
