//! Brackets that begin with `x \in`.

ghost use Rattle.std.specs.Prelude.{◌≡◌, ◌∷◌, true, IfOk, OnOk};
ghost use Rattle.operator_chain.specs.Chain.{IsChain};
ghost use Rattle.operator_chain.specs.Listed.{AreListed};
ghost use Rattle.token_reader.specs.Input as input;
ghost use Rattle.tla_ast.specs.Answers.{Reads};
ghost use Rattle.token_reader.specs.Input.{Tokens};
ghost use Rattle.token_reader.specs.Marks.{spelling};
ghost use Rattle.layout_parser.specs.Reading as spec;
ghost use Rattle.layout_parser.specs.Nests.{chain_of};

use crate::build::leaf;
use crate::flat::Flat;
use crate::grammar::finished;
use core_expr::{Memory, Text};
use operator_chain::{Operator, Piece};
use std::alloc::Global;
use std::collections::VecDeque;
use tla_ast::{Fault, Form, Node, Place};
use token_reader::{Cursor, Mark, Setting};

/// A name and the `\in` after it.
#[derive(Drop)]
pub struct Bound {
    pub name: Text,
    pub place: Place,
    pub sign: Place,
}

/// The operator `\in`.
fn member_at(alloc: Global, place: Place) -> Result<Piece, Memory>
    ensures { IfOk result (λ p. p ≡ spec.member_at place) }
{
    let sign = Text::of(alloc, b"\\in")?;
    Ok(Piece::Infix(Operator {
        sign,
        low: 5,
        high: 5,
        is_left: false,
        place,
    }))
}

/// One piece more at the front.
pub fn put_before(pieces: &mut VecDeque<Piece>, piece: Piece) -> Result<(), Memory>
    ensures { OnOk result (pieces.new.items ≡ piece ∷ pieces.old.items) }
{
    pieces.push_front(piece)?;
    Ok(())
}

impl Bound {
    /// Reads a name and a sign.
    pub fn read(alloc: Global, cursor: &mut Cursor<'_>) -> Result<Bound, Memory>
        ensures name { IfOk result (λ b. b.name ≡ spelling (input.first cursor.old).tok) }
        ensures place { IfOk result (λ b. b.place ≡ input.here cursor.old) }
        ensures sign { IfOk result (λ b. b.sign ≡ input.here (input.next cursor.old)) }
        ensures rest { IfOk result (λ b. cursor.new ≡ input.next (input.next cursor.old)) }
    {
        let name = Text::of(alloc, cursor.spelling())?;
        let place = cursor.take();
        let sign = cursor.take();
        Ok(Bound { name, place, sign })
    }
}

/// The expression that begins with a name and `\in` and goes on with this chain.
pub fn element(alloc: Global, bound: Bound, set: Flat) -> Result<Node, Fault>
    requires chain { IsChain true set.pieces.items }
    requires listed { AreListed set.pieces.items }
    ensures { (rest : Tokens) → Reads
        (spec.finished (spec.after_member bound.name bound.place bound.sign (chain_of set rest)))
        result rest }
{
    let Flat { mut pieces, fault } = set;
    let Bound { name, place, sign } = bound;
    put_before(&mut pieces, member_at(alloc, sign)?)?;
    let name = leaf(alloc, Form::Name(name), place);
    put_before(&mut pieces, Piece::Operand(name))?;
    finished(alloc, Flat { pieces, fault })
}

/// Whether the chain was read without a fault inside it, and this mark comes next.
pub fn ends_at(cursor: &Cursor<'_>, setting: Setting, set: &Flat, mark: Mark) -> bool
    ensures { result ≡ spec.ends_at setting mark (chain_of set.now cursor.now) }
{
    set.fault.is_none() && cursor.sees(setting, mark)
}
