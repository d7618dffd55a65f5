//! Builds the tree of a chain with a stack of open operators.

ghost use Rattle.std.specs.Prelude.{◌≡◌, true, [], ◌∷◌, List, ◌≢◌, Some, None, IfOk, IfErr, OnOk, if◌then◌else◌, ◌&&◌};
ghost use Rattle.operator_chain.specs.Tree.{Tree, node_of, hole, ended};
ghost use Rattle.operator_chain.specs.Chain.{IsChain, tree_of, IsFaultOf, or_else};
ghost use Rattle.operator_chain.specs.Listed.{AreListed};
ghost use Rattle.operator_chain.specs.Machine.{Frame, State, popped, stacked, plug, operator_in, closes, is_same_part, may_stand, Keeps, Shows, moved, moved_all, start};

use crate::chain::{Ending, Operator, Piece, Suffix};
use sqlite_items::Items;
use std::alloc::{AllocError, Global};
use std::collections::VecDeque;
use std::mem;
use tla_ast::{Fault, Form, Kind, Node, Parts, Place};

/// An operator whose last operand isn't complete, with its left operand.
#[derive(Debug, Drop)]
pub enum Open {
    Prefix(Operator),
    Infix(Node, Operator),
}

/// What was read of a chain: the open operators, the innermost last, and the operand after them. It is sound where the
/// open operators are right with a plain operand after them, and alive where they are right with this operand.
#[derive(Debug, Drop)]
pub struct Stack {
    pub parts: Items<Open>,
    pub last: Node,
    pub is_sound: bool,
    pub is_alive: bool,
    /// The first operator up to which there was no right tree.
    pub wrong: Option<Place>,
}

fn low_of(part: &Open) -> u64
    ensures { result ≡ (operator_in part.now).low }
{
    match part {
        Open::Prefix(operator) => operator.low,
        Open::Infix(_, operator) => operator.low,
    }
}

fn high_of(part: &Open) -> u64
    ensures { result ≡ (operator_in part.now).high }
{
    match part {
        Open::Prefix(operator) => operator.high,
        Open::Infix(_, operator) => operator.high,
    }
}

/// Whether the part has the same infix operator, which is left-associative.
fn is_same(part: &Open, operator: &Operator) -> bool
    ensures { result ≡ is_same_part part.now operator.now }
{
    match part {
        Open::Prefix(_) => false,
        Open::Infix(_, other) => operator.is_left && other.sign.bytes() == operator.sign.bytes(),
    }
}

/// A plain operand: what stands for an operand that is still to come, or for the argument of a `[e` that broke off.
pub fn plain(alloc: Global) -> Node
    ensures { result ≡ hole }
{
    Node {
        form: Form::At,
        parts: Parts::new(alloc),
        place: Place { line: 1, column: 1 },
    }
}

fn two(alloc: Global, left: Node, right: Node) -> Result<Parts<Node>, AllocError>
    ensures { IfOk result (λ p. p ≡ left ∷ right ∷ []) }
{
    let mut parts = Parts::one(alloc, left)?;
    parts.push(right)?;
    Ok(parts)
}

/// The part with its last operand.
fn closed(alloc: Global, part: Open, last: Node) -> Result<Node, AllocError>
    ensures { IfOk result (λ n. n ≡ closes part last) }
{
    match part {
        Open::Prefix(operator) => {
            let parts = Parts::one(alloc, last)?;
            Ok(Node {
                form: Form::Prefix(operator.sign),
                parts,
                place: operator.place,
            })
        }
        Open::Infix(left, operator) => {
            let parts = two(alloc, left, last)?;
            Ok(Node {
                form: Form::Infix(operator.sign),
                parts,
                place: operator.place,
            })
        }
    }
}

/// The operand with a postfix operator.
fn with_ending(
    alloc: Global,
    ending: Ending,
    operand: Node,
    place: Place,
) -> Result<Node, AllocError>
    ensures { IfOk result (λ n. n ≡ ended ending operand place) }
{
    match ending {
        Ending::Prime => Ok(Node {
            form: Form::Prime,
            parts: Parts::one(alloc, operand)?,
            place,
        }),
        Ending::Index(argument) => Ok(Node {
            form: Form::Index,
            parts: two(alloc, operand, argument)?,
            place,
        }),
        Ending::Field(name) => Ok(Node {
            form: Form::Field(name),
            parts: Parts::one(alloc, operand)?,
            place,
        }),
    }
}

/// Closes the operators that the left operand of an infix operator takes in.
fn take_over(
    alloc: Global,
    parts: &mut Items<Open>,
    mut last: Node,
    operator: &Operator,
) -> Result<Node, AllocError>
    ensures { (p : List Frame × Tree) → Keeps parts.old last p
        → IfOk result (λ n. Keeps parts.new n (popped operator.now p.0 p.1)) }
{
    while let Some(part) = parts.pop() {
        let low = low_of(&part);
        if operator.high < low {
            last = closed(alloc, part, last)?;
        } else if is_same(&part, operator) {
            return Ok(closed(alloc, part, last)?);
        } else {
            parts.push(part)?;
            return Ok(last);
        }
    }
    Ok(last)
}

/// Closes all operators.
fn close_all(alloc: Global, parts: &mut Items<Open>, mut last: Node) -> Result<Node, AllocError>
    ensures { (p : List Frame × Tree) → Keeps parts.old last p
        → IfOk result (λ n. n ≡ node_of (plug p.0 p.1)) }
{
    while let Some(part) = parts.pop() {
        last = closed(alloc, part, last)?;
    }
    Ok(last)
}

/// Whether an operator of this low may stand under the innermost part.
fn stands(parts: &Items<Open>, low: u64) -> bool
    ensures { (fs : List Frame) → parts.now ≡ stacked fs → result ≡ may_stand fs low }
{
    match parts.as_slice().last() {
        None => true,
        Some(part) => high_of(part) < low,
    }
}

fn both(a: bool, b: bool) -> bool
    ensures { result ≡ (a && b) }
{
    a && b
}

/// The place that is told: none where the chain has a right tree.
fn told(is_alive: bool, wrong: Option<Place>) -> Option<Place>
    ensures { result ≡ (if is_alive then None else wrong) }
{
    if is_alive { None } else { wrong }
}

impl Stack {
    fn operand(&mut self, node: Node)
        ensures { (s : State) → Shows s self.old → Shows (moved s (Piece.Operand node)) self.new }
    {
        self.last = node;
        self.is_alive = self.is_sound;
    }

    fn note(&mut self, place: Place)
        ensures { self.new ≡ record self.old { wrong = if self.old.is_alive then self.old.wrong else or_else self.old.wrong (Some place) } }
    {
        if !self.is_alive && self.wrong.is_none() {
            self.wrong = Some(place);
        }
    }

    fn prefix(&mut self, alloc: Global, operator: Operator) -> Result<(), AllocError>
        ensures { (s : State) → Shows s self.old → OnOk result (Shows (moved s (Piece.Prefix operator)) self.new) }
    {
        let place = operator.place;
        self.parts.push(Open::Prefix(operator))?;
        self.last = plain(alloc);
        self.is_alive = self.is_sound;
        self.note(place);
        Ok(())
    }

    fn infix(&mut self, alloc: Global, operator: Operator) -> Result<(), AllocError>
        ensures { (s : State) → Shows s self.old → OnOk result (Shows (moved s (Piece.Infix operator)) self.new) }
    {
        let place = operator.place;
        let last = mem::replace(&mut self.last, plain(alloc));
        let left = take_over(alloc, &mut self.parts, last, &operator)?;
        let may = stands(&self.parts, operator.low);
        self.is_sound = both(self.is_alive, may);
        self.is_alive = self.is_sound;
        self.parts.push(Open::Infix(left, operator))?;
        self.note(place);
        Ok(())
    }

    fn postfix(&mut self, alloc: Global, suffix: Suffix) -> Result<(), AllocError>
        ensures { (s : State) → Shows s self.old → OnOk result (Shows (moved s (Piece.Postfix suffix)) self.new) }
    {
        let Suffix {
            ending,
            low,
            high: _,
            place,
        } = suffix;
        let last = mem::replace(&mut self.last, plain(alloc));
        self.last = with_ending(alloc, ending, last, place)?;
        self.is_alive = self.is_sound && stands(&self.parts, low);
        self.note(place);
        Ok(())
    }

    fn step(&mut self, alloc: Global, piece: Piece) -> Result<(), AllocError>
        ensures { (s : State) → Shows s self.old → OnOk result (Shows (moved s piece) self.new) }
    {
        match piece {
            Piece::Operand(node) => {
                self.operand(node);
                Ok(())
            }
            Piece::Prefix(operator) => self.prefix(alloc, operator),
            Piece::Infix(operator) => self.infix(alloc, operator),
            Piece::Postfix(suffix) => self.postfix(alloc, suffix),
        }
    }
}

fn run(alloc: Global, mut pieces: VecDeque<Piece>) -> Result<Stack, AllocError>
    ensures { IfOk result (λ k. Shows (moved_all start pieces.items) k) }
{
    let mut stack = Stack {
        parts: Items::new(alloc),
        last: plain(alloc),
        is_sound: true,
        is_alive: true,
        wrong: None,
    };
    while let Some(piece) = pieces.pop_front() {
        stack.step(alloc, piece)?;
    }
    Ok(stack)
}

/// The one right tree of a chain. The chain may break off where an operand must come: the fault, if any, is then that of
/// what is there with a plain operand after it, and the node has a plain operand in that place.
///
/// There is no tree where a fault is answered that is not `Memory`: it is then Precedence at the first operator such that the
/// chain up to it, with a plain operand after it unless it is postfix, has none. The time is linear in the chain, and the
/// reading is a loop.
pub fn tree(alloc: Global, pieces: VecDeque<Piece>) -> Result<Node, Fault>
    requires chain { IsChain true pieces.items }
    requires listed { AreListed pieces.items }
    ensures ok { IfOk result (λ n. (t : Tree) × (tree_of pieces.items ≡ Some t) × (n ≡ node_of t)) }
    ensures wrong { IfErr result (λ e. e ≢ Fault.Memory → IsFaultOf pieces.items e) }
{
    let Stack {
        mut parts,
        last,
        is_sound: _,
        is_alive,
        wrong,
    } = run(alloc, pieces)?;
    match told(is_alive, wrong) {
        Some(place) => Err(Fault::At {
            place,
            kind: Kind::Precedence,
        }),
        None => Ok(close_all(alloc, &mut parts, last)?),
    }
}
