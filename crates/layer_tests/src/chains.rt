//! Chains of operators and their trees, as a table.

ghost use Rattle.std.specs.Prelude.{◌≡◌, true, false, [], ◌∷◌, ◌++◌, IfOk, OnOk};
ghost use Rattle.operator_chain.specs.Chain.{IsChain, is_waiting};
ghost use Rattle.operator_chain.specs.Listed.{AreListed, IsListed};

use core_expr::{Memory, Text};
use operator_chain::{Ending, Operator, Piece, Suffix, tree};
use std::alloc::{AllocError, Global};
use std::collections::VecDeque;
use std_names::Fix;
use tla_ast::{Fault, Form, Kind, Node, Parts, Place};

fn named(alloc: Global, word: &[u8], place: Place) -> Result<Node, Memory> {
    Ok(Node {
        form: Form::Name(Text::of(alloc, word)?),
        parts: Parts::new(alloc),
        place,
    })
}

/// A word where an operand must come: a prefix operator, or else a name.
fn before_operand(alloc: Global, word: &[u8], place: Place) -> Result<Piece, Memory>
    ensures { IfOk result (λ p. IsChain true (p ∷ []) × IsListed p) }
{
    match Operator::find(alloc, word, Fix::Prefix, place)? {
        Some(operator) => Ok(Piece::Prefix(operator)),
        None => Ok(Piece::Operand(named(alloc, word, place)?)),
    }
}

/// A word after an operand: `[` stands for `[e]` and `.h` for itself; any other is an infix operator or `'`.
fn after_operand(alloc: Global, word: &[u8], place: Place) -> Result<Piece, Memory>
    ensures { IfOk result (λ p. IsChain false (p ∷ []) × IsListed p) }
{
    if word == b"[".as_slice() {
        let argument = named(alloc, b"e", place)?;
        return Ok(Piece::Postfix(Suffix::new(Ending::Index(argument), place)));
    }
    if word == b".h".as_slice() {
        let field = Text::of(alloc, b"h")?;
        return Ok(Piece::Postfix(Suffix::new(Ending::Field(field), place)));
    }
    match Operator::find(alloc, word, Fix::Infix, place)? {
        Some(operator) => Ok(Piece::Infix(operator)),
        None => Ok(Piece::Postfix(Suffix::new(Ending::Prime, place))),
    }
}

fn piece_of(alloc: Global, word: &[u8], waits: bool, place: Place) -> Result<Piece, Memory>
    ensures { IfOk result (λ p. IsChain waits (p ∷ []) × IsListed p) }
{
    if waits {
        before_operand(alloc, word, place)
    } else {
        after_operand(alloc, word, place)
    }
}

fn waits_after(piece: &Piece) -> bool
    ensures { result ≡ is_waiting piece.now }
{
    match piece {
        Piece::Operand(_) => false,
        Piece::Prefix(_) => true,
        Piece::Infix(_) => true,
        Piece::Postfix(_) => false,
    }
}

fn pushed(chain: &mut VecDeque<Piece>, piece: Piece) -> Result<(), AllocError>
    ensures { OnOk result (chain.new.items ≡ chain.old.items ++ piece ∷ []) }
{
    chain.push_back(piece)?;
    Ok(())
}

/// The chain of these words, each at the column of its number, from 1.
pub(crate) fn chain_of(alloc: Global, words: &[&[u8]]) -> Result<VecDeque<Piece>, Memory>
    ensures chain { IfOk result (λ v. IsChain true v.items) }
    ensures listed { IfOk result (λ v. AreListed v.items) }
{
    let mut chain = VecDeque::new(alloc);
    let mut waits = true;
    let mut place = Place { line: 1, column: 1 };
    for word in words {
        let piece = piece_of(alloc, word, waits, place)?;
        waits = waits_after(&piece);
        pushed(&mut chain, piece)?;
        place.column = place.column.saturating_add(1);
    }
    Ok(chain)
}

pub(crate) fn word_of(form: &Form) -> &[u8] {
    match form {
        Form::Name(name) => name.bytes(),
        Form::Prefix(sign) => sign.bytes(),
        Form::Infix(sign) => sign.bytes(),
        Form::Prime => b"'",
        Form::Index => b"[",
        Form::Field(_) => b".h",
        _ => b"?",
    }
}

/// Writes the word of a node, and its parts in parentheses.
fn write(node: &Node, out: &mut Vec<u8>) -> Result<(), AllocError> {
    out.extend_from_slice(word_of(&node.form))?;
    if node.parts.is_empty() {
        return Ok(());
    }
    out.push(b'(')?;
    for part in node.parts.as_slice() {
        write(part, out)?;
        out.push(b' ')?;
    }
    out.push(b')')?;
    Ok(())
}

/// What a case wants.
#[derive(Clone, Copy, Debug)]
enum Want {
    /// The tree, as it is written.
    Tree(&'static [u8]),
    /// The number of the refused operator, from 1.
    Refused(u64),
}

fn is_written(alloc: Global, node: &Node, text: &[u8]) -> bool {
    let mut out = Vec::new(alloc);
    match write(node, &mut out) {
        Ok(()) => out.as_slice() == text,
        Err(_) => false,
    }
}

/// The column of the operator that is refused.
pub(crate) fn refused(fault: &Fault) -> Option<u64> {
    match fault {
        Fault::At {
            place,
            kind: Kind::Precedence,
        } => Some(place.column),
        _ => None,
    }
}

fn is_read(alloc: Global, words: &[&[u8]], want: &Want) -> bool {
    let Ok(chain) = chain_of(alloc, words) else {
        return false;
    };
    match tree(alloc, chain) {
        Ok(node) => matches!(want, Want::Tree(text) if is_written(alloc, &node, text)),
        Err(fault) => matches!(want, Want::Refused(column) if refused(&fault) == Some(*column)),
    }
}

const CASES: [(&[&[u8]], Want); 17] = [
    (
        &[b"a", b"\\cup", b"b", b"\\cup", b"c", b"=", b"d"],
        Want::Tree(b"=(\\cup(\\cup(a b ) c ) d )"),
    ),
    (
        &[b"a", b"\\cup", b"b", b"\\cap", b"c", b"=", b"d"],
        Want::Refused(4),
    ),
    (&[b"a", b"=", b"b", b"=", b"c"], Want::Refused(4)),
    (
        &[b"a", b"-", b"b", b"-", b"c"],
        Want::Tree(b"-(-(a b ) c )"),
    ),
    (
        &[b"a", b"+", b"b", b"*", b"c"],
        Want::Tree(b"+(a *(b c ) )"),
    ),
    (&[b"~", b"x", b"'"], Want::Tree(b"~('(x ) )")),
    (&[b"-", b"x", b"'"], Want::Tree(b"-('(x ) )")),
    (&[b"[]", b"x", b"'"], Want::Refused(3)),
    (&[b"[]", b"x", b"'", b".h"], Want::Tree(b"[](.h('(x ) ) )")),
    (&[b"[]", b"x", b"'", b"["], Want::Tree(b"[]([('(x ) e ) )")),
    (&[b"[]", b"x", b"'", b".h", b"=", b"1"], Want::Refused(3)),
    (&[b"SUBSET", b"S", b"\\cup", b"T"], Want::Refused(3)),
    (&[b"A", b"=>", b"B", b"=>", b"C"], Want::Refused(4)),
    (&[b"A", b"=>", b"B", b"=>"], Want::Refused(4)),
    (&[b"A", b"/\\", b"B", b"\\/", b"C"], Want::Refused(4)),
    (&[b"a", b".h", b"'", b"["], Want::Tree(b"[('(.h(a ) ) e )")),
    (
        &[b"~", b"a", b"=", b"b", b"/\\", b"c"],
        Want::Tree(b"/\\(~(=(a b ) ) c )"),
    ),
];

#[test]
fn chains_and_their_trees(rt: HostRuntime) {
    for (words, want) in CASES.iter() {
        assert!(rt; is_read(rt.alloc(), words, want), "{words:?}");
    }
}
