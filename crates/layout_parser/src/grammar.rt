//! The rules hold expressions of further nestings, and take the reader of those as a parameter: so each is proved by itself, and
//! one function alone recurses.

ghost use Rattle.std.specs.Prelude.{◌≡◌, ◌≢◌, Ok, Err, IfOk, true};
ghost use Rattle.tla_ast.specs.declared.fault.Fault.TheVariants as syn;
ghost use Rattle.operator_chain.specs.Chain.{IsChain};
ghost use Rattle.operator_chain.specs.Listed.{AreListed};
ghost use Rattle.tla_ast.specs.Answers.{Reads};
ghost use Rattle.token_reader.specs.Input.{Tokens};
ghost use Rattle.layout_parser.specs.Reading as spec;
ghost use Rattle.layout_parser.specs.Reading.{rule};
ghost use Rattle.layout_parser.specs.Nests.{Nests, Flats, Steps, ended, chain_of};

use crate::flat::{Flat, Step};
use core_expr::Memory;
use operator_chain::{Piece, tree};
use std::alloc::Global;
use std::collections::VecDeque;
use tla_ast::{Fault, Node};
use token_reader::{Cursor, Setting, Stop};

/// The rules, where so many nestings may begin.
#[derive(Clone, Copy)]
pub struct Grammar<F> {
    pub alloc: Global,
    pub left: usize,
    /// Reads a chain in a further nesting.
    pub read: F,
}

/// A fault that is not want of memory.
pub fn told(fault: Fault) -> Result<Fault, Memory>
    ensures { IfOk result (λ f. (f ≡ fault) × (fault ≢ syn.Memory)) }
{
    match fault {
        Fault::Memory => Err(Memory),
        other => Ok(other),
    }
}

/// The node of a chain, or the fault of its operators, or else that at which it breaks off.
#[tactic(auto, unfolding(crate::specs::Reading::finished))]
pub fn finished(alloc: Global, flat: Flat) -> Result<Node, Fault>
    requires chain { IsChain true flat.pieces.items }
    requires listed { AreListed flat.pieces.items }
    ensures { (rest : Tokens) → Reads (spec.finished (chain_of flat rest)) result rest }
{
    let Flat { pieces, fault } = flat;
    let node = tree(alloc, pieces)?;
    match fault {
        None => Ok(node),
        Some(fault) => Err(fault),
    }
}

impl<F: Fn(Global, &mut Cursor<'_>, usize, usize, Setting, bool) -> Result<Flat, Memory>> Grammar<
    F,
> {
    /// A chain in a further nesting, as the reader of those gives it.
    fn nested(
        &self,
        cursor: &mut Cursor<'_>,
        pieces: usize,
        setting: Setting,
        waits: bool,
    ) -> Result<Flat, Memory>
        requires { Nests self.now.left (F.pre self.now.read) (F.post self.now.read) }
        ensures { Flats (spec.nested self.now.left pieces setting waits cursor.old)
            result cursor.new }
    {
        (self.read)(self.alloc, cursor, self.left, pieces, setting, waits)
    }

    /// A chain in a further nesting.
    pub fn inner(
        &self,
        cursor: &mut Cursor<'_>,
        pieces: usize,
        setting: Setting,
        waits: bool,
    ) -> Result<Flat, Memory>
        requires { Nests self.now.left (F.pre self.now.read) (F.post self.now.read) }
        ensures flats { Flats (spec.nested self.now.left pieces setting waits cursor.old)
            result cursor.new }
        ensures chain { IfOk result (λ f. IsChain waits f.pieces.items) }
        ensures listed { IfOk result (λ f. AreListed f.pieces.items) }
    {
        self.nested(cursor, pieces, setting, waits)
    }

    /// An expression in a further nesting.
    pub fn part(&self, cursor: &mut Cursor<'_>, setting: Setting) -> Result<Node, Fault>
        requires { Nests self.now.left (F.pre self.now.read) (F.post self.now.read) }
        ensures { Reads (rule self.now.left spec.part setting cursor.old) result cursor.new }
    {
        let most = cursor.left();
        let flat = self.inner(cursor, most, setting, true)?;
        finished(self.alloc, flat)
    }

    /// The next step of a chain; the test says whether an operand must come.
    fn step(&self, cursor: &mut Cursor<'_>, setting: Setting, waits: bool) -> Result<Step, Memory>
        requires { Nests self.now.left (F.pre self.now.read) (F.post self.now.read) }
        ensures { Steps (rule self.now.left spec.step setting waits cursor.old) result cursor.new }
    {
        if waits {
            self.step_before(cursor, setting)
        } else {
            self.step_after(cursor, setting)
        }
    }

    /// A chain of so many pieces at most, as far as it can be read.
    pub fn chain(
        &self,
        cursor: &mut Cursor<'_>,
        most: usize,
        setting: Setting,
        mut waits: bool,
    ) -> Result<Flat, Memory>
        requires { Nests self.now.left (F.pre self.now.read) (F.post self.now.read) }
        ensures { Flats (rule self.now.left spec.chain_from most setting waits cursor.old)
            result cursor.new }
    {
        let mut pieces = VecDeque::new(self.alloc);
        for _turn in 0..most {
            match self.step(cursor, setting, waits)? {
                Step::More(piece, opens) => {
                    pieces.push_back(piece)?;
                    waits = opens;
                }
                Step::Ended => return Ok(Flat {
                    pieces,
                    fault: None,
                }),
                Step::Broken(piece, fault) => return broken(pieces, piece, fault),
            }
        }
        let fault = full(self.alloc, cursor, setting, waits)?;
        Ok(Flat { pieces, fault })
    }
}

/// The fault of a chain that has as many pieces as it may have, where an operand must come after them.
fn full(
    alloc: Global,
    cursor: &Cursor<'_>,
    setting: Setting,
    waits: bool,
) -> Result<Option<Fault>, Memory>
    ensures { IfOk result (λ f. ended f cursor.now ≡ spec.full setting waits cursor.now) }
{
    if !waits {
        return Ok(None);
    }
    let fault = told(cursor.refusal(alloc, setting, Stop::Operand))?;
    Ok(Some(fault))
}

/// The chain that breaks off at a fault, behind a postfix operator that is not finished or without one.
fn broken(mut pieces: VecDeque<Piece>, piece: Option<Piece>, fault: Fault) -> Result<Flat, Memory>
    ensures { (rest : Tokens)
        → Flats (spec.behind pieces.items (spec.left_over piece, Err fault)) result rest }
{
    if let Some(piece) = piece {
        pieces.push_back(piece)?;
    }
    Ok(Flat {
        pieces,
        fault: Some(fault),
    })
}

/// Reads a chain in a further nesting, where so many nestings may begin.
pub fn read_chain(
    alloc: Global,
    cursor: &mut Cursor<'_>,
    left: usize,
    pieces: usize,
    setting: Setting,
    waits: bool,
) -> Result<Flat, Memory>
    ensures { Flats (spec.nested left pieces setting waits cursor.old) result cursor.new }
{
    if left == 0 {
        return Ok(Flat {
            pieces: VecDeque::new(alloc),
            fault: Some(cursor.too_deep(setting)),
        });
    }
    Grammar {
        alloc,
        left: left - 1,
        read: read_chain,
    }
    .chain(cursor, pieces, setting, waits)
}
