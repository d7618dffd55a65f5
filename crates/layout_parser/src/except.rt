//! EXCEPT.

ghost use Rattle.std.specs.Prelude.{◌≡◌, Ok, IfOk, OnOk};
ghost use Rattle.token_reader.specs.Input as input;
ghost use Rattle.tla_ast.specs.Answers.{Reads};
ghost use Rattle.layout_parser.specs.Reading as spec;
ghost use Rattle.layout_parser.specs.Reading.{rule};
ghost use Rattle.layout_parser.specs.Nests.{Nests};

use crate::build::{either, one_part, whole};
use crate::flat::Flat;
use crate::grammar::Grammar;
use core_expr::Memory;
use operator_chain::{Ending, Piece};
use sqlite_items::Items;
use std::alloc::{AllocError, Global};
use std::collections::VecDeque;
use tla_ast::{Fault, Form, Key, Node, Parts, Path, Place};
use token_reader::{Cursor, Mark, Setting, Stop};

/// The paths of updates, and the function with the new values.
#[derive(Drop)]
pub struct Updates {
    pub paths: Items<Path>,
    pub parts: Parts<Node>,
}

impl Updates {
    /// The function, before any update.
    fn new(alloc: Global, function: Node) -> Result<Updates, AllocError>
        ensures { IfOk result (λ u. u ≡ spec.no_updates function) }
    {
        let parts = one_part(alloc, function)?;
        Ok(Updates {
            paths: Items::new(alloc),
            parts,
        })
    }

    /// One update more.
    fn push(&mut self, path: Path, value: Node) -> Result<(), AllocError>
        ensures { OnOk result (self.new ≡ spec.with_update self.old (path, value)) }
    {
        self.paths.push(path)?;
        self.parts.push(value)?;
        Ok(())
    }
}

/// Whether a key of a path comes next.
fn begins_key(cursor: &Cursor<'_>, setting: Setting) -> bool
    ensures { result ≡ spec.begins_key setting cursor.now }
{
    either(
        cursor.sees(setting, Mark::OpenSquare),
        cursor.sees(setting, Mark::Dot),
    )
}

/// The key that a postfix operator looks like.
fn key_of(
    alloc: Global,
    cursor: &Cursor<'_>,
    setting: Setting,
    ending: Ending,
) -> Result<Key, Fault>
    ensures { Reads (spec.by_ending setting ending cursor.now) result cursor.now }
{
    match ending {
        Ending::Index(argument) => Ok(Key::At(argument)),
        Ending::Field(name) => Ok(Key::Field(name)),
        Ending::Prime => Err(cursor.refusal(alloc, setting, Stop::Other)),
    }
}

/// The key that a chain of one postfix operator looks like.
fn key_in(
    alloc: Global,
    cursor: &Cursor<'_>,
    setting: Setting,
    mut pieces: VecDeque<Piece>,
) -> Result<Key, Fault>
    ensures { Reads (spec.by_key setting (pieces.items, Ok cursor.now)) result cursor.now }
{
    match (pieces.pop_front(), pieces.is_empty()) {
        (Some(Piece::Postfix(suffix)), true) => key_of(alloc, cursor, setting, suffix.ending),
        _ => Err(cursor.refusal(alloc, setting, Stop::Other)),
    }
}

impl<F: Fn(Global, &mut Cursor<'_>, usize, usize, Setting, bool) -> Result<Flat, Memory>> Grammar<
    F,
> {
    /// One key of a path.
    #[tactic(auto, unfolding(crate::specs::Reading::key_of))]
    fn key(&self, cursor: &mut Cursor<'_>, setting: Setting) -> Result<Key, Fault>
        requires { Nests self.now.left (F.pre self.now.read) (F.post self.now.read) }
        ensures { Reads (rule self.now.left spec.key_of setting cursor.old) result cursor.new }
    {
        if !begins_key(cursor, setting) {
            return Err(cursor.refusal(self.alloc, setting, Stop::Other));
        }
        let Flat { pieces, fault } = self.inner(cursor, 1, setting, false)?;
        match fault {
            Some(fault) => Err(fault),
            None => key_in(self.alloc, cursor, setting, pieces),
        }
    }

    /// One or more keys.
    #[tactic(auto, using(token_reader::proofs::Turns::turn), unfolding(token_reader::specs::Lists::gathered, token_reader::specs::Lists::gathered_from))]
    fn keys(&self, cursor: &mut Cursor<'_>, setting: Setting) -> Result<Items<Key>, Fault>
        requires { Nests self.now.left (F.pre self.now.read) (F.post self.now.read) }
        ensures { Reads (rule self.now.left spec.keys setting cursor.old) result cursor.new }
    {
        let mut found = Items::new(self.alloc);
        for _turn in 0..cursor.left() {
            found.push(self.key(cursor, setting)?)?;
            if !begins_key(cursor, setting) {
                return Ok(found);
            }
        }
        Err(cursor.exhausted())
    }

    /// One update: its path and the new value, in which `@` has a meaning.
    #[tactic(auto, unfolding(crate::specs::Reading::update))]
    fn update(&self, cursor: &mut Cursor<'_>, setting: Setting) -> Result<(Path, Node), Fault>
        requires { Nests self.now.left (F.pre self.now.read) (F.post self.now.read) }
        ensures { Reads (rule self.now.left spec.update setting cursor.old) result cursor.new }
    {
        cursor.expect(self.alloc, setting, Stop::Other, Mark::Bang)?;
        let keys = self.keys(cursor, setting)?;
        cursor.expect(self.alloc, setting, Stop::Other, Mark::Equal)?;
        let value = self.part(cursor, setting.with_at())?;
        Ok((Path { keys }, value))
    }

    /// One or more updates, with commas between.
    #[tactic(auto, using(token_reader::proofs::Turns::turn), unfolding(token_reader::specs::Lists::gathered, token_reader::specs::Lists::gathered_from))]
    fn updates(
        &self,
        cursor: &mut Cursor<'_>,
        setting: Setting,
        function: Node,
    ) -> Result<Updates, Fault>
        requires { Nests self.now.left (F.pre self.now.read) (F.post self.now.read) }
        ensures { Reads (rule self.now.left spec.updates setting function cursor.old)
            result cursor.new }
    {
        let mut updates = Updates::new(self.alloc, function)?;
        for _turn in 0..cursor.left() {
            let (path, value) = self.update(cursor, setting)?;
            updates.push(path, value)?;
            if !cursor.eat(setting, Mark::Comma) {
                return Ok(updates);
            }
        }
        Err(cursor.exhausted())
    }

    /// `[f EXCEPT !path = e, ..]`, after the EXCEPT.
    #[tactic(auto, unfolding(crate::specs::Reading::except))]
    pub fn except(
        &self,
        cursor: &mut Cursor<'_>,
        setting: Setting,
        place: Place,
        function: Node,
    ) -> Result<Node, Fault>
        requires { Nests self.now.left (F.pre self.now.read) (F.post self.now.read) }
        ensures { Reads (rule self.now.left spec.except setting place function cursor.old)
            result cursor.new }
    {
        let Updates { paths, parts } = self.updates(cursor, setting, function)?;
        cursor.expect(self.alloc, setting, Stop::Expression, Mark::CloseSquare)?;
        Ok(whole(Form::Except(paths), parts, place))
    }
}
