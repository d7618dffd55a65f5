//! Names with arguments, parentheses, angle brackets, subscripts.

ghost use Rattle.token_reader.specs.Input as input;
ghost use Rattle.tla_ast.specs.Answers.{Reads};
ghost use Rattle.layout_parser.specs.Reading as spec;
ghost use Rattle.layout_parser.specs.Reading.{rule};
ghost use Rattle.layout_parser.specs.Nests.{Nests};

use crate::build::{binary, both, leaf, whole};
use crate::flat::Flat;
use crate::grammar::Grammar;
use core_expr::{Memory, Text};
use std::alloc::Global;
use tla_ast::{Fault, Form, Node, Parts, Place};
use token_reader::{Around, Cursor, Mark, Setting, Stop};

impl<F: Fn(Global, &mut Cursor<'_>, usize, usize, Setting, bool) -> Result<Flat, Memory>> Grammar<
    F,
> {
    /// One or more expressions, with commas between, after those found.
    #[tactic(auto, using(token_reader::proofs::Turns::turn), unfolding(token_reader::specs::Lists::gathered, token_reader::specs::Lists::gathered_from))]
    pub fn expressions(
        &self,
        cursor: &mut Cursor<'_>,
        setting: Setting,
        mut found: Parts<Node>,
    ) -> Result<Parts<Node>, Fault>
        requires { Nests self.now.left (F.pre self.now.read) (F.post self.now.read) }
        ensures { Reads (rule self.now.left spec.expressions setting found cursor.old)
            result cursor.new }
    {
        for _turn in 0..cursor.left() {
            found.push(self.part(cursor, setting)?)?;
            if !cursor.eat(setting, Mark::Comma) {
                return Ok(found);
            }
        }
        Err(cursor.exhausted())
    }

    /// The arguments of a name.
    #[tactic(auto, unfolding(crate::specs::Reading::arguments))]
    fn arguments(&self, cursor: &mut Cursor<'_>, setting: Setting) -> Result<Parts<Node>, Fault>
        requires { Nests self.now.left (F.pre self.now.read) (F.post self.now.read) }
        ensures { Reads (rule self.now.left spec.arguments setting cursor.old) result cursor.new }
    {
        let inside = setting.within(Around::Other);
        cursor.opening(self.left)?;
        let found = self.expressions(cursor, inside, Parts::new(self.alloc))?;
        cursor.expect(self.alloc, inside, Stop::Expression, Mark::CloseParen)?;
        Ok(found)
    }

    /// A name, with the arguments that follow it at once.
    #[tactic(auto, unfolding(crate::specs::Reading::named))]
    pub fn named(&self, cursor: &mut Cursor<'_>, setting: Setting) -> Result<Node, Fault>
        requires { Nests self.now.left (F.pre self.now.read) (F.post self.now.read) }
        ensures { Reads (rule self.now.left spec.named setting cursor.old) result cursor.new }
    {
        let name = Text::of(self.alloc, cursor.spelling())?;
        let place = cursor.take();
        if !cursor.sees(setting, Mark::OpenParen) {
            return Ok(leaf(self.alloc, Form::Name(name), place));
        }
        let parts = self.arguments(cursor, setting)?;
        Ok(whole(Form::Call(name), parts, place))
    }

    /// An expression in parentheses.
    #[tactic(auto, unfolding(crate::specs::Reading::parenthesized))]
    pub fn parenthesized(&self, cursor: &mut Cursor<'_>, setting: Setting) -> Result<Node, Fault>
        requires { Nests self.now.left (F.pre self.now.read) (F.post self.now.read) }
        ensures { Reads (rule self.now.left spec.parenthesized setting cursor.old)
            result cursor.new }
    {
        let inside = setting.within(Around::Other);
        cursor.opening(self.left)?;
        let inner = self.part(cursor, inside)?;
        cursor.expect(self.alloc, inside, Stop::Expression, Mark::CloseParen)?;
        Ok(inner)
    }

    /// A tuple in the place of a subscript.
    #[tactic(auto, unfolding(crate::specs::Reading::tuple))]
    fn tuple(&self, cursor: &mut Cursor<'_>, setting: Setting) -> Result<Node, Fault>
        requires { Nests self.now.left (F.pre self.now.read) (F.post self.now.read) }
        ensures { Reads (rule self.now.left spec.tuple setting cursor.old) result cursor.new }
    {
        let inside = setting.within(Around::Other);
        let place = cursor.opening(self.left)?;
        if cursor.eat(inside, Mark::CloseAngle) {
            return Ok(leaf(self.alloc, Form::Tuple, place));
        }
        let parts = self.expressions(cursor, inside, Parts::new(self.alloc))?;
        cursor.expect(self.alloc, inside, Stop::Expression, Mark::CloseAngle)?;
        Ok(whole(Form::Tuple, parts, place))
    }

    /// A subscript: an identifier, a tuple or an expression in parentheses.
    #[tactic(auto, unfolding(crate::specs::Reading::subscript))]
    pub fn subscript(&self, cursor: &mut Cursor<'_>, setting: Setting) -> Result<Node, Fault>
        requires { Nests self.now.left (F.pre self.now.read) (F.post self.now.read) }
        ensures { Reads (rule self.now.left spec.subscript setting cursor.old) result cursor.new }
    {
        if cursor.sees(setting, Mark::Name) {
            let name = Text::of(self.alloc, cursor.spelling())?;
            let place = cursor.take();
            return Ok(leaf(self.alloc, Form::Name(name), place));
        }
        if cursor.sees(setting, Mark::OpenAngle) {
            return self.tuple(cursor, setting);
        }
        if cursor.sees(setting, Mark::OpenParen) {
            return self.parenthesized(cursor, setting);
        }
        Err(cursor.refusal(self.alloc, setting, Stop::Other))
    }

    /// `>>` after the items of a tuple, or `>>_` after an action.
    #[tactic(auto, unfolding(crate::specs::Reading::angle_end))]
    fn angle_end(
        &self,
        cursor: &mut Cursor<'_>,
        setting: Setting,
        place: Place,
        mut parts: Parts<Node>,
    ) -> Result<Node, Fault>
        requires { Nests self.now.left (F.pre self.now.read) (F.post self.now.read) }
        ensures { Reads (rule self.now.left spec.angle_end setting place parts cursor.old)
            result cursor.new }
    {
        let inside = setting.within(Around::Other);
        if cursor.eat(setting, Mark::CloseAngle) {
            return Ok(whole(Form::Tuple, parts, place));
        }
        if !both(cursor.sees(setting, Mark::CloseAction), parts.len() == 1) {
            return Err(cursor.refusal(self.alloc, inside, Stop::Expression));
        }
        cursor.advance();
        parts.push(self.subscript(cursor, setting)?)?;
        Ok(whole(Form::AngleAct, parts, place))
    }

    /// A tuple or `<<A>>_v`.
    #[tactic(auto, unfolding(crate::specs::Reading::angle))]
    pub fn angle(&self, cursor: &mut Cursor<'_>, setting: Setting) -> Result<Node, Fault>
        requires { Nests self.now.left (F.pre self.now.read) (F.post self.now.read) }
        ensures { Reads (rule self.now.left spec.angle setting cursor.old) result cursor.new }
    {
        let inside = setting.within(Around::Other);
        let place = cursor.opening(self.left)?;
        if cursor.eat(inside, Mark::CloseAngle) {
            return Ok(leaf(self.alloc, Form::Tuple, place));
        }
        let parts = self.expressions(cursor, inside, Parts::new(self.alloc))?;
        self.angle_end(cursor, setting, place, parts)
    }

    /// `WF_v(A)` and `SF_v(A)`.
    #[tactic(auto, unfolding(crate::specs::Reading::fair))]
    pub fn fair(
        &self,
        cursor: &mut Cursor<'_>,
        strong: bool,
        setting: Setting,
    ) -> Result<Node, Fault>
        requires { Nests self.now.left (F.pre self.now.read) (F.post self.now.read) }
        ensures { Reads (rule self.now.left spec.fair strong setting cursor.old) result cursor.new }
    {
        let place = cursor.take();
        let subscript = self.subscript(cursor, setting)?;
        if !cursor.sees(setting, Mark::OpenParen) {
            return Err(cursor.refusal(self.alloc, setting, Stop::Expression));
        }
        let action = self.parenthesized(cursor, setting)?;
        Ok(binary(self.alloc, Form::Fair { strong }, subscript, action, place)?)
    }
}
