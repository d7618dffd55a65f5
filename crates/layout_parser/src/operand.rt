//! Operands and junction lists.

ghost use Rattle.std.specs.Prelude.{◌≡◌, true, false};
ghost use Rattle.token_reader.specs.Input as input;
ghost use Rattle.tla_ast.specs.Answers.{Reads};
ghost use Rattle.layout_parser.specs.Reading as spec;
ghost use Rattle.layout_parser.specs.Reading.{rule};
ghost use Rattle.layout_parser.specs.Nests.{Nests};

use crate::build::{both, leaf, whole};
use crate::flat::Flat;
use crate::grammar::Grammar;
use core_expr::{Memory, Text};
use std::alloc::Global;
use tla_ast::{Fault, Form, Node, Parts};
use token_reader::{Cursor, Mark, Setting, Stop, same_mark};

/// A word that is an operand by itself.
#[tactic(auto, unfolding(crate::specs::Reading::value))]
fn value(alloc: Global, cursor: &mut Cursor<'_>) -> Result<Node, Fault>
    ensures { Reads (spec.value cursor.old) result cursor.new }
{
    let name = Text::of(alloc, cursor.spelling())?;
    let place = cursor.take();
    Ok(leaf(alloc, Form::Name(name), place))
}

/// A number or a string.
#[tactic(auto, unfolding(crate::specs::Reading::literal))]
fn literal(alloc: Global, cursor: &mut Cursor<'_>) -> Result<Node, Fault>
    ensures { Reads (spec.literal cursor.old) result cursor.new }
{
    let form = cursor.literal(alloc)?;
    let place = cursor.take();
    Ok(leaf(alloc, form, place))
}

/// Whether the same sign comes next in the column of the bullets.
fn sees_bullet(cursor: &Cursor<'_>, setting: Setting, mark: Mark) -> bool
    ensures { result ≡ spec.sees_bullet setting mark cursor.now }
{
    both(
        cursor.place().column == setting.region,
        same_mark(cursor.mark(), mark),
    )
}

impl<F: Fn(Global, &mut Cursor<'_>, usize, usize, Setting, bool) -> Result<Flat, Memory>> Grammar<
    F,
> {
    /// A bullet and its item.
    #[tactic(auto, unfolding(crate::specs::Reading::bulleted))]
    fn bulleted(&self, cursor: &mut Cursor<'_>, setting: Setting) -> Result<Node, Fault>
        requires { Nests self.now.left (F.pre self.now.read) (F.post self.now.read) }
        ensures { Reads (rule self.now.left spec.bulleted setting cursor.old) result cursor.new }
    {
        cursor.advance();
        self.part(cursor, setting)
    }

    /// The items of a junction list from a bullet on.
    #[tactic(auto, using(token_reader::proofs::Turns::turn), unfolding(token_reader::specs::Lists::gathered, token_reader::specs::Lists::gathered_from))]
    fn items(
        &self,
        cursor: &mut Cursor<'_>,
        setting: Setting,
        mark: Mark,
    ) -> Result<Parts<Node>, Fault>
        requires { Nests self.now.left (F.pre self.now.read) (F.post self.now.read) }
        ensures { Reads (rule self.now.left spec.items setting mark cursor.old) result cursor.new }
    {
        let mut found = Parts::new(self.alloc);
        for _turn in 0..cursor.left() {
            found.push(self.bulleted(cursor, setting)?)?;
            if !sees_bullet(cursor, setting, mark) {
                return Ok(found);
            }
        }
        Err(cursor.exhausted())
    }

    /// A junction list.
    #[tactic(auto, unfolding(crate::specs::Reading::junction))]
    fn junction(
        &self,
        cursor: &mut Cursor<'_>,
        all: bool,
        mark: Mark,
        setting: Setting,
    ) -> Result<Node, Fault>
        requires { Nests self.now.left (F.pre self.now.read) (F.post self.now.read) }
        ensures { Reads (rule self.now.left spec.junction all mark setting cursor.old)
            result cursor.new }
    {
        let place = cursor.place();
        let parts = self.items(cursor, setting.right_of(place.column), mark)?;
        Ok(whole(Form::Junction(all), parts, place))
    }

    /// `@`, which is an operand in a new value of an EXCEPT alone.
    #[tactic(auto, unfolding(crate::specs::Reading::at))]
    fn at(&self, cursor: &mut Cursor<'_>, setting: Setting) -> Result<Node, Fault>
        requires { Nests self.now.left (F.pre self.now.read) (F.post self.now.read) }
        ensures { Reads (rule self.now.left spec.at setting cursor.old) result cursor.new }
    {
        if !setting.has_at {
            return Err(cursor.refusal(self.alloc, setting, Stop::Operand));
        }
        let place = cursor.take();
        Ok(leaf(self.alloc, Form::At, place))
    }

    /// An operand by the mark of its first token.
    fn operand_by(&self, cursor: &mut Cursor<'_>, setting: Setting) -> Result<Node, Fault>
        requires { Nests self.now.left (F.pre self.now.read) (F.post self.now.read) }
        ensures { Reads (rule self.now.left spec.operand_by setting (input.mark cursor.old) cursor.old)
            result cursor.new }
    {
        match cursor.mark() {
            Mark::Name => self.named(cursor, setting),
            Mark::Value => value(self.alloc, cursor),
            Mark::Number => literal(self.alloc, cursor),
            Mark::Str => literal(self.alloc, cursor),
            Mark::OpenParen => self.parenthesized(cursor, setting),
            Mark::OpenBrace => self.brace(cursor, setting),
            Mark::OpenSquare => self.square(cursor, setting),
            Mark::OpenAngle => self.angle(cursor, setting),
            Mark::And => self.junction(cursor, true, Mark::And, setting),
            Mark::Or => self.junction(cursor, false, Mark::Or, setting),
            Mark::Forall => self.quantifier(cursor, true, setting),
            Mark::Exists => self.quantifier(cursor, false, setting),
            Mark::Choose => self.choose(cursor, setting),
            Mark::If => self.conditional(cursor, setting),
            Mark::Case => self.cases(cursor, setting),
            Mark::Let => self.local(cursor, setting),
            Mark::Weak => self.fair(cursor, false, setting),
            Mark::Strong => self.fair(cursor, true, setting),
            Mark::At => self.at(cursor, setting),
            _ => Err(cursor.refusal(self.alloc, setting, Stop::Operand)),
        }
    }

    /// An operand.
    #[tactic(auto, unfolding(crate::specs::Reading::operand))]
    pub fn operand(&self, cursor: &mut Cursor<'_>, setting: Setting) -> Result<Node, Fault>
        requires { Nests self.now.left (F.pre self.now.read) (F.post self.now.read) }
        ensures { Reads (rule self.now.left spec.operand setting cursor.old) result cursor.new }
    {
        if cursor.is_inside(setting) {
            self.operand_by(cursor, setting)
        } else {
            Err(cursor.refusal(self.alloc, setting, Stop::Operand))
        }
    }
}
