//! IF, CASE, LET.

ghost use Rattle.std.specs.Prelude.{◌≡◌, OnOk};
ghost use Rattle.token_reader.specs.Input as input;
ghost use Rattle.tla_ast.specs.Answers.{Reads};
ghost use Rattle.layout_parser.specs.Reading as spec;
ghost use Rattle.layout_parser.specs.Reading.{rule};
ghost use Rattle.layout_parser.specs.Nests.{Nests};

use crate::build::{one_part, ternary, whole};
use crate::flat::Flat;
use crate::grammar::Grammar;
use core_expr::Memory;
use sqlite_items::{Boxed, Items};
use std::alloc::{AllocError, Global};
use tla_ast::{Decl, Def, Fault, Form, Node, Parts, Place};
use token_reader::{Around, Cursor, Mark, Setting, Stop, names};

/// One arm more: its guard and its value.
fn push_arm(parts: &mut Parts<Node>, guard: Node, value: Node) -> Result<(), AllocError>
    ensures { OnOk result (parts.new ≡ spec.with_arm parts.old (guard, value)) }
{
    parts.push(guard)?;
    parts.push(value)?;
    Ok(())
}

/// Reads the `[]` before a further arm, which is not that of OTHER; answers whether one comes.
#[tactic(auto, unfolding(crate::specs::Reading::further_arm))]
fn further_arm(cursor: &mut Cursor<'_>, setting: Setting) -> bool
    ensures { spec.further_arm setting cursor.old ≡ Ok (result, cursor.new) }
{
    !cursor.sees_second(setting, Mark::Other) && cursor.eat(setting, Mark::Always)
}

impl<F: Fn(Global, &mut Cursor<'_>, usize, usize, Setting, bool) -> Result<Flat, Memory>> Grammar<
    F,
> {
    /// IF.
    #[tactic(auto, unfolding(crate::specs::Reading::conditional))]
    pub fn conditional(&self, cursor: &mut Cursor<'_>, setting: Setting) -> Result<Node, Fault>
        requires { Nests self.now.left (F.pre self.now.read) (F.post self.now.read) }
        ensures { Reads (rule self.now.left spec.conditional setting cursor.old) result cursor.new }
    {
        let place = cursor.take();
        let test = self.part(cursor, setting)?;
        cursor.expect(self.alloc, setting, Stop::Expression, Mark::Then)?;
        let positive = self.part(cursor, setting)?;
        cursor.expect(self.alloc, setting, Stop::Expression, Mark::Else)?;
        let negative = self.part(cursor, setting)?;
        Ok(ternary(self.alloc, Form::If, test, positive, negative, place)?)
    }

    /// One arm of a CASE: its guard and its value.
    #[tactic(auto, unfolding(crate::specs::Reading::arm))]
    fn arm(&self, cursor: &mut Cursor<'_>, setting: Setting) -> Result<(Node, Node), Fault>
        requires { Nests self.now.left (F.pre self.now.read) (F.post self.now.read) }
        ensures { Reads (rule self.now.left spec.arm setting cursor.old) result cursor.new }
    {
        let guard = self.part(cursor, setting)?;
        cursor.expect(self.alloc, setting, Stop::Expression, Mark::Arrow)?;
        let value = self.part(cursor, setting)?;
        Ok((guard, value))
    }

    /// One or more arms with `[]` between, up to that of OTHER.
    #[tactic(auto, using(token_reader::proofs::Turns::turn), unfolding(token_reader::specs::Lists::gathered, token_reader::specs::Lists::gathered_from))]
    fn arms(&self, cursor: &mut Cursor<'_>, setting: Setting) -> Result<Parts<Node>, Fault>
        requires { Nests self.now.left (F.pre self.now.read) (F.post self.now.read) }
        ensures { Reads (rule self.now.left spec.arms setting cursor.old) result cursor.new }
    {
        let mut parts = Parts::new(self.alloc);
        for _turn in 0..cursor.left() {
            let (guard, value) = self.arm(cursor, setting)?;
            push_arm(&mut parts, guard, value)?;
            if !further_arm(cursor, setting) {
                return Ok(parts);
            }
        }
        Err(cursor.exhausted())
    }

    /// The value of OTHER, after the `[]`.
    #[tactic(auto, unfolding(crate::specs::Reading::other_arm))]
    fn other_arm(&self, cursor: &mut Cursor<'_>, setting: Setting) -> Result<Node, Fault>
        requires { Nests self.now.left (F.pre self.now.read) (F.post self.now.read) }
        ensures { Reads (rule self.now.left spec.other_arm setting cursor.old) result cursor.new }
    {
        cursor.expect(self.alloc, setting, Stop::Other, Mark::Other)?;
        cursor.expect(self.alloc, setting, Stop::Other, Mark::Arrow)?;
        self.part(cursor, setting)
    }

    /// What follows the arms: that of OTHER, or nothing.
    #[tactic(auto, unfolding(crate::specs::Reading::case_end))]
    fn case_end(
        &self,
        cursor: &mut Cursor<'_>,
        setting: Setting,
        place: Place,
        mut parts: Parts<Node>,
    ) -> Result<Node, Fault>
        requires { Nests self.now.left (F.pre self.now.read) (F.post self.now.read) }
        ensures { Reads (rule self.now.left spec.case_end setting place parts cursor.old)
            result cursor.new }
    {
        if !cursor.eat(setting, Mark::Always) {
            return Ok(whole(Form::Case { other: false }, parts, place));
        }
        parts.push(self.other_arm(cursor, setting)?)?;
        Ok(whole(Form::Case { other: true }, parts, place))
    }

    /// CASE.
    #[tactic(auto, unfolding(crate::specs::Reading::cases))]
    pub fn cases(&self, cursor: &mut Cursor<'_>, setting: Setting) -> Result<Node, Fault>
        requires { Nests self.now.left (F.pre self.now.read) (F.post self.now.read) }
        ensures { Reads (rule self.now.left spec.cases setting cursor.old) result cursor.new }
    {
        let place = cursor.take();
        let parts = self.arms(cursor, setting)?;
        self.case_end(cursor, setting, place, parts)
    }

    /// The parameters of a definition in parentheses.
    #[tactic(auto, unfolding(crate::specs::Reading::parameters))]
    fn parameters(&self, cursor: &mut Cursor<'_>, setting: Setting) -> Result<Items<Decl>, Fault>
        requires { Nests self.now.left (F.pre self.now.read) (F.post self.now.read) }
        ensures { Reads (rule self.now.left spec.parameters setting cursor.old) result cursor.new }
    {
        let inside = setting.within(Around::Other);
        cursor.opening(self.left)?;
        let found = names(self.alloc, cursor, inside, Stop::Other)?;
        cursor.expect(self.alloc, inside, Stop::Parameter, Mark::CloseParen)?;
        Ok(found)
    }

    /// What a definition has before its right side: the parameters, if any, and the `==`.
    #[tactic(auto, unfolding(crate::specs::Reading::head))]
    pub fn head(&self, cursor: &mut Cursor<'_>, setting: Setting) -> Result<Items<Decl>, Fault>
        requires { Nests self.now.left (F.pre self.now.read) (F.post self.now.read) }
        ensures { Reads (rule self.now.left spec.head setting cursor.old) result cursor.new }
    {
        if !cursor.sees(setting, Mark::OpenParen) {
            cursor.expect(self.alloc, setting, Stop::Defined, Mark::Defines)?;
            return Ok(Items::new(self.alloc));
        }
        let found = self.parameters(cursor, setting)?;
        cursor.expect(self.alloc, setting, Stop::Other, Mark::Defines)?;
        Ok(found)
    }

    /// A definition.
    #[tactic(auto, unfolding(crate::specs::Reading::definition))]
    fn definition(&self, cursor: &mut Cursor<'_>, setting: Setting) -> Result<Def, Fault>
        requires { Nests self.now.left (F.pre self.now.read) (F.post self.now.read) }
        ensures { Reads (rule self.now.left spec.definition setting cursor.old) result cursor.new }
    {
        let Decl {
            name,
            arity: _,
            place,
        } = cursor.declared(self.alloc, setting, Stop::Other)?;
        let params = self.head(cursor, setting)?;
        let body = self.part(cursor, setting)?;
        let body = Boxed::new(self.alloc, body)?;
        Ok(Def {
            name,
            params,
            body,
            place,
        })
    }

    /// One or more definitions.
    #[tactic(auto, using(token_reader::proofs::Turns::turn), unfolding(token_reader::specs::Lists::gathered, token_reader::specs::Lists::gathered_from))]
    fn definitions(&self, cursor: &mut Cursor<'_>, setting: Setting) -> Result<Items<Def>, Fault>
        requires { Nests self.now.left (F.pre self.now.read) (F.post self.now.read) }
        ensures { Reads (rule self.now.left spec.definitions setting cursor.old) result cursor.new }
    {
        let mut found = Items::new(self.alloc);
        for _turn in 0..cursor.left() {
            found.push(self.definition(cursor, setting)?)?;
            if !cursor.sees(setting, Mark::Name) {
                return Ok(found);
            }
        }
        Err(cursor.exhausted())
    }

    /// LET.
    #[tactic(auto, unfolding(crate::specs::Reading::local))]
    pub fn local(&self, cursor: &mut Cursor<'_>, setting: Setting) -> Result<Node, Fault>
        requires { Nests self.now.left (F.pre self.now.read) (F.post self.now.read) }
        ensures { Reads (rule self.now.left spec.local setting cursor.old) result cursor.new }
    {
        let place = cursor.take();
        let definitions = self.definitions(cursor, setting)?;
        cursor.expect(self.alloc, setting, Stop::Expression, Mark::In)?;
        let body = self.part(cursor, setting)?;
        let parts = one_part(self.alloc, body)?;
        Ok(whole(Form::Let(definitions), parts, place))
    }
}
