//! Braces.

ghost use Rattle.std.specs.Prelude.{◌≡◌, true};
ghost use Rattle.token_reader.specs.Input as input;
ghost use Rattle.operator_chain.specs.Chain.{IsChain};
ghost use Rattle.operator_chain.specs.Listed.{AreListed};
ghost use Rattle.tla_ast.specs.Answers.{Reads};
ghost use Rattle.token_reader.specs.Input.{and_then};
ghost use Rattle.layout_parser.specs.Reading as spec;
ghost use Rattle.layout_parser.specs.Reading.{rule};
ghost use Rattle.layout_parser.specs.Nests.{Nests, chain_of};

use crate::build::{binary, leaf, one_part, unary, whole};
use crate::flat::Flat;
use crate::grammar::{Grammar, finished};
use crate::member::{Bound, element, ends_at, put_before};
use core_expr::{Memory, Text};
use operator_chain::Piece;
use std::alloc::Global;
use tla_ast::{Fault, Form, Node, Place};
use token_reader::{Around, Cursor, Mark, Setting, Stop};

/// Whether a tuple and `\in` stand right after the `{`.
fn is_tuple(around: Around) -> bool
    ensures { result ≡ input.is_tuple around }
{
    around == Around::Tuple
}

/// Whether the form is that of a tuple.
fn is_tuple_form(form: &Form) -> bool
    ensures { result ≡ spec.is_tuple_form form.now }
{
    match form {
        Form::Tuple => true,
        _ => false,
    }
}

/// The setting after the first operand of a brace.
fn after_first(cursor: &Cursor<'_>, setting: Setting, operand: &Node) -> Setting
    ensures { result ≡ spec.after_first setting operand.now cursor.now }
{
    if is_tuple_form(&operand.form) && cursor.sees(setting, Mark::Belongs) {
        setting.within(Around::Tuple)
    } else {
        setting
    }
}

impl<F: Fn(Global, &mut Cursor<'_>, usize, usize, Setting, bool) -> Result<Flat, Memory>> Grammar<
    F,
> {
    /// `{e : x \in S}`, after the `:`.
    #[tactic(auto, unfolding(crate::specs::Reading::image))]
    fn image(&self, cursor: &mut Cursor<'_>, setting: Setting, value: Node) -> Result<Node, Fault>
        requires { Nests self.now.left (F.pre self.now.read) (F.post self.now.read) }
        ensures { Reads (rule self.now.left spec.image setting value cursor.old) result cursor.new }
    {
        let inside = setting.within(Around::Colon);
        let bound = cursor.declared(self.alloc, inside, Stop::Bound)?;
        cursor.expect(self.alloc, inside, Stop::Other, Mark::Belongs)?;
        let set = self.part(cursor, inside)?;
        cursor.expect(self.alloc, inside, Stop::Expression, Mark::CloseBrace)?;
        Ok(binary(self.alloc, Form::Image(bound.name), set, value, bound.place)?)
    }

    /// `{x \in S : P}`, after the set.
    #[tactic(auto, unfolding(crate::specs::Reading::filter))]
    fn filter(
        &self,
        cursor: &mut Cursor<'_>,
        setting: Setting,
        name: Text,
        place: Place,
        set: Node,
    ) -> Result<Node, Fault>
        requires { Nests self.now.left (F.pre self.now.read) (F.post self.now.read) }
        ensures { Reads (rule self.now.left spec.filter setting name place set cursor.old)
            result cursor.new }
    {
        let inside = setting.within(Around::Colon);
        cursor.expect(self.alloc, setting, Stop::Expression, Mark::Colon)?;
        let condition = self.part(cursor, inside)?;
        cursor.expect(self.alloc, inside, Stop::Expression, Mark::CloseBrace)?;
        Ok(binary(self.alloc, Form::Filter(name), set, condition, place)?)
    }

    /// The rest of `{e, ..}` after a comma.
    #[tactic(auto, unfolding(crate::specs::Reading::elements))]
    fn elements(
        &self,
        cursor: &mut Cursor<'_>,
        setting: Setting,
        place: Place,
        element: Node,
    ) -> Result<Node, Fault>
        requires { Nests self.now.left (F.pre self.now.read) (F.post self.now.read) }
        ensures { Reads (rule self.now.left spec.elements setting place element cursor.old)
            result cursor.new }
    {
        let first = one_part(self.alloc, element)?;
        let parts = self.expressions(cursor, setting, first)?;
        cursor.expect(self.alloc, setting, Stop::Expression, Mark::CloseBrace)?;
        Ok(whole(Form::Enum, parts, place))
    }

    /// What follows the first expression in a brace.
    #[tactic(auto, unfolding(crate::specs::Reading::brace_end))]
    fn brace_end(
        &self,
        cursor: &mut Cursor<'_>,
        setting: Setting,
        place: Place,
        element: Node,
    ) -> Result<Node, Fault>
        requires { Nests self.now.left (F.pre self.now.read) (F.post self.now.read) }
        ensures { Reads (rule self.now.left spec.brace_end setting place element cursor.old)
            result cursor.new }
    {
        if cursor.sees(setting, Mark::Colon) && !is_tuple(setting.around) {
            cursor.advance();
            return self.image(cursor, setting, element);
        }
        if cursor.eat(setting, Mark::Comma) {
            return self.elements(cursor, setting, place, element);
        }
        if cursor.eat(setting, Mark::CloseBrace) {
            return Ok(unary(self.alloc, Form::Enum, element, place)?);
        }
        Err(cursor.refusal(self.alloc, setting, Stop::Expression))
    }

    /// A brace that begins with `x \in S`, where it is no `{x \in S : P}`.
    fn other_member_brace(
        &self,
        cursor: &mut Cursor<'_>,
        setting: Setting,
        place: Place,
        bound: Bound,
        set: Flat,
    ) -> Result<Node, Fault>
        requires nests { Nests self.now.left (F.pre self.now.read) (F.post self.now.read) }
        requires set { IsChain true set.pieces.items × AreListed set.pieces.items }
        ensures { Reads (and_then
            (spec.finished (spec.after_member bound.name bound.place bound.sign (chain_of set cursor.old)))
            (rule self.now.left spec.brace_end setting place)) result cursor.new }
    {
        let element = element(self.alloc, bound, set)?;
        self.brace_end(cursor, setting, place, element)
    }

    /// A brace that begins with `x \in`.
    #[tactic(auto, unfolding(crate::specs::Reading::member_brace))]
    fn member_brace(
        &self,
        cursor: &mut Cursor<'_>,
        setting: Setting,
        place: Place,
    ) -> Result<Node, Fault>
        requires { Nests self.now.left (F.pre self.now.read) (F.post self.now.read) }
        ensures { Reads (rule self.now.left spec.member_brace setting place cursor.old)
            result cursor.new }
    {
        let bound = Bound::read(self.alloc, cursor)?;
        let most = cursor.left();
        let set = self.inner(cursor, most, setting, true)?;
        if !ends_at(cursor, setting, &set, Mark::Colon) {
            return self.other_member_brace(cursor, setting, place, bound, set);
        }
        let set = finished(self.alloc, set)?;
        self.filter(cursor, setting, bound.name, bound.place, set)
    }

    /// A brace after its first operand.
    #[tactic(auto, unfolding(crate::specs::Reading::tuple_brace_after))]
    fn tuple_brace_after(
        &self,
        cursor: &mut Cursor<'_>,
        setting: Setting,
        place: Place,
        operand: Node,
    ) -> Result<Node, Fault>
        requires { Nests self.now.left (F.pre self.now.read) (F.post self.now.read) }
        ensures { Reads (rule self.now.left spec.tuple_brace_after setting place operand cursor.old)
            result cursor.new }
    {
        let setting = after_first(cursor, setting, &operand);
        let most = cursor.left();
        let mut flat = self.inner(cursor, most, setting, false)?;
        put_before(&mut flat.pieces, Piece::Operand(operand))?;
        let element = finished(self.alloc, flat)?;
        self.brace_end(cursor, setting, place, element)
    }

    /// A brace whose first token is `<<`.
    #[tactic(auto, unfolding(crate::specs::Reading::tuple_brace))]
    fn tuple_brace(
        &self,
        cursor: &mut Cursor<'_>,
        setting: Setting,
        place: Place,
    ) -> Result<Node, Fault>
        requires { Nests self.now.left (F.pre self.now.read) (F.post self.now.read) }
        ensures { Reads (rule self.now.left spec.tuple_brace setting place cursor.old)
            result cursor.new }
    {
        let Flat { mut pieces, fault } = self.inner(cursor, 1, setting, true)?;
        if let Some(fault) = fault {
            return Err(fault);
        }
        match (pieces.pop_front(), pieces.is_empty()) {
            (Some(Piece::Operand(operand)), true) => {
                self.tuple_brace_after(cursor, setting, place, operand)
            }
            _ => Err(cursor.refusal(self.alloc, setting, Stop::Operand)),
        }
    }

    /// What follows `{`.
    #[tactic(auto, unfolding(crate::specs::Reading::brace_from))]
    fn brace_from(
        &self,
        cursor: &mut Cursor<'_>,
        setting: Setting,
        place: Place,
    ) -> Result<Node, Fault>
        requires { Nests self.now.left (F.pre self.now.read) (F.post self.now.read) }
        ensures { Reads (rule self.now.left spec.brace_from setting place cursor.old)
            result cursor.new }
    {
        if cursor.eat(setting, Mark::CloseBrace) {
            return Ok(leaf(self.alloc, Form::Enum, place));
        }
        if cursor.sees(setting, Mark::Name) && cursor.sees_second(setting, Mark::Belongs) {
            return self.member_brace(cursor, setting, place);
        }
        if cursor.sees(setting, Mark::OpenAngle) {
            return self.tuple_brace(cursor, setting, place);
        }
        let element = self.part(cursor, setting)?;
        self.brace_end(cursor, setting, place, element)
    }

    /// `{e, ..}`, `{x \in S : P}`, `{e : x \in S}`.
    #[tactic(auto, unfolding(crate::specs::Reading::brace))]
    pub fn brace(&self, cursor: &mut Cursor<'_>, setting: Setting) -> Result<Node, Fault>
        requires { Nests self.now.left (F.pre self.now.read) (F.post self.now.read) }
        ensures { Reads (rule self.now.left spec.brace setting cursor.old) result cursor.new }
    {
        let place = cursor.opening(self.left)?;
        self.brace_from(cursor, setting.within(Around::Brace), place)
    }
}
