//! Square brackets.

ghost use Rattle.std.specs.Prelude.{◌≡◌, true, OnOk};
ghost use Rattle.token_reader.specs.Input as input;
ghost use Rattle.operator_chain.specs.Chain.{IsChain};
ghost use Rattle.operator_chain.specs.Listed.{AreListed};
ghost use Rattle.tla_ast.specs.Answers.{Reads};
ghost use Rattle.token_reader.specs.Input.{and_then};
ghost use Rattle.layout_parser.specs.Reading as spec;
ghost use Rattle.layout_parser.specs.Reading.{rule};
ghost use Rattle.layout_parser.specs.Nests.{Nests, chain_of};

use crate::build::{binary, leaf, whole};
use crate::flat::Flat;
use crate::grammar::{Grammar, finished};
use crate::member::{Bound, element, ends_at};
use core_expr::{Memory, Text};
use sqlite_items::Items;
use std::alloc::Global;
use tla_ast::{Decl, Fault, Form, Node, Parts, Place};
use token_reader::{Around, Cursor, Mark, Setting, Stop};

/// Fields of a record with what they hold: the names, and per field a node of its name and the expression.
#[derive(Drop)]
pub struct Fields {
    pub names: Items<Text>,
    pub parts: Parts<Node>,
}

impl Fields {
    /// No fields.
    fn new(alloc: Global) -> Fields
        ensures { result ≡ spec.no_fields }
    {
        Fields {
            names: Items::new(alloc),
            parts: Parts::new(alloc),
        }
    }

    /// One field more.
    fn push(&mut self, alloc: Global, field: Decl, value: Node) -> Result<(), Memory>
        ensures { OnOk result (self.new ≡ spec.with_field self.old (field, value)) }
    {
        let name = Text::of(alloc, field.name.bytes())?;
        self.names.push(name)?;
        self.parts
            .push(leaf(alloc, Form::Name(field.name), field.place))?;
        self.parts.push(value)?;
        Ok(())
    }
}

impl<F: Fn(Global, &mut Cursor<'_>, usize, usize, Setting, bool) -> Result<Flat, Memory>> Grammar<
    F,
> {
    /// `h |-> e` or `h : S`.
    #[tactic(auto, unfolding(crate::specs::Reading::field_of))]
    fn field_of(
        &self,
        cursor: &mut Cursor<'_>,
        setting: Setting,
        mark: Mark,
    ) -> Result<(Decl, Node), Fault>
        requires { Nests self.now.left (F.pre self.now.read) (F.post self.now.read) }
        ensures { Reads (rule self.now.left spec.field_of setting mark cursor.old)
            result cursor.new }
    {
        let field = cursor.declared(self.alloc, setting, Stop::Other)?;
        cursor.expect(self.alloc, setting, Stop::Other, mark)?;
        let value = self.part(cursor, setting)?;
        Ok((field, value))
    }

    /// One or more fields, with commas between.
    #[tactic(auto, using(token_reader::proofs::Turns::turn), unfolding(token_reader::specs::Lists::gathered, token_reader::specs::Lists::gathered_from))]
    fn fields(&self, cursor: &mut Cursor<'_>, setting: Setting, mark: Mark) -> Result<Fields, Fault>
        requires { Nests self.now.left (F.pre self.now.read) (F.post self.now.read) }
        ensures { Reads (rule self.now.left spec.fields setting mark cursor.old) result cursor.new }
    {
        let mut fields = Fields::new(self.alloc);
        for _turn in 0..cursor.left() {
            let (field, value) = self.field_of(cursor, setting, mark)?;
            fields.push(self.alloc, field, value)?;
            if !cursor.eat(setting, Mark::Comma) {
                return Ok(fields);
            }
        }
        Err(cursor.exhausted())
    }

    /// `[h |-> e, ..]`, after the `[`.
    #[tactic(auto, unfolding(crate::specs::Reading::record_of))]
    fn record_of(
        &self,
        cursor: &mut Cursor<'_>,
        setting: Setting,
        place: Place,
    ) -> Result<Node, Fault>
        requires { Nests self.now.left (F.pre self.now.read) (F.post self.now.read) }
        ensures { Reads (rule self.now.left spec.record_of setting place cursor.old)
            result cursor.new }
    {
        let Fields { names, parts } = self.fields(cursor, setting, Mark::Maps)?;
        cursor.expect(self.alloc, setting, Stop::Expression, Mark::CloseSquare)?;
        Ok(whole(Form::Record(names), parts, place))
    }

    /// `[h : S, ..]`, after the `[`.
    #[tactic(auto, unfolding(crate::specs::Reading::record_set))]
    fn record_set(
        &self,
        cursor: &mut Cursor<'_>,
        setting: Setting,
        place: Place,
    ) -> Result<Node, Fault>
        requires { Nests self.now.left (F.pre self.now.read) (F.post self.now.read) }
        ensures { Reads (rule self.now.left spec.record_set setting place cursor.old)
            result cursor.new }
    {
        let Fields { names, parts } = self.fields(cursor, setting, Mark::Colon)?;
        cursor.expect(self.alloc, setting, Stop::Expression, Mark::CloseSquare)?;
        Ok(whole(Form::RecordSet(names), parts, place))
    }

    /// `[S -> T]`, after the `->`.
    #[tactic(auto, unfolding(crate::specs::Reading::function_set))]
    fn function_set(
        &self,
        cursor: &mut Cursor<'_>,
        setting: Setting,
        place: Place,
        domain: Node,
    ) -> Result<Node, Fault>
        requires { Nests self.now.left (F.pre self.now.read) (F.post self.now.read) }
        ensures { Reads (rule self.now.left spec.function_set setting place domain cursor.old)
            result cursor.new }
    {
        let range = self.part(cursor, setting)?;
        cursor.expect(self.alloc, setting, Stop::Expression, Mark::CloseSquare)?;
        Ok(binary(self.alloc, Form::FunctionSet, domain, range, place)?)
    }

    /// What follows the first expression in a square bracket.
    #[tactic(auto, unfolding(crate::specs::Reading::square_end))]
    fn square_end(
        &self,
        cursor: &mut Cursor<'_>,
        outer: Around,
        setting: Setting,
        place: Place,
        first: Node,
    ) -> Result<Node, Fault>
        requires { Nests self.now.left (F.pre self.now.read) (F.post self.now.read) }
        ensures { Reads (rule self.now.left spec.square_end outer setting place first cursor.old)
            result cursor.new }
    {
        if cursor.eat(setting, Mark::CloseBox) {
            let subscript = self.subscript(cursor, setting.within(outer))?;
            return Ok(binary(self.alloc, Form::BoxAct, first, subscript, place)?);
        }
        if cursor.eat(setting, Mark::Arrow) {
            return self.function_set(cursor, setting, place, first);
        }
        if cursor.eat(setting, Mark::Except) {
            return self.except(cursor, setting, place, first);
        }
        Err(cursor.refusal(self.alloc, setting, Stop::Expression))
    }

    /// `[x \in S |-> e]`, after the set.
    #[tactic(auto, unfolding(crate::specs::Reading::function))]
    fn function(
        &self,
        cursor: &mut Cursor<'_>,
        setting: Setting,
        name: Text,
        place: Place,
        set: Node,
    ) -> Result<Node, Fault>
        requires { Nests self.now.left (F.pre self.now.read) (F.post self.now.read) }
        ensures { Reads (rule self.now.left spec.function setting name place set cursor.old)
            result cursor.new }
    {
        cursor.expect(self.alloc, setting, Stop::Expression, Mark::Maps)?;
        let value = self.part(cursor, setting)?;
        cursor.expect(self.alloc, setting, Stop::Expression, Mark::CloseSquare)?;
        Ok(binary(self.alloc, Form::Function(name), set, value, place)?)
    }

    /// A bracket that begins with `x \in S`, where it is no `[x \in S |-> e]`.
    fn other_member_square(
        &self,
        cursor: &mut Cursor<'_>,
        outer: Around,
        setting: Setting,
        place: Place,
        bound: Bound,
        set: Flat,
    ) -> Result<Node, Fault>
        requires nests { Nests self.now.left (F.pre self.now.read) (F.post self.now.read) }
        requires set { IsChain true set.pieces.items × AreListed set.pieces.items }
        ensures { Reads (and_then
            (spec.finished (spec.after_member bound.name bound.place bound.sign (chain_of set cursor.old)))
            (rule self.now.left spec.square_end outer setting place)) result cursor.new }
    {
        let element = element(self.alloc, bound, set)?;
        self.square_end(cursor, outer, setting, place, element)
    }

    /// A square bracket that begins with `x \in`.
    #[tactic(auto, unfolding(crate::specs::Reading::member_square))]
    fn member_square(
        &self,
        cursor: &mut Cursor<'_>,
        outer: Around,
        setting: Setting,
        place: Place,
    ) -> Result<Node, Fault>
        requires { Nests self.now.left (F.pre self.now.read) (F.post self.now.read) }
        ensures { Reads (rule self.now.left spec.member_square outer setting place cursor.old)
            result cursor.new }
    {
        let bound = Bound::read(self.alloc, cursor)?;
        let most = cursor.left();
        let set = self.inner(cursor, most, setting, true)?;
        if !ends_at(cursor, setting, &set, Mark::Maps) {
            return self.other_member_square(cursor, outer, setting, place, bound, set);
        }
        let set = finished(self.alloc, set)?;
        self.function(cursor, setting, bound.name, bound.place, set)
    }

    /// What follows `[` where that is a name.
    #[tactic(auto, unfolding(crate::specs::Reading::square_name))]
    fn square_name(
        &self,
        cursor: &mut Cursor<'_>,
        outer: Around,
        setting: Setting,
        place: Place,
    ) -> Result<Node, Fault>
        requires { Nests self.now.left (F.pre self.now.read) (F.post self.now.read) }
        ensures { Reads (rule self.now.left spec.square_name outer setting place cursor.old)
            result cursor.new }
    {
        if cursor.sees_second(setting, Mark::Maps) {
            return self.record_of(cursor, setting, place);
        }
        if cursor.sees_second(setting, Mark::Colon) {
            return self.record_set(cursor, setting, place);
        }
        if cursor.sees_second(setting, Mark::Belongs) {
            return self.member_square(cursor, outer, setting, place);
        }
        let first = self.part(cursor, setting)?;
        self.square_end(cursor, outer, setting, place, first)
    }

    /// What follows `[`.
    #[tactic(auto, unfolding(crate::specs::Reading::square_from))]
    fn square_from(
        &self,
        cursor: &mut Cursor<'_>,
        outer: Around,
        setting: Setting,
        place: Place,
    ) -> Result<Node, Fault>
        requires { Nests self.now.left (F.pre self.now.read) (F.post self.now.read) }
        ensures { Reads (rule self.now.left spec.square_from outer setting place cursor.old)
            result cursor.new }
    {
        if cursor.sees(setting, Mark::Name) {
            return self.square_name(cursor, outer, setting, place);
        }
        let first = self.part(cursor, setting)?;
        self.square_end(cursor, outer, setting, place, first)
    }

    /// Functions, records, their sets, EXCEPT and `[A]_v`.
    #[tactic(auto, unfolding(crate::specs::Reading::square))]
    pub fn square(&self, cursor: &mut Cursor<'_>, setting: Setting) -> Result<Node, Fault>
        requires { Nests self.now.left (F.pre self.now.read) (F.post self.now.read) }
        ensures { Reads (rule self.now.left spec.square setting cursor.old) result cursor.new }
    {
        let place = cursor.opening(self.left)?;
        self.square_from(
            cursor,
            setting.around,
            setting.within(Around::Square),
            place,
        )
    }
}
