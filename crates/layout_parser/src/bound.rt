//! Quantifiers and CHOOSE.

ghost use Rattle.token_reader.specs.Input as input;
ghost use Rattle.tla_ast.specs.Answers.{Reads};
ghost use Rattle.layout_parser.specs.Reading as spec;
ghost use Rattle.layout_parser.specs.Reading.{rule};
ghost use Rattle.layout_parser.specs.Nests.{Nests};

use crate::build::{group, one, one_part, whole};
use crate::flat::Flat;
use crate::grammar::Grammar;
use core_expr::Memory;
use sqlite_items::Items;
use std::alloc::Global;
use tla_ast::{Decl, Fault, Form, Group, Node};
use token_reader::{Cursor, Mark, Setting, Stop, names};

impl<F: Fn(Global, &mut Cursor<'_>, usize, usize, Setting, bool) -> Result<Flat, Memory>> Grammar<
    F,
> {
    /// The `\\in` and the set of a group of names.
    #[tactic(auto, unfolding(crate::specs::Reading::bound_set))]
    fn bound_set(
        &self,
        cursor: &mut Cursor<'_>,
        setting: Setting,
        names: Items<Decl>,
    ) -> Result<Group, Fault>
        requires { Nests self.now.left (F.pre self.now.read) (F.post self.now.read) }
        ensures { Reads (rule self.now.left spec.bound_set setting names cursor.old)
            result cursor.new }
    {
        cursor.expect(self.alloc, setting, Stop::Other, Mark::Belongs)?;
        let set = self.part(cursor, setting)?;
        Ok(group(self.alloc, names, Some(set))?)
    }

    /// A group of names with a set.
    #[tactic(auto, unfolding(crate::specs::Reading::bound))]
    fn bound(&self, cursor: &mut Cursor<'_>, setting: Setting) -> Result<Group, Fault>
        requires { Nests self.now.left (F.pre self.now.read) (F.post self.now.read) }
        ensures { Reads (rule self.now.left spec.bound setting cursor.old) result cursor.new }
    {
        let names = names(self.alloc, cursor, setting, Stop::Bound)?;
        self.bound_set(cursor, setting, names)
    }

    /// One or more groups with sets, with commas between, after those found.
    #[tactic(auto, using(token_reader::proofs::Turns::turn), unfolding(token_reader::specs::Lists::gathered, token_reader::specs::Lists::gathered_from))]
    fn further_bounds(
        &self,
        cursor: &mut Cursor<'_>,
        setting: Setting,
        mut found: Items<Group>,
    ) -> Result<Items<Group>, Fault>
        requires { Nests self.now.left (F.pre self.now.read) (F.post self.now.read) }
        ensures { Reads (rule self.now.left spec.further_bounds setting found cursor.old)
            result cursor.new }
    {
        for _turn in 0..cursor.left() {
            found.push(self.bound(cursor, setting)?)?;
            if !cursor.eat(setting, Mark::Comma) {
                return Ok(found);
            }
        }
        Err(cursor.exhausted())
    }

    /// One or more groups with sets, of which the first has these names.
    #[tactic(auto, unfolding(crate::specs::Reading::bounds))]
    pub fn bounds(
        &self,
        cursor: &mut Cursor<'_>,
        setting: Setting,
        names: Items<Decl>,
    ) -> Result<Items<Group>, Fault>
        requires { Nests self.now.left (F.pre self.now.read) (F.post self.now.read) }
        ensures { Reads (rule self.now.left spec.bounds setting names cursor.old)
            result cursor.new }
    {
        let group = self.bound_set(cursor, setting, names)?;
        let found = one(self.alloc, group)?;
        if cursor.eat(setting, Mark::Comma) {
            self.further_bounds(cursor, setting, found)
        } else {
            Ok(found)
        }
    }

    /// One or more groups with sets, or one group without a set where the `:` comes after its names.
    #[tactic(auto, unfolding(crate::specs::Reading::groups_of))]
    fn groups_of(
        &self,
        cursor: &mut Cursor<'_>,
        setting: Setting,
        names: Items<Decl>,
    ) -> Result<Items<Group>, Fault>
        requires { Nests self.now.left (F.pre self.now.read) (F.post self.now.read) }
        ensures { Reads (rule self.now.left spec.groups_of setting names cursor.old)
            result cursor.new }
    {
        if !cursor.sees(setting, Mark::Colon) {
            return self.bounds(cursor, setting, names);
        }
        let group = group(self.alloc, names, None)?;
        Ok(one(self.alloc, group)?)
    }

    /// A quantifier.
    #[tactic(auto, unfolding(crate::specs::Reading::quantifier))]
    pub fn quantifier(
        &self,
        cursor: &mut Cursor<'_>,
        all: bool,
        setting: Setting,
    ) -> Result<Node, Fault>
        requires { Nests self.now.left (F.pre self.now.read) (F.post self.now.read) }
        ensures { Reads (rule self.now.left spec.quantifier all setting cursor.old)
            result cursor.new }
    {
        let place = cursor.take();
        let names = names(self.alloc, cursor, setting, Stop::Bound)?;
        let groups = self.groups_of(cursor, setting, names)?;
        cursor.expect(self.alloc, setting, Stop::Expression, Mark::Colon)?;
        let body = self.part(cursor, setting)?;
        let parts = one_part(self.alloc, body)?;
        Ok(whole(Form::Quant { all, groups }, parts, place))
    }

    /// The set of the name of a CHOOSE, and the `:`.
    #[tactic(auto, unfolding(crate::specs::Reading::domain))]
    fn domain(&self, cursor: &mut Cursor<'_>, setting: Setting) -> Result<Option<Node>, Fault>
        requires { Nests self.now.left (F.pre self.now.read) (F.post self.now.read) }
        ensures { Reads (rule self.now.left spec.domain setting cursor.old) result cursor.new }
    {
        if !cursor.eat(setting, Mark::Belongs) {
            cursor.expect(self.alloc, setting, Stop::Other, Mark::Colon)?;
            return Ok(None);
        }
        let set = self.part(cursor, setting)?;
        cursor.expect(self.alloc, setting, Stop::Expression, Mark::Colon)?;
        Ok(Some(set))
    }

    /// CHOOSE.
    #[tactic(auto, unfolding(crate::specs::Reading::choose))]
    pub fn choose(&self, cursor: &mut Cursor<'_>, setting: Setting) -> Result<Node, Fault>
        requires { Nests self.now.left (F.pre self.now.read) (F.post self.now.read) }
        ensures { Reads (rule self.now.left spec.choose setting cursor.old) result cursor.new }
    {
        let place = cursor.take();
        let bound = cursor.declared(self.alloc, setting, Stop::Bound)?;
        let set = self.domain(cursor, setting)?;
        let body = self.part(cursor, setting)?;
        let parts = one_part(self.alloc, body)?;
        let group = group(self.alloc, one(self.alloc, bound)?, set)?;
        Ok(whole(Form::Choose(group), parts, place))
    }
}
