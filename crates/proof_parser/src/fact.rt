//! Facts of BY, USE and HIDE.

ghost use Rattle.std.specs.Prelude.{◌≡◌, [], IfOk};
ghost use Rattle.token_reader.specs.Input as input;
ghost use Rattle.tla_ast.specs.Answers.{Reads};
ghost use Rattle.proof_parser.specs.Modules as spec;

use crate::clause::Clauses;
use crate::name::{outside, plain_names};
use core_expr::{Memory, Text};
use sqlite_items::Items;
use std::alloc::Global;
use tla_ast::{Decl, Fact, Fault, Form, Node, Parts, Tok};
use token_reader::{Cursor, Mark, Stop};

/// The level of the step token that comes next.
pub fn level(cursor: &Cursor<'_>) -> u128
    ensures { result ≡ spec.level_of (input.first cursor.now).tok }
{
    match cursor.token() {
        Some(token) => match &token.tok {
            Tok::Step { level, label: _ } => *level,
            _ => 0,
        },
        None => 0,
    }
}

/// The label of the step token that comes next.
pub fn label(alloc: Global, cursor: &Cursor<'_>) -> Result<Text, Memory>
    ensures { IfOk result (λ t. t ≡ spec.label_of (input.first cursor.now).tok) }
{
    match cursor.token() {
        Some(token) => match &token.tok {
            Tok::Step { level: _, label } => Text::of(alloc, label.bytes()),
            _ => Text::of(alloc, b""),
        },
        None => Text::of(alloc, b""),
    }
}

impl Clauses {
    /// A fact that is no step token: an expression, and for HIDE a name.
    fn plain_fact(self, cursor: &mut Cursor<'_>, hides: bool) -> Result<Node, Fault>
        ensures { Reads (spec.plain_fact self.nestings hides cursor.old) result cursor.new }
    {
        if !hides {
            return self.expression(cursor);
        }
        let place = cursor.place();
        let name = cursor.name(self.alloc, outside(), Stop::Other)?;
        Ok(Node {
            form: Form::Name(name),
            parts: Parts::new(self.alloc),
            place,
        })
    }

    /// A fact: a step token is the name of a step.
    #[tactic(auto, unfolding(crate::specs::Modules::fact_of))]
    fn fact(self, cursor: &mut Cursor<'_>, hides: bool) -> Result<Fact, Fault>
        ensures { Reads (spec.fact_of self.nestings hides cursor.old) result cursor.new }
    {
        let place = cursor.place();
        if !cursor.sees(outside(), Mark::Step) {
            let node = self.plain_fact(cursor, hides)?;
            return Ok(Fact::Plain { place, node });
        }
        let level = level(cursor);
        let label = label(self.alloc, cursor)?;
        cursor.advance();
        Ok(Fact::StepName {
            level,
            label,
            place,
        })
    }

    /// One or more facts, with commas between.
    #[tactic(auto, using(token_reader::proofs::Turns::turn), unfolding(token_reader::specs::Lists::gathered, token_reader::specs::Lists::gathered_from, crate::specs::Modules::facts))]
    fn facts(self, cursor: &mut Cursor<'_>, hides: bool) -> Result<Items<Fact>, Fault>
        ensures { Reads (spec.facts self.nestings hides cursor.old) result cursor.new }
    {
        let mut found = Items::new(self.alloc);
        for _turn in 0..cursor.left() {
            found.push(self.fact(cursor, hides)?)?;
            if !cursor.eat(outside(), Mark::Comma) {
                return Ok(found);
            }
        }
        Err(cursor.exhausted())
    }

    /// The names of definitions after DEF, if it comes.
    #[tactic(auto, unfolding(crate::specs::Modules::definitions_cited))]
    fn definitions_cited(self, cursor: &mut Cursor<'_>) -> Result<Items<Decl>, Fault>
        ensures { Reads (spec.definitions_cited self.nestings cursor.old) result cursor.new }
    {
        if cursor.eat(outside(), Mark::Def) {
            plain_names(self.alloc, cursor)
        } else {
            Ok(Items::new(self.alloc))
        }
    }

    /// Facts and, after DEF, names of definitions; one of the two may be missing.
    #[tactic(auto, unfolding(crate::specs::Modules::cited))]
    pub fn cited(
        self,
        cursor: &mut Cursor<'_>,
        hides: bool,
    ) -> Result<(Items<Fact>, Items<Decl>), Fault>
        ensures { Reads (spec.cited self.nestings hides cursor.old) result cursor.new }
    {
        if cursor.sees(outside(), Mark::Def) {
            cursor.advance();
            let names = plain_names(self.alloc, cursor)?;
            return Ok((Items::new(self.alloc), names));
        }
        let facts = self.facts(cursor, hides)?;
        let names = self.definitions_cited(cursor)?;
        Ok((facts, names))
    }
}
