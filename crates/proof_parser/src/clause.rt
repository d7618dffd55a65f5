//! Definitions, statements and bound names.

ghost use Rattle.std.specs.Prelude.{◌≡◌, ◌||◌, []};
ghost use Rattle.token_reader.specs.Input as input;
ghost use Rattle.tla_ast.specs.Answers.{Reads};
ghost use Rattle.proof_parser.specs.Modules as spec;

use crate::name::outside;
use layout_parser::{bounds, definition_head, expression};
use sqlite_items::{Boxed, Items};
use std::alloc::Global;
use tla_ast::{Decl, Def, Fault, Form, Group, Item, Node, Sort, Statement};
use token_reader::{Cursor, Mark, Stop, names};

/// What stands in a proof, where so many nestings may still begin in it.
#[derive(Clone, Copy)]
pub struct Clauses {
    pub alloc: Global,
    /// How many nestings may begin, the proof itself among them.
    pub nestings: usize,
}

/// What stands before the `==` after which a step's last expression goes wrong.
fn stop_after(form: &Form) -> Stop
    ensures { result ≡ spec.stop_after form.now }
{
    match form {
        Form::Index => Stop::Indexed,
        _ => Stop::Expression,
    }
}

impl Clauses {
    /// An expression.
    #[tactic(auto, unfolding(crate::specs::Modules::expression))]
    pub fn expression(self, cursor: &mut Cursor<'_>) -> Result<Node, Fault>
        ensures { Reads (spec.expression self.nestings cursor.old) result cursor.new }
    {
        expression(self.alloc, cursor, self.nestings, outside())
    }

    /// The last expression of a step.
    #[tactic(auto, unfolding(crate::specs::Modules::last_expression, crate::specs::Modules::closed))]
    pub fn last_expression(self, cursor: &mut Cursor<'_>) -> Result<Node, Fault>
        ensures { Reads (spec.last_expression self.nestings cursor.old) result cursor.new }
    {
        let node = self.expression(cursor)?;
        if cursor.sees(outside(), Mark::Defines) {
            return Err(cursor.refusal(self.alloc, outside(), stop_after(&node.form)));
        }
        Ok(node)
    }

    /// A definition.
    #[tactic(auto, unfolding(crate::specs::Modules::definition))]
    pub fn definition(self, cursor: &mut Cursor<'_>) -> Result<Def, Fault>
        ensures { Reads (spec.definition self.nestings cursor.old) result cursor.new }
    {
        let decl = cursor.declared(self.alloc, outside(), Stop::Other)?;
        let left = self.nestings.saturating_sub(1);
        let params = definition_head(self.alloc, cursor, left, outside())?;
        let body = self.expression(cursor)?;
        let body = Boxed::new(self.alloc, body)?;
        Ok(Def {
            name: decl.name,
            params,
            body,
            place: decl.place,
        })
    }

    /// One or more definitions; an identifier begins the next.
    #[tactic(auto, using(token_reader::proofs::Turns::turn), unfolding(token_reader::specs::Lists::gathered, token_reader::specs::Lists::gathered_from, crate::specs::Modules::definitions))]
    pub fn definitions(self, cursor: &mut Cursor<'_>) -> Result<Items<Def>, Fault>
        ensures { Reads (spec.definitions self.nestings cursor.old) result cursor.new }
    {
        let mut found = Items::new(self.alloc);
        for _turn in 0..cursor.left() {
            found.push(self.definition(cursor)?)?;
            if !cursor.sees(outside(), Mark::Name) {
                return Ok(found);
            }
        }
        Err(cursor.exhausted())
    }

    /// An item that is a name alone: what follows it is a comma or PROVE.
    #[tactic(auto, unfolding(crate::specs::Modules::name_end))]
    fn name_end(self, cursor: &Cursor<'_>, item: Item) -> Result<Item, Fault>
        ensures { Reads (spec.name_end self.nestings item cursor.now) result cursor.now }
    {
        if cursor.sees(outside(), Mark::Comma) || cursor.sees(outside(), Mark::Prove) {
            return Ok(item);
        }
        Err(cursor.refusal(self.alloc, outside(), Stop::Parameter))
    }

    /// A constant that is declared, with its set, if it has one.
    #[tactic(auto, unfolding(crate::specs::Modules::new_constant))]
    fn new_constant(self, cursor: &mut Cursor<'_>) -> Result<Item, Fault>
        ensures { Reads (spec.new_constant self.nestings cursor.old) result cursor.new }
    {
        let sort = Sort::Constant;
        let decl = cursor.declared(self.alloc, outside(), Stop::Other)?;
        if !cursor.eat(outside(), Mark::Belongs) {
            let domain = None;
            return self.name_end(cursor, Item::New { sort, decl, domain });
        }
        let set = self.expression(cursor)?;
        let domain = Some(Boxed::new(self.alloc, set)?);
        Ok(Item::New { sort, decl, domain })
    }

    /// A variable that is declared.
    #[tactic(auto, unfolding(crate::specs::Modules::new_variable))]
    fn new_variable(self, cursor: &mut Cursor<'_>, sort: Sort) -> Result<Item, Fault>
        ensures { Reads (spec.new_variable self.nestings sort cursor.old) result cursor.new }
    {
        let decl = cursor.declared(self.alloc, outside(), Stop::Other)?;
        let domain = None;
        self.name_end(cursor, Item::New { sort, decl, domain })
    }

    /// What is declared, after NEW.
    fn new_item(self, cursor: &mut Cursor<'_>) -> Result<Item, Fault>
        ensures { Reads (spec.new_by self.nestings (input.mark cursor.old) cursor.old) result cursor.new }
    {
        match cursor.mark() {
            Mark::Name => self.new_constant(cursor),
            Mark::Constant => {
                cursor.take();
                self.new_constant(cursor)
            }
            Mark::Variable => {
                cursor.take();
                self.new_variable(cursor, Sort::Variable)
            }
            Mark::State => {
                cursor.take();
                self.new_variable(cursor, Sort::State)
            }
            _ => Err(cursor.refusal(self.alloc, outside(), Stop::Other)),
        }
    }

    /// An item after ASSUME.
    #[tactic(auto, unfolding(crate::specs::Modules::item_of))]
    fn item(self, cursor: &mut Cursor<'_>) -> Result<Item, Fault>
        ensures { Reads (spec.item_of self.nestings cursor.old) result cursor.new }
    {
        if cursor.sees(outside(), Mark::New) {
            cursor.advance();
            self.new_item(cursor)
        } else {
            Ok(Item::Given(self.expression(cursor)?))
        }
    }

    /// One or more items, with commas between.
    #[tactic(auto, using(token_reader::proofs::Turns::turn), unfolding(token_reader::specs::Lists::gathered, token_reader::specs::Lists::gathered_from, crate::specs::Modules::items))]
    fn items(self, cursor: &mut Cursor<'_>) -> Result<Items<Item>, Fault>
        ensures { Reads (spec.items self.nestings cursor.old) result cursor.new }
    {
        let mut found = Items::new(self.alloc);
        for _turn in 0..cursor.left() {
            found.push(self.item(cursor)?)?;
            if !cursor.eat(outside(), Mark::Comma) {
                return Ok(found);
            }
        }
        Err(cursor.exhausted())
    }

    /// A goal: that of a step is the step's last expression.
    fn goal(self, cursor: &mut Cursor<'_>, of_step: bool) -> Result<Node, Fault>
        ensures { Reads (spec.goal self.nestings of_step cursor.old) result cursor.new }
    {
        if of_step {
            self.last_expression(cursor)
        } else {
            self.expression(cursor)
        }
    }

    /// `items PROVE goal`, after ASSUME.
    #[tactic(auto, unfolding(crate::specs::Modules::assuming))]
    fn assuming(self, cursor: &mut Cursor<'_>, of_step: bool) -> Result<Statement, Fault>
        ensures { Reads (spec.assuming self.nestings of_step cursor.old) result cursor.new }
    {
        let items = self.items(cursor)?;
        cursor.expect(self.alloc, outside(), Stop::Expression, Mark::Prove)?;
        let goal = self.goal(cursor, of_step)?;
        Ok(Statement { items, goal })
    }

    /// The statement of a theorem or of a step.
    #[tactic(auto, unfolding(crate::specs::Modules::statement))]
    pub fn statement(self, cursor: &mut Cursor<'_>, of_step: bool) -> Result<Statement, Fault>
        ensures { Reads (spec.statement self.nestings of_step cursor.old) result cursor.new }
    {
        if cursor.sees(outside(), Mark::Assume) {
            cursor.advance();
            return self.assuming(cursor, of_step);
        }
        let goal = self.goal(cursor, of_step)?;
        let items = Items::new(self.alloc);
        Ok(Statement { items, goal })
    }

    /// What follows the names of the first group of TAKE or PICK.
    #[tactic(auto, unfolding(crate::specs::Modules::groups_after))]
    fn groups_after(
        self,
        cursor: &mut Cursor<'_>,
        names: Items<Decl>,
    ) -> Result<Items<Group>, Fault>
        ensures { Reads (spec.groups_after self.nestings names cursor.old) result cursor.new }
    {
        if cursor.sees(outside(), Mark::Belongs) {
            return bounds(self.alloc, cursor, self.nestings, outside(), names);
        }
        let domain = None;
        let mut found = Items::new(self.alloc);
        found.push(Group { names, domain })?;
        Ok(found)
    }

    /// The bound names of TAKE and PICK.
    #[tactic(auto, unfolding(crate::specs::Modules::taken))]
    pub fn taken(self, cursor: &mut Cursor<'_>) -> Result<Items<Group>, Fault>
        ensures { Reads (spec.taken self.nestings cursor.old) result cursor.new }
    {
        let names = names(self.alloc, cursor, outside(), Stop::Bound)?;
        self.groups_after(cursor, names)
    }
}
