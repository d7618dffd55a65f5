//! Statements, facts, and definitions of modules and proofs.

ghost use Rattle.std.specs.Prelude.{◌≡◌, fold, map, OnOk};
ghost use Rattle.tla_ast.specs.declared.fault.Kind.TheVariants as kind;
ghost use Rattle.plain_syntax.specs.Syntax.{term_of, terms_of, item_of, statement_of, fact_of, set_of};
ghost use Rattle.plain_syntax.specs.Syntax.{defs_of, each_def, each_group};
ghost use Rattle.plain_syntax.specs.Plain.Defs.{end_defs};
ghost use Rattle.module_scope.specs.Known.{book_of};
ghost use Rattle.module_scope.specs.Names as spec;
ghost use Rattle.module_scope.specs.Visits as visit;

use crate::walker::Walker;
use core_expr::Memory;
use sqlite_items::Boxed;
use std::alloc::Global;
use symbol_table::EntrySort;
use tla_ast::{Decl, Def, Fact, Form, Group, Item, Kind, Node, Place, Sort, Statement};

/// What a NEW item of a sort declares.
fn new_sort(sort: Sort) -> EntrySort
    ensures { result ≡ spec.new_sort sort }
{
    match sort {
        Sort::Constant => EntrySort::Constant,
        _ => EntrySort::State,
    }
}

/// The level of what a NEW item of a sort declares.
fn new_level(sort: Sort) -> u64
    ensures { result ≡ spec.new_level sort }
{
    match sort {
        Sort::Constant => 0,
        _ => 1,
    }
}

impl<'a> Walker<'a> {
    /// Notes a fault of levels at each of these places.
    fn refuse_levels(&mut self, places: &[Place]) -> Result<(), Memory>
        ensures { OnOk result (book_of self.new
            ≡ spec.each (spec.refused kind.Level) places.now (book_of self.old)) }
    {
        for place in places {
            self.refuse(*place, Kind::Level)?;
        }
        Ok(())
    }

    /// The faults of levels in an expression whose names are walked.
    #[tactic(auto, unfolding(crate::specs::Names::judged))]
    pub fn judge(&mut self, alloc: Global, node: &Node) -> Result<(), Memory>
        ensures { OnOk result (book_of self.new
            ≡ spec.judged (term_of node.now) (book_of self.old)) }
    {
        let judged = self.levels.judge(alloc, &self.symbols, node)?;
        self.refuse_levels(judged.faults.as_slice())
    }

    /// An expression by itself.
    pub fn alone(&mut self, alloc: Global, node: &'a Node) -> Result<(), Memory>
        ensures { OnOk result (book_of self.new
            ≡ spec.alone (term_of node.now) (book_of self.old)) }
    {
        self.expression(alloc, node)?;
        self.judge(alloc, node)
    }

    /// Several expressions, each by itself.
    pub fn each_alone(&mut self, alloc: Global, nodes: &'a [Node]) -> Result<(), Memory>
        ensures { OnOk result (book_of self.new
            ≡ spec.each_alone (terms_of (map term_of nodes.now)) (book_of self.old)) }
    {
        for node in nodes {
            self.alone(alloc, node)?;
        }
        Ok(())
    }

    /// The faults of levels in the bodies of definitions.
    fn judge_bodies(&mut self, alloc: Global, defs: &'a [Def]) -> Result<(), Memory>
        ensures { OnOk result (book_of self.new
            ≡ fold visit.body_step (book_of self.old) defs.now) }
    {
        for def in defs {
            self.judge(alloc, def.body.get())?;
        }
        Ok(())
    }

    /// The definitions of a proof.
    pub fn define_all(&mut self, alloc: Global, defs: &'a [Def]) -> Result<(), Memory>
        ensures { OnOk result (book_of self.new
            ≡ spec.define (each_def defs.now) (book_of self.old)) }
    {
        self.definitions(alloc, defs)?;
        self.judge_bodies(alloc, defs)
    }

    /// The definition of a module.
    pub fn define_one(&mut self, alloc: Global, def: &'a Def) -> Result<(), Memory>
        ensures { OnOk result (book_of self.new
            ≡ spec.define (defs_of def.now end_defs) (book_of self.old)) }
    {
        self.definition(alloc, def)?;
        self.judge(alloc, def.body.get())
    }

    /// The set of a name, where it has one.
    fn set(&mut self, alloc: Global, domain: &'a Option<Boxed<Node>>) -> Result<(), Memory>
        ensures { OnOk result (book_of self.new
            ≡ spec.domain (set_of domain.now) (book_of self.old)) }
    {
        match domain {
            None => Ok(()),
            Some(set) => self.alone(alloc, set.get()),
        }
    }

    /// An item after ASSUME.
    fn item(&mut self, alloc: Global, item: &'a Item) -> Result<(), Memory>
        ensures { OnOk result (book_of self.new
            ≡ spec.item_names (item_of item.now) (book_of self.old)) }
    {
        match item {
            Item::New { sort, decl, domain } => {
                self.set(alloc, domain)?;
                self.declare_name(alloc, new_sort(*sort), new_level(*sort), decl)
            }
            Item::Given(node) => self.alone(alloc, node),
        }
    }

    /// The items after ASSUME.
    fn items(&mut self, alloc: Global, items: &'a [Item]) -> Result<(), Memory>
        ensures { OnOk result (book_of self.new
            ≡ spec.each spec.item_names (map item_of items.now) (book_of self.old)) }
    {
        for item in items {
            self.item(alloc, item)?;
        }
        Ok(())
    }

    /// A statement.
    pub fn statement(&mut self, alloc: Global, statement: &'a Statement) -> Result<(), Memory>
        ensures { OnOk result (book_of self.new
            ≡ spec.stated (statement_of statement.now) (book_of self.old)) }
    {
        self.items(alloc, statement.items.as_slice())?;
        self.alone(alloc, &statement.goal)
    }

    /// The set of a group of names that TAKE or PICK chooses.
    fn group_set(&mut self, alloc: Global, group: &'a Group) -> Result<(), Memory>
        ensures { OnOk result (book_of self.new ≡ visit.choice_set (book_of self.old) group.now) }
    {
        self.set(alloc, &group.domain)
    }

    /// The sets of the names that TAKE or PICK chooses.
    fn group_sets(&mut self, alloc: Global, groups: &'a [Group]) -> Result<(), Memory>
        ensures { OnOk result (book_of self.new
            ≡ fold visit.choice_set (book_of self.old) groups.now) }
    {
        for group in groups {
            self.group_set(alloc, group)?;
        }
        Ok(())
    }

    /// The names that TAKE or PICK chooses, and their sets.
    pub fn choose(&mut self, alloc: Global, groups: &'a [Group]) -> Result<(), Memory>
        ensures { OnOk result (book_of self.new
            ≡ spec.chosen (each_group groups.now) (book_of self.old)) }
    {
        self.group_sets(alloc, groups)?;
        self.bind_groups(alloc, EntrySort::Constant, groups)
    }

    /// The number of the fact that an expression names, where it is the name of a fact.
    fn named_fact(&self, node: &Node) -> Option<u64>
        ensures { result ≡ spec.named_fact (book_of self.now) (term_of node.now) }
    {
        let Form::Name(name) = &node.form else {
            return None;
        };
        if node.parts.len() > 0 {
            return None;
        }
        self.fact(name.bytes())
    }

    /// What a fact cites or states.
    fn cite(&mut self, alloc: Global, node: &'a Node) -> Result<(), Memory>
        ensures { OnOk result (book_of self.new
            ≡ spec.cited (term_of node.now) (book_of self.old)) }
    {
        match self.named_fact(node) {
            Some(number) => self.note(node.place, number),
            None => self.alone(alloc, node),
        }
    }

    /// A fact of BY, USE or HIDE.
    fn cite_fact(&mut self, alloc: Global, fact: &'a Fact) -> Result<(), Memory>
        ensures { OnOk result (book_of self.new
            ≡ spec.fact_names (fact_of fact.now) (book_of self.old)) }
    {
        match fact {
            Fact::StepName { .. } => Ok(()),
            Fact::Plain { place: _, node } => self.cite(alloc, node),
        }
    }

    /// Facts of BY, USE or HIDE.
    fn cite_all(&mut self, alloc: Global, facts: &'a [Fact]) -> Result<(), Memory>
        ensures { OnOk result (book_of self.new
            ≡ spec.each spec.fact_names (map fact_of facts.now) (book_of self.old)) }
    {
        for fact in facts {
            self.cite_fact(alloc, fact)?;
        }
        Ok(())
    }

    /// Names after DEF.
    fn unfold_all(&mut self, alloc: Global, decls: &'a [Decl]) -> Result<(), Memory>
        ensures { OnOk result (book_of self.new
            ≡ spec.each spec.unfolded decls.now (book_of self.old)) }
    {
        for decl in decls {
            self.unfold(alloc, decl)?;
        }
        Ok(())
    }

    /// The facts and the names after DEF of BY, USE or HIDE.
    pub fn facts(
        &mut self,
        alloc: Global,
        facts: &'a [Fact],
        decls: &'a [Decl],
    ) -> Result<(), Memory>
        ensures { OnOk result (book_of self.new
            ≡ spec.facts (map fact_of facts.now) decls.now (book_of self.old)) }
    {
        self.cite_all(alloc, facts)?;
        self.unfold_all(alloc, decls)
    }
}
