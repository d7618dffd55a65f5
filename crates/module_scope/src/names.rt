//! The names of an expression.

ghost use Rattle.std.specs.Prelude.{◌≡◌, [], length, fold, map, OnOk};
ghost use Rattle.tla_ast.specs.declared.tree.Node.{out-Node};
ghost use Rattle.tla_ast.specs.declared.tree.Path.{out-Path};
ghost use Rattle.plain_syntax.specs.Syntax.{term_of, terms_of};
ghost use Rattle.module_scope.specs.Known.{book_of, texts, parts_in};
ghost use Rattle.module_scope.specs.Names as spec;
ghost use Rattle.module_scope.specs.Visits as visit;

use crate::walker::Walker;
use core_expr::{Memory, Text};
use indexmap::IndexSet;
use plain_syntax::operator_order;
use std::alloc::Global;
use symbol_table::EntrySort;
use tla_ast::{Decl, Def, Form, Group, Key, Kind, Node, Path};

impl<'a> Walker<'a> {
    /// Names that are declared without parameters, constants or bound.
    pub fn bind_all(
        &mut self,
        alloc: Global,
        sort: EntrySort,
        decls: &'a [Decl],
    ) -> Result<(), Memory>
        ensures { OnOk result (book_of self.new
            ≡ spec.each (spec.declare_name sort 0) decls.now (book_of self.old)) }
    {
        for decl in decls {
            self.declare_name(alloc, sort, 0, decl)?;
        }
        Ok(())
    }

    /// The names of a group.
    pub fn bind_group(
        &mut self,
        alloc: Global,
        sort: EntrySort,
        group: &'a Group,
    ) -> Result<(), Memory>
        ensures { OnOk result (book_of self.new
            ≡ visit.bind_group sort (book_of self.old) group.now) }
    {
        self.bind_all(alloc, sort, group.names.as_slice())
    }

    /// The names of several groups.
    pub fn bind_groups(
        &mut self,
        alloc: Global,
        sort: EntrySort,
        groups: &'a [Group],
    ) -> Result<(), Memory>
        ensures { OnOk result (book_of self.new
            ≡ fold (visit.bind_group sort) (book_of self.old) groups.now) }
    {
        for group in groups {
            self.bind_group(alloc, sort, group)?;
        }
        Ok(())
    }

    /// The name of a field, which is not named twice.
    fn field(
        &mut self,
        alloc: Global,
        seen: &mut IndexSet<&'a [u8]>,
        node: &'a Node,
    ) -> Result<(), Memory>
        ensures names { OnOk result (book_of self.new
            ≡ spec.head_names (texts seen.old) (term_of node.now) (book_of self.old)) }
        ensures fields { OnOk result (texts seen.new
            ≡ spec.with_head (texts seen.old) (term_of node.now)) }
    {
        let Form::Name(name) = &node.form else {
            return Ok(());
        };
        if seen.insert(name.bytes())? {
            return Ok(());
        }
        let name = Text::of(alloc, name.bytes())?;
        self.refuse(node.place, Kind::Redeclared(name))?;
        Ok(())
    }

    /// Several expressions, one after another.
    #[cycle(walk)]
    fn all(&mut self, alloc: Global, nodes: &'a [Node]) -> Result<(), Memory>
        ensures { OnOk result (book_of self.new
            ≡ spec.all_names (terms_of (map term_of nodes.now)) (book_of self.old)) }
    {
        for node in nodes {
            self.expression(alloc, node)?;
        }
        Ok(())
    }

    /// A name with its arguments.
    #[cycle(walk)]
    fn application(&mut self, alloc: Global, name: &[u8], node: &'a Node) -> Result<(), Memory>
        ensures { OnOk result (book_of self.new
            ≡ spec.named name.now (length (out-Node node.now).parts)
            (out-Node node.now).place (spec.all_names (parts_in node.now) (book_of self.old))) }
    {
        self.all(alloc, node.parts.as_slice())?;
        self.name(alloc, name, node.parts.len() as u64, node.place)
    }

    /// A bound name over the first part as its set and the rest, which sees it.
    #[cycle(walk)]
    fn binder(&mut self, alloc: Global, name: &'a [u8], node: &'a Node) -> Result<(), Memory>
        ensures { OnOk result (book_of self.new
            ≡ spec.bound_names name.now (out-Node node.now).place (parts_in node.now)
            (book_of self.old)) }
    {
        let Some((set, rest)) = node.parts.as_slice().split_first() else {
            return Ok(());
        };
        self.expression(alloc, set)?;
        let mark = self.mark();
        self.bind(alloc, name, node.place)?;
        self.all(alloc, rest)?;
        self.leave(mark);
        Ok(())
    }

    /// The set of a group.
    #[cycle(walk)]
    fn domain(&mut self, alloc: Global, group: &'a Group) -> Result<(), Memory>
        ensures { OnOk result (book_of self.new ≡ visit.set_group (book_of self.old) group.now) }
    {
        match &group.domain {
            None => Ok(()),
            Some(set) => self.expression(alloc, set.get()),
        }
    }

    /// The sets of several groups.
    #[cycle(walk)]
    fn domains(&mut self, alloc: Global, groups: &'a [Group]) -> Result<(), Memory>
        ensures { OnOk result (book_of self.new
            ≡ fold visit.set_group (book_of self.old) groups.now) }
    {
        for group in groups {
            self.domain(alloc, group)?;
        }
        Ok(())
    }

    /// The parts of a node; then the names that were declared since there were so many are given up.
    #[cycle(walk)]
    fn inside(&mut self, alloc: Global, mark: usize, node: &'a Node) -> Result<(), Memory>
        ensures { OnOk result (book_of self.new
            ≡ spec.left mark (spec.all_names (parts_in node.now) (book_of self.old))) }
    {
        self.all(alloc, node.parts.as_slice())?;
        self.leave(mark);
        Ok(())
    }

    /// The parameters and the body of a definition, and its name from then on.
    #[cycle(walk)]
    pub fn definition(&mut self, alloc: Global, def: &'a Def) -> Result<(), Memory>
        ensures { OnOk result (book_of self.new ≡ visit.define_step (book_of self.old) def.now) }
    {
        self.fresh(alloc, def.name.bytes(), def.place)?;
        let mark = self.mark();
        self.bind_all(alloc, EntrySort::Bound, def.params.as_slice())?;
        self.expression(alloc, def.body.get())?;
        self.leave(mark);
        self.define(alloc, def)
    }

    /// Several definitions, each seen by those after it.
    #[cycle(walk)]
    pub fn definitions(&mut self, alloc: Global, defs: &'a [Def]) -> Result<(), Memory>
        ensures { OnOk result (book_of self.new
            ≡ fold visit.define_step (book_of self.old) defs.now) }
    {
        for def in defs {
            self.definition(alloc, def)?;
        }
        Ok(())
    }

    /// A key of an update.
    #[cycle(walk)]
    fn key(&mut self, alloc: Global, key: &'a Key) -> Result<(), Memory>
        ensures { OnOk result (book_of self.new ≡ visit.key_step (book_of self.old) key.now) }
    {
        match key {
            Key::At(node) => self.expression(alloc, node),
            Key::Field(_) => Ok(()),
        }
    }

    /// The keys of an update.
    #[cycle(walk)]
    fn keys(&mut self, alloc: Global, path: &'a Path) -> Result<(), Memory>
        ensures { OnOk result (book_of self.new
            ≡ fold visit.key_step (book_of self.old) (out-Path path.now).keys) }
    {
        for key in path.keys.as_slice() {
            self.key(alloc, key)?;
        }
        Ok(())
    }

    /// The function and the updates of an EXCEPT.
    #[cycle(walk)]
    fn except(&mut self, alloc: Global, node: &'a Node) -> Result<(), Memory>
        ensures { visit.IsExcept node.now → OnOk result (book_of self.new
            ≡ visit.visited (book_of self.old) (term_of node.now)) }
    {
        let Form::Except(paths) = &node.form else {
            return Ok(());
        };
        let Some((function, values)) = node.parts.as_slice().split_first() else {
            return Ok(());
        };
        self.expression(alloc, function)?;
        let paths = paths.as_slice();
        for (at, value) in values.iter().enumerate() {
            if at >= paths.len() {
                return Ok(());
            }
            self.keys(alloc, &paths[at])?;
            self.expression(alloc, value)?;
        }
        Ok(())
    }

    /// The fields of a record and their expressions.
    #[cycle(walk)]
    fn fields(&mut self, alloc: Global, node: &'a Node) -> Result<(), Memory>
        ensures { OnOk result (book_of self.new
            ≡ spec.field_names [] (parts_in node.now) (book_of self.old)) }
    {
        let parts = node.parts.as_slice();
        let mut seen = IndexSet::new(alloc);
        let mut at = 0;
        while at < parts.len() {
            if at + 1 == parts.len() {
                return Ok(());
            }
            self.field(alloc, &mut seen, &parts[at])?;
            self.expression(alloc, &parts[at + 1])?;
            at += 2;
        }
        Ok(())
    }

    /// An expression, where the operands of an operator are walked already.
    #[cycle(walk)]
    fn visit(&mut self, alloc: Global, node: &'a Node) -> Result<(), Memory>
        ensures { OnOk result (book_of self.new
            ≡ visit.visited (book_of self.old) (term_of node.now)) }
    {
        match &node.form {
            Form::Prefix(sign) => self.prefix(alloc, sign.bytes(), node.place),
            Form::Infix(sign) => self.infix(alloc, sign.bytes(), node.place),
            Form::Prime => Ok(()),
            Form::Index => Ok(()),
            Form::Field(_) => Ok(()),
            Form::Name(name) => self.application(alloc, name.bytes(), node),
            Form::Call(name) => self.application(alloc, name.bytes(), node),
            Form::Filter(name) => self.binder(alloc, name.bytes(), node),
            Form::Image(name) => self.binder(alloc, name.bytes(), node),
            Form::Function(name) => self.binder(alloc, name.bytes(), node),
            Form::Record(_) => self.fields(alloc, node),
            Form::RecordSet(_) => self.fields(alloc, node),
            Form::Except(_) => self.except(alloc, node),
            Form::Quant { all: _, groups } => {
                self.domains(alloc, groups.as_slice())?;
                let mark = self.mark();
                self.bind_groups(alloc, EntrySort::Bound, groups.as_slice())?;
                self.inside(alloc, mark, node)
            }
            Form::Choose(group) => {
                self.domain(alloc, group)?;
                let mark = self.mark();
                self.bind_group(alloc, EntrySort::Bound, group)?;
                self.inside(alloc, mark, node)
            }
            Form::Let(defs) => {
                let mark = self.mark();
                self.definitions(alloc, defs.as_slice())?;
                self.inside(alloc, mark, node)
            }
            _ => self.all(alloc, node.parts.as_slice()),
        }
    }

    /// The names of an expression. Operators are walked by a loop, since they nest as deep as a text is long.
    #[cycle(walk)]
    pub fn expression(&mut self, alloc: Global, node: &'a Node) -> Result<(), Memory>
        ensures { OnOk result (book_of self.new
            ≡ spec.names (term_of node.now) (book_of self.old)) }
    {
        let nodes = operator_order(alloc, node)?;
        for node in nodes.as_slice() {
            self.visit(alloc, *node)?;
        }
        Ok(())
    }
}
