//! The units of a module.

ghost use Rattle.std.specs.Prelude.{◌≡◌, map, OnOk};
ghost use Rattle.plain_syntax.specs.Syntax.{unit_of, term_of, statement_of, proof_of};
ghost use Rattle.module_scope.specs.Known.{book_of};
ghost use Rattle.module_scope.specs.Names as spec;

use crate::walker::Walker;
use core_expr::Memory;
use std::alloc::Global;
use symbol_table::EntrySort;
use tla_ast::{Decl, Kind, Node, Place, Proof, Statement, Unit, UnitKind};

impl<'a> Walker<'a> {
    /// Declarations of names that may have parameters.
    fn declare_all(
        &mut self,
        alloc: Global,
        sort: EntrySort,
        level: u64,
        decls: &'a [Decl],
    ) -> Result<(), Memory>
        ensures { OnOk result (book_of self.new
            ≡ spec.each (spec.declare sort level) decls.now (book_of self.old)) }
    {
        for decl in decls {
            self.declare(alloc, sort, level, decl)?;
        }
        Ok(())
    }

    /// The name of a fact, which is not declared again.
    fn fresh_name(&mut self, alloc: Global, name: &Option<Decl>) -> Result<(), Memory>
        ensures { OnOk result (book_of self.new ≡ spec.fresh_name name.now (book_of self.old)) }
    {
        match name {
            None => Ok(()),
            Some(decl) => self.fresh(alloc, decl.name.bytes(), decl.place),
        }
    }

    /// The name of a fact from then on.
    fn fact_name(
        &mut self,
        alloc: Global,
        sort: EntrySort,
        name: &'a Option<Decl>,
    ) -> Result<(), Memory>
        ensures { OnOk result (book_of self.new ≡ spec.fact_name sort name.now (book_of self.old)) }
    {
        match name {
            None => Ok(()),
            Some(decl) => self.enter(alloc, sort, 0, 0, decl.name.bytes(), decl.place),
        }
    }

    /// An assumption is on level 0.
    fn assumed(&mut self, alloc: Global, place: Place, node: &Node) -> Result<(), Memory>
        ensures { OnOk result (book_of self.new
            ≡ spec.assumed place (term_of node.now) (book_of self.old)) }
    {
        let judged = self.levels.judge(alloc, &self.symbols, node)?;
        if judged.level == 0 {
            return Ok(());
        }
        self.refuse(place, Kind::AssumeLevel)
    }

    /// An ASSUME unit.
    fn assumption(
        &mut self,
        alloc: Global,
        place: Place,
        name: &'a Option<Decl>,
        node: &'a Node,
    ) -> Result<(), Memory>
        ensures { OnOk result (book_of self.new
            ≡ spec.assumption place name.now (term_of node.now) (book_of self.old)) }
    {
        self.fresh_name(alloc, name)?;
        self.alone(alloc, node)?;
        self.assumed(alloc, place, node)?;
        self.fact_name(alloc, EntrySort::Assume, name)
    }

    /// A theorem. What its statement and its proof declare is not seen after it.
    fn theorem(
        &mut self,
        alloc: Global,
        name: &'a Option<Decl>,
        statement: &'a Statement,
        proof: &'a Proof,
    ) -> Result<(), Memory>
        ensures { OnOk result (book_of self.new
            ≡ spec.theorem name.now (statement_of statement.now) (proof_of proof.now)
            (book_of self.old)) }
    {
        self.fresh_name(alloc, name)?;
        let mark = self.mark();
        self.statement(alloc, statement)?;
        self.proof(alloc, proof)?;
        self.leave(mark);
        self.fact_name(alloc, EntrySort::Theorem, name)
    }

    /// A unit.
    fn unit(&mut self, alloc: Global, unit: &'a Unit) -> Result<(), Memory>
        ensures { OnOk result (book_of self.new ≡ spec.unit (unit_of unit.now) (book_of self.old)) }
    {
        match &unit.kind {
            UnitKind::Constants(decls) => self.declare_all(
                alloc,
                EntrySort::Constant,
                0,
                decls.as_slice(),
            ),
            UnitKind::Variables(decls) => self.declare_all(
                alloc,
                EntrySort::State,
                1,
                decls.as_slice(),
            ),
            UnitKind::Assume { name, body } => self.assumption(alloc, unit.place, name, body),
            UnitKind::Define(def) => self.define_one(alloc, def),
            UnitKind::Theorem {
                name,
                statement,
                proof,
            } => self.theorem(alloc, name, statement, proof),
        }
    }

    /// Units, one after another.
    pub fn units(&mut self, alloc: Global, units: &'a [Unit]) -> Result<(), Memory>
        ensures { OnOk result (book_of self.new
            ≡ spec.each spec.unit (map unit_of units.now) (book_of self.old)) }
    {
        for unit in units {
            self.unit(alloc, unit)?;
        }
        Ok(())
    }
}
