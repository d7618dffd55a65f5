//! What units add to what is known.

ghost use Rattle.std.specs.Prelude.{◌≡◌, IfOk, OnOk};
ghost use Rattle.plain_syntax.specs.Syntax as syntax;
ghost use Rattle.proof_contexts.specs.Contexts.{add};
ghost use Rattle.proof_contexts.specs.Theorems.{entry_of};
ghost use Rattle.known_facts.specs.Shown.{context_of};
ghost use Rattle.usable_facts.specs.Theorems as spec;
ghost use Rattle.theorem_leaves.specs.Homes.{means, entries};
ghost use Rattle.theorem_leaves.specs.Additions.{known_of, adds_of};

use crate::home::Home;
use crate::key::entry_key;
use core_expr::{Expr, Memory};
use known_facts::{Context, fact_of};
use std::alloc::Global;
use tla_ast::{Decl, Statement, UnitKind};

/// What is known before a theorem, over cores.
#[derive(Debug, Drop)]
pub enum Known {
    /// The formula of an ASSUME, with the number by which it is cited if it has a name.
    Assumption(Option<u64>, Expr),
    /// The fact of an earlier theorem with a name, with the number by which it is cited.
    Earlier(u64, Expr),
}

impl Home<'_> {
    /// The fact of a statement.
    fn statement_fact(&self, statement: &Statement) -> Result<Expr, Memory>
        ensures { IfOk result (λ e. e ≡ spec.statement_fact (entries self.now) (means self.now)
            (syntax.statement_of statement.now)) }
    {
        let statement = self.statement(statement)?;
        fact_of(self.alloc, statement.items.as_slice(), &statement.goal)
    }

    /// What a theorem adds to what is known: its fact, where it has a name.
    fn theorem_adds(
        &self,
        name: &Option<Decl>,
        statement: &Statement,
    ) -> Result<Option<Known>, Memory>
        ensures { IfOk result (λ o. adds_of o
            ≡ spec.earlier (spec.number_of (means self.now) name.now)
            (spec.statement_fact (entries self.now) (means self.now)
            (syntax.statement_of statement.now))) }
    {
        match self.number_of(name) {
            Some(number) => {
                let key = entry_key(number)?;
                Ok(Some(Known::Earlier(key, self.statement_fact(statement)?)))
            }
            None => Ok(None),
        }
    }

    /// What a unit adds to what is known: its assumption, or the fact of its theorem where it has a name.
    pub fn unit_adds(&self, kind: &UnitKind) -> Result<Option<Known>, Memory>
        ensures { IfOk result (λ o. adds_of o
            ≡ spec.unit_adds (entries self.now) (means self.now) (syntax.kind_of kind.now)) }
    {
        match kind {
            UnitKind::Assume { name, body } => {
                let key = self.name_key(name)?;
                Ok(Some(Known::Assumption(key, self.core(body)?)))
            }
            UnitKind::Theorem {
                name,
                statement,
                proof: _,
            } => self.theorem_adds(name, statement),
            _ => Ok(None),
        }
    }
}

impl Known {
    /// One more known fact of a context: usable where it is an assumption without a name.
    pub fn tell(&self, alloc: Global, context: &mut Context) -> Result<(), Memory>
        ensures { OnOk result (context_of context.new
            ≡ add (context_of context.old) (entry_of (known_of self.now))) }
    {
        match self {
            Known::Assumption(label, formula) => {
                context.tell(alloc, *label, formula.copy(alloc)?)
            }
            Known::Earlier(key, formula) => context.tell(alloc, Some(*key), formula.copy(alloc)?),
        }
    }
}
