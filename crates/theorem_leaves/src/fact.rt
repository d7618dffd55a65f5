//! Facts and names of definitions after BY, USE and HIDE.

ghost use Rattle.std.specs.Prelude.{◌≡◌, ◌++◌, ◌∷◌, [], map, IfOk, OnOk};
ghost use Rattle.std.specs.Option.{option_to_list};
ghost use Rattle.symbol_table.specs.Symbols.{symbol_at};
ghost use Rattle.symbol_table.specs.Scoped.{entry_of};
ghost use Rattle.plain_syntax.specs.Syntax as syntax;
ghost use Rattle.known_facts.specs.Shown as shown;
ghost use Rattle.usable_facts.specs.Proofs as spec;
ghost use Rattle.theorem_leaves.specs.Homes.{means, entries, no_steps};

use crate::home::Home;
use crate::key::{entry_key, step_key};
use core_expr::Memory;
use known_facts::Fact;
use proof_outline::Outline;
use sqlite_items::Items;
use symbol_table::EntrySort;
use tla_ast::{Decl, Fact as Source, Form, Node, Place};

/// Whether what is declared so is the name of a fact.
fn is_fact(sort: EntrySort) -> bool
    ensures { result ≡ spec.is_fact sort }
{
    match sort {
        EntrySort::Assume => true,
        EntrySort::Theorem => true,
        EntrySort::Pragma => true,
        _ => false,
    }
}

impl Home<'_> {
    /// Whether a number is that of a fact's name.
    fn declares_fact(&self, number: u64) -> bool
        ensures { result ≡ spec.is_fact (entry_of (entries self.now) number).sort }
    {
        match self.scoped.entry(number) {
            Some(entry) => is_fact(entry.sort),
            None => false,
        }
    }

    /// The number of the fact that the name at a place means, if it means one.
    fn fact_at(&self, place: Place) -> Option<u64>
        ensures { result ≡ spec.if_fact (means self.now) no_steps (entries self.now)
            (means self.now place) }
    {
        let number = self.meaning(place)?;
        if self.declares_fact(number) {
            Some(number)
        } else {
            None
        }
    }

    /// The number of a fact's name, where an expression is no more than one.
    #[tactic(auto, using(crate::proofs::Facts::is_fact_name, crate::proofs::Facts::is_no_name, crate::proofs::Facts::is_over))]
    fn fact_name(&self, node: &Node) -> Option<u64>
        ensures { result ≡ spec.fact_name (means self.now) no_steps (entries self.now)
            (syntax.term_of node.now) }
    {
        match &node.form {
            Form::Name(_) => {
                if node.parts.is_empty() {
                    self.fact_at(node.place)
                } else {
                    None
                }
            }
            _ => None,
        }
    }

    /// An expression as a fact: cited, where it is no more than a fact's name.
    fn by_term(&self, place: Place, node: &Node) -> Result<Fact, Memory>
        ensures { IfOk result (λ f. shown.fact_of f ≡ spec.by_term (means self.now) no_steps
            (entries self.now) (spec.fact_name (means self.now) no_steps (entries self.now)
            (syntax.term_of node.now)) place (syntax.term_of node.now)) }
    {
        match self.fact_name(node) {
            Some(number) => Ok(Fact::Cited(entry_key(number)?)),
            None => Ok(Fact::Plain(place, self.core(node)?)),
        }
    }

    /// Appends a fact of BY or USE.
    fn push_fact(
        &self,
        outline: &Outline,
        found: &mut Items<Fact>,
        fact: &Source,
    ) -> Result<(), Memory>
        ensures { OnOk result (shown.facts_of found.new ≡ shown.facts_of found.old
            ++ spec.facts (means self.now) (symbol_at outline.now) (entries self.now)
            (syntax.fact_of fact.now ∷ [])) }
    {
        match fact {
            Source::StepName {
                level: _,
                label: _,
                place,
            } => {
                if let Some(number) = outline.cite(*place) {
                    found.push(Fact::Cited(step_key(number)?))?;
                }
                Ok(())
            }
            Source::Plain { place, node } => {
                found.push(self.by_term(*place, node)?)?;
                Ok(())
            }
        }
    }

    /// Facts of BY and USE over cores.
    #[tactic(auto, using(crate::proofs::Facts::facts_first))]
    pub fn facts(&self, outline: &Outline, facts: &[Source]) -> Result<Items<Fact>, Memory>
        ensures { IfOk result (λ fs. shown.facts_of fs ≡ spec.facts (means self.now)
            (symbol_at outline.now) (entries self.now) (map syntax.fact_of facts.now)) }
    {
        let mut found = Items::new(self.alloc);
        for fact in facts {
            self.push_fact(outline, &mut found, fact)?;
        }
        Ok(found)
    }

    /// The number by which HIDE names a fact.
    fn hidden_key(&self, outline: &Outline, fact: &Source) -> Result<Option<u64>, Memory>
        ensures { IfOk result (λ k. option_to_list k ≡ spec.hidden (means self.now)
            (symbol_at outline.now) (entries self.now) (syntax.fact_of fact.now ∷ [])) }
    {
        match fact {
            Source::StepName {
                level: _,
                label: _,
                place,
            } => match outline.cite(*place) {
                Some(number) => Ok(Some(step_key(number)?)),
                None => Ok(None),
            },
            Source::Plain { place: _, node } => match self.fact_name(node) {
                Some(number) => Ok(Some(entry_key(number)?)),
                None => Ok(None),
            },
        }
    }

    /// The numbers by which HIDE names facts.
    #[tactic(auto, using(crate::proofs::Facts::hidden_first))]
    pub fn hidden(&self, outline: &Outline, facts: &[Source]) -> Result<Items<u64>, Memory>
        ensures { IfOk result (λ ns. ns ≡ spec.hidden (means self.now)
            (symbol_at outline.now) (entries self.now) (map syntax.fact_of facts.now)) }
    {
        let mut found = Items::new(self.alloc);
        for fact in facts {
            if let Some(key) = self.hidden_key(outline, fact)? {
                found.push(key)?;
            }
        }
        Ok(found)
    }

    /// The numbers of names after DEF.
    pub fn numbers(&self, names: &[Decl]) -> Result<Items<u64>, Memory>
        ensures { IfOk result (λ ns. ns
            ≡ spec.definitions (means self.now) no_steps (entries self.now) names.now) }
    {
        let mut found = Items::new(self.alloc);
        for name in names {
            if let Some(number) = self.meaning(name.place) {
                found.push(number)?;
            }
        }
        Ok(found)
    }
}
