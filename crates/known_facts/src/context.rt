//! Contexts: what is known at a place of a proof.

ghost use Rattle.std.specs.Prelude.{◌≡◌, ◌++◌, [], ◌∷◌, length, take, map, IfOk, OnOk};
ghost use Rattle.proof_contexts.specs.Contexts as contexts;
ghost use Rattle.known_facts.specs.Shown.{items_of, facts_of, context_of};
ghost use Rattle.known_facts.specs.Grown.{Grown, IsSaved};

use crate::fact::Fact;
use crate::item::Item;
use crate::known::{
    Known, cited_facts, hide_marks, is_among, restore_states, states, usable_facts, use_facts,
};
use core_expr::{Expr, Memory};
use sqlite_items::Items;
use std::alloc::Global;
use std::mem;

/// What is known at a place of a proof: the known facts in order, the numbers of the usable definitions, and the goal. The known facts
/// stand in one list, from which a subproof's facts are taken off again.
#[derive(Drop)]
pub struct Context {
    known: Vec<Known>,
    defs: Vec<u64>,
    goal: Expr,
}

/// What a proof by steps may change: which facts are usable, by how many marks they are found, the usable definitions, and the goal.
#[derive(Drop)]
pub struct Saved {
    states: Vec<(bool, u64)>,
    defs: Vec<u64>,
    goal: Expr,
}

impl Context {
    /// Nothing is known.
    pub fn new(alloc: Global, goal: Expr) -> Context
        ensures { context_of result ≡ record { known = []; defs = []; goal = goal } }
    {
        Context {
            known: Vec::new(alloc),
            defs: Vec::new(alloc),
            goal,
        }
    }

    /// The goal.
    pub fn goal(&self) -> &Expr
        ensures { result.now ≡ (context_of self.now).goal }
    {
        &self.goal
    }

    /// The numbers of the usable definitions.
    pub fn definitions(&self) -> &[u64]
        ensures { result.now ≡ (context_of self.now).defs }
    {
        self.defs.as_slice()
    }

    /// Puts the usable facts behind others.
    pub fn usable(&self, alloc: Global, found: &mut Items<Expr>) -> Result<(), Memory>
        ensures { OnOk result (found.new
            ≡ found.old ++ contexts.usable_of (context_of self.now).known) }
    {
        usable_facts(alloc, self.known.as_slice(), found)?;
        Ok(())
    }

    /// Puts what facts after BY give behind others: the facts of each name, and each expression.
    pub fn cited(
        &self,
        alloc: Global,
        facts: &[Fact],
        found: &mut Items<Expr>,
    ) -> Result<(), Memory>
        ensures { OnOk result (found.new
            ≡ found.old ++ contexts.cited_of (context_of self.now).known (facts_of facts.now)) }
    {
        cited_facts(alloc, self.known.as_slice(), facts, found)?;
        Ok(())
    }

    /// How many facts are known.
    pub fn mark(&self) -> usize
        ensures { result ≡ length (context_of self.now).known }
    {
        self.known.len()
    }

    /// Only so many of the oldest facts are known.
    pub fn leave(&mut self, mark: usize)
        ensures { context_of self.new ≡ contexts.with_known (context_of self.old)
            (take mark (context_of self.old).known) }
    {
        self.known.truncate(mark);
    }

    /// Another goal; gives the one before.
    pub fn replace_goal(&mut self, goal: Expr) -> Expr
        ensures goal { context_of self.new ≡ contexts.with_goal (context_of self.old) goal }
        ensures before { result ≡ (context_of self.old).goal }
    {
        mem::replace(&mut self.goal, goal)
    }

    /// One more fact of a step: usable where the step has no label.
    pub fn tell(&mut self, alloc: Global, label: Option<u64>, formula: Expr) -> Result<(), Memory>
        ensures { OnOk result (context_of self.new
            ≡ contexts.add (context_of self.old) (contexts.told label formula)) }
    {
        self.known.push(Known::told(alloc, label, formula)?)?;
        Ok(())
    }

    /// One more fact of a step that is usable.
    pub fn tell_usable(
        &mut self,
        alloc: Global,
        label: Option<u64>,
        formula: Expr,
    ) -> Result<(), Memory>
        ensures { OnOk result (context_of self.new
            ≡ contexts.add (context_of self.old) (contexts.usable label formula)) }
    {
        self.known.push(Known::usable(alloc, label, formula)?)?;
        Ok(())
    }

    /// The domain or the assumption of an item.
    fn tell_item(&mut self, alloc: Global, label: Option<u64>, item: &Item) -> Result<(), Memory>
        ensures { OnOk result (context_of self.new
            ≡ contexts.with_items label (items_of (item.now ∷ [])) (context_of self.old)) }
    {
        match item {
            Item::New(_) => Ok(()),
            Item::NewIn(x, set) => {
                let domain = x.within(alloc, set)?;
                self.tell_usable(alloc, label, domain)?;
                Ok(())
            }
            Item::Given(a) => {
                let a = a.copy(alloc)?;
                self.tell(alloc, label, a)?;
                Ok(())
            }
        }
    }

    /// The domains and assumptions of items.
    pub fn tell_items(
        &mut self,
        alloc: Global,
        label: Option<u64>,
        items: &[Item],
    ) -> Result<(), Memory>
        ensures { OnOk result (context_of self.new
            ≡ contexts.with_items label (items_of items.now) (context_of self.old)) }
    {
        for item in items {
            self.tell_item(alloc, label, item)?;
        }
        Ok(())
    }
}

impl Context {
    /// DEFINE: further usable definitions, by their numbers.
    pub fn define(&mut self, numbers: &[u64]) -> Result<(), Memory>
        ensures { OnOk result (context_of self.new ≡ contexts.with_defs (context_of self.old)
            ((context_of self.old).defs ++ numbers.now)) }
    {
        self.defs.extend_from_slice(numbers)?;
        Ok(())
    }

    /// USE: the facts and the definitions become usable.
    #[tactic(auto, using(crate::proofs::Growing::use_grows))]
    pub fn use_all(
        &mut self,
        alloc: Global,
        label: Option<u64>,
        facts: &[Fact],
        numbers: &[u64],
    ) -> Result<(), Memory>
        ensures used { OnOk result (context_of self.new ≡ contexts.with_defs
            (contexts.with_known (context_of self.old)
            (contexts.use_facts label (facts_of facts.now) (context_of self.old).known))
            ((context_of self.old).defs ++ numbers.now)) }
        ensures grown { OnOk result
            (Grown (context_of self.old).known (context_of self.new).known) }
    {
        use_facts(alloc, &mut self.known, label, facts)?;
        self.define(numbers)?;
        Ok(())
    }

    /// HIDE: what these names mark, and these definitions, are not usable any more.
    #[tactic(auto, using(crate::proofs::Growing::hide_grows))]
    pub fn hide(&mut self, alloc: Global, marks: &[u64], numbers: &[u64]) -> Result<(), Memory>
        ensures hidden { OnOk result (context_of self.new ≡ contexts.with_defs
            (contexts.with_known (context_of self.old)
            (map (contexts.hidden marks.now) (context_of self.old).known))
            (contexts.without numbers.now (context_of self.old).defs)) }
        ensures grown { OnOk result
            (Grown (context_of self.old).known (context_of self.new).known) }
    {
        hide_marks(&mut self.known, marks);
        self.defs = others(alloc, self.defs.as_slice(), numbers)?;
        Ok(())
    }
}

impl Context {
    /// What a proof by steps may change.
    pub fn save(&self, alloc: Global) -> Result<Saved, Memory>
        ensures { IfOk result (λ s. IsSaved s (context_of self.now)) }
    {
        Ok(Saved {
            states: states(alloc, self.known.as_slice())?,
            defs: Vec::from_slice(alloc, self.defs.as_slice())?,
            goal: self.goal.copy(alloc)?,
        })
    }

    /// Makes the context what it was when this was saved, where facts alone were told, used and hidden since.
    #[tactic(auto, using(crate::proofs::Growing::restored_is))]
    pub fn restore(&mut self, saved: Saved)
        ensures { (c : contexts.Context) → IsSaved saved c
            → Grown c.known (context_of self.old).known → context_of self.new ≡ c }
    {
        let Saved { states, defs, goal } = saved;
        restore_states(&mut self.known, states.as_slice());
        self.defs = defs;
        self.goal = goal;
    }
}

/// The numbers that are none of these.
fn others(alloc: Global, numbers: &[u64], these: &[u64]) -> Result<Vec<u64>, Memory>
    ensures { IfOk result (λ v. v.items ≡ contexts.without these.now numbers.now) }
{
    let mut found = Vec::new(alloc);
    for number in numbers {
        if !is_among(these, *number) {
            found.push(*number)?;
        }
    }
    Ok(found)
}
