//! Known facts.

ghost use Rattle.std.specs.Prelude.{◌≡◌, ◌++◌, [], ◌∷◌, ◌<◌, length, slice_index_or, take, map, IfOk, OnOk};
ghost use Rattle.proof_contexts.specs.Expansion.{has_number};
ghost use Rattle.proof_contexts.specs.Contexts as contexts;
ghost use Rattle.known_facts.specs.Shown.{entry_of, entries_of, facts_of};
ghost use Rattle.known_facts.specs.Grown as grown;

use crate::fact::Fact;
use core_expr::{Expr, Memory};
use sqlite_items::Items;
use std::alloc::Global;

/// A known fact: the name that gives it where it is cited, the marks by which USE and HIDE find it, and whether it is usable.
#[derive(Debug, Drop)]
pub(crate) struct Known {
    formula: Expr,
    key: Option<u64>,
    marks: Vec<u64>,
    usable: bool,
}

/// Whether a number is among others.
pub(crate) fn is_among(numbers: &[u64], number: u64) -> bool
    ensures { result ≡ has_number numbers.now number }
{
    for other in numbers {
        if *other == number {
            return true;
        }
    }
    false
}

/// Whether one of these numbers is among others.
fn any_among(these: &[u64], numbers: &[u64]) -> bool
    ensures { result ≡ contexts.has_any these.now numbers.now }
{
    for number in these {
        if is_among(numbers, *number) {
            return true;
        }
    }
    false
}

/// The name of a step as a list, if it has a label.
fn names(alloc: Global, label: Option<u64>) -> Result<Vec<u64>, Memory>
    ensures { IfOk result (λ n. n.items ≡ contexts.names_of label) }
{
    match label {
        Some(key) => Ok(vec![in alloc; key]?),
        None => Ok(Vec::new(alloc)),
    }
}

impl Known {
    /// A fact of a step: usable where the step has no label.
    pub(crate) fn told(alloc: Global, label: Option<u64>, formula: Expr) -> Result<Known, Memory>
        ensures { IfOk result (λ k. entry_of k ≡ contexts.told label formula) }
    {
        Ok(Known {
            formula,
            key: label,
            marks: names(alloc, label)?,
            usable: label.is_none(),
        })
    }

    /// A fact of a step that is usable.
    pub(crate) fn usable(alloc: Global, label: Option<u64>, formula: Expr) -> Result<Known, Memory>
        ensures { IfOk result (λ k. entry_of k ≡ contexts.usable label formula) }
    {
        Ok(Known {
            formula,
            key: label,
            marks: names(alloc, label)?,
            usable: true,
        })
    }

    /// Makes the fact usable, and found by this step's name, where it has the mark.
    fn use_by(&mut self, label: Option<u64>, mark: u64) -> Result<(), Memory>
        ensures { OnOk result (entry_of self.new ≡ contexts.used label mark (entry_of self.old)) }
    {
        if !is_among(self.marks.as_slice(), mark) {
            return Ok(());
        }
        self.usable = true;
        if let Some(key) = label {
            self.marks.push(key)?;
        }
        Ok(())
    }

    /// Whether the fact is usable, and how many marks it has.
    fn state(&self) -> (bool, u64)
        ensures { result ≡ grown.state_of (entry_of self.now) }
    {
        (self.usable, self.marks.len() as u64)
    }

    /// Makes the fact usable or not, with so many of its oldest marks.
    fn restore(&mut self, state: (bool, u64))
        ensures { entry_of self.new ≡ grown.restored_one state (entry_of self.old) }
    {
        self.usable = state.0;
        self.marks.truncate(state.1 as usize);
    }

    /// Makes the fact not usable, where it has one of these marks.
    fn hide_by(&mut self, marks: &[u64])
        ensures { entry_of self.new ≡ contexts.hidden marks.now (entry_of self.old) }
    {
        if any_among(marks, self.marks.as_slice()) {
            self.usable = false;
        }
    }
}

/// Makes what a name marks usable, and found by this step's name.
fn use_mark(known: &mut Vec<Known>, label: Option<u64>, mark: u64) -> Result<(), Memory>
    ensures { OnOk result (entries_of known.new.items
        ≡ map (contexts.used label mark) (entries_of known.old.items)) }
{
    for i in 0..known.len() {
        known[i].use_by(label, mark)?;
    }
    Ok(())
}

/// Makes what one of these names marks not usable.
pub(crate) fn hide_marks(known: &mut Vec<Known>, marks: &[u64])
    ensures { entries_of known.new.items
        ≡ map (contexts.hidden marks.now) (entries_of known.old.items) }
{
    for i in 0..known.len() {
        known[i].hide_by(marks);
    }
}

/// Puts the formulas that a name gives behind others.
pub(crate) fn name_facts(
    alloc: Global,
    known: &[Known],
    key: u64,
    found: &mut Items<Expr>,
) -> Result<(), Memory>
    ensures { OnOk result (found.new ≡ found.old ++ contexts.named key (entries_of known.now)) }
{
    for fact in known {
        if fact.key == Some(key) {
            found.push(fact.formula.copy(alloc)?)?;
        }
    }
    Ok(())
}

/// Puts the usable formulas behind others.
pub(crate) fn usable_facts(
    alloc: Global,
    known: &[Known],
    found: &mut Items<Expr>,
) -> Result<(), Memory>
    ensures { OnOk result (found.new ≡ found.old ++ contexts.usable_of (entries_of known.now)) }
{
    for fact in known {
        if fact.usable {
            found.push(fact.formula.copy(alloc)?)?;
        }
    }
    Ok(())
}

/// Puts the formulas of facts after BY behind others: what each name gives, and each expression.
pub(crate) fn cited_facts(
    alloc: Global,
    known: &[Known],
    facts: &[Fact],
    found: &mut Items<Expr>,
) -> Result<(), Memory>
    ensures { OnOk result (found.new
        ≡ found.old ++ contexts.cited_of (entries_of known.now) (facts_of facts.now)) }
{
    for fact in facts {
        match fact {
            Fact::Cited(key) => name_facts(alloc, known, *key, found)?,
            Fact::Plain(_, formula) => found.push(formula.copy(alloc)?)?,
        }
    }
    Ok(())
}

/// Gives formulas that are known the name of a USE step too.
fn add_aliases(
    alloc: Global,
    known: &mut Vec<Known>,
    label: Option<u64>,
    formulas: &[Expr],
) -> Result<(), Memory>
    ensures { OnOk result (entries_of known.new.items
        ≡ entries_of known.old.items ++ contexts.aliases label formulas.now) }
{
    let Some(_) = label else {
        return Ok(());
    };
    for formula in formulas {
        let formula = formula.copy(alloc)?;
        known.push(Known {
            formula,
            key: label,
            marks: Vec::new(alloc),
            usable: false,
        })?;
    }
    Ok(())
}

/// The known facts after USE of a fact.
fn use_fact(
    alloc: Global,
    known: &mut Vec<Known>,
    label: Option<u64>,
    fact: &Fact,
) -> Result<(), Memory>
    ensures { OnOk result (entries_of known.new.items
        ≡ contexts.use_facts label (facts_of (fact.now ∷ [])) (entries_of known.old.items)) }
{
    match fact {
        Fact::Cited(key) => {
            let mut named = Items::new(alloc);
            name_facts(alloc, known.as_slice(), *key, &mut named)?;
            use_mark(known, label, *key)?;
            add_aliases(alloc, known, label, named.as_slice())?;
            Ok(())
        }
        Fact::Plain(_, formula) => {
            let formula = formula.copy(alloc)?;
            known.push(Known::usable(alloc, label, formula)?)?;
            Ok(())
        }
    }
}

/// The known facts after USE of facts: a name makes its facts usable where they stand, an expression is a further fact.
pub(crate) fn use_facts(
    alloc: Global,
    known: &mut Vec<Known>,
    label: Option<u64>,
    facts: &[Fact],
) -> Result<(), Memory>
    ensures { OnOk result (entries_of known.new.items
        ≡ contexts.use_facts label (facts_of facts.now) (entries_of known.old.items)) }
{
    for fact in facts {
        use_fact(alloc, known, label, fact)?;
    }
    Ok(())
}

/// Which of the known facts are usable, and how many marks each has.
pub(crate) fn states(alloc: Global, known: &[Known]) -> Result<Vec<(bool, u64)>, Memory>
    ensures { IfOk result (λ v. v.items ≡ grown.states_of (entries_of known.now)) }
{
    let mut found = Vec::new(alloc);
    for fact in known {
        found.push(fact.state())?;
    }
    Ok(found)
}

/// What was noted of the fact at a place.
fn state_at(states: &[(bool, u64)], i: usize) -> (bool, u64)
    requires { i < length states.now }
    ensures { result ≡ slice_index_or states.now i result }
{
    states[i]
}

/// Makes so many of the oldest known facts what they were, and gives up the others.
pub(crate) fn restore_states(known: &mut Vec<Known>, states: &[(bool, u64)])
    ensures { entries_of known.new.items
        ≡ grown.restored states.now (take (length states.now) (entries_of known.old.items)) }
{
    known.truncate(states.len());
    for i in 0..known.len() {
        known[i].restore(state_at(states, i));
    }
}
