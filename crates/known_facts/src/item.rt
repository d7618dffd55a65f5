//! Statements over cores.

ghost use Rattle.std.specs.Prelude.{◌≡◌, IfOk};
ghost use Rattle.core_expr.specs.Tree.{in_};
ghost use Rattle.proof_contexts.specs.Expansion.{abstract, name};
ghost use Rattle.proof_contexts.specs.Contexts as contexts;
ghost use Rattle.known_facts.specs.Shown.{sym_of, item_of, items_of};
ghost use Rattle.known_facts.specs.Binding.{is_all, over, restricted, under, over_items};

use core_expr::{Binder, Expr, Head, Memory, Sym, SymKind};
use expr_parts::abstracted;
use sqlite_items::Items;
use std::alloc::Global;

/// A symbol without arguments: a new name of a statement or of a step.
#[derive(Clone, Copy, Debug)]
pub struct NewSymbol {
    pub kind: SymKind,
    pub number: u64,
}

/// An item after ASSUME, over cores. NEW VARIABLE and NEW STATE are two items, for the name and for the name primed.
#[derive(Debug, Drop)]
pub enum Item {
    /// A new symbol.
    New(NewSymbol),
    /// A new constant of a set.
    NewIn(NewSymbol, Expr),
    /// An assumption.
    Given(Expr),
}

/// What is stated, over cores.
#[derive(Debug, Drop)]
pub struct Statement {
    pub items: Items<Item>,
    pub goal: Expr,
}

impl NewSymbol {
    /// The symbol.
    fn symbol(self) -> Sym
        ensures { result ≡ sym_of self }
    {
        Sym {
            kind: self.kind,
            number: self.number,
            arity: 0,
        }
    }

    /// The symbol as an expression.
    pub fn name(self, alloc: Global) -> Result<Expr, Memory>
        ensures { IfOk result (λ e. e ≡ name (sym_of self)) }
    {
        Expr::symbol(alloc, self.symbol(), Vec::new(alloc))
    }

    /// That the symbol is in a set.
    pub fn within(self, alloc: Global, set: &Expr) -> Result<Expr, Memory>
        ensures { IfOk result (λ e. e ≡ in_ (name (sym_of self)) set.now) }
    {
        let set = set.copy(alloc)?;
        Expr::binary(alloc, Head::In, self.name(alloc)?, set)
    }

    /// The binder over an expression, with its variable for the symbol.
    #[tactic(auto, using(crate::proofs::Binding::abstract_is))]
    fn bound(self, alloc: Global, binder: Quantifier, e: &Expr) -> Result<Expr, Memory>
        ensures { IfOk result (λ r. r ≡ over binder (abstract (sym_of self) e.now)) }
    {
        let body = abstracted(alloc, e, self.symbol())?;
        match binder {
            Quantifier::All => Expr::quantified(alloc, Binder::All, body),
            Quantifier::Exists => Expr::quantified(alloc, Binder::Ex, body),
        }
    }
}

/// A quantifier.
#[derive(Clone, Copy, Debug)]
pub enum Quantifier {
    /// \A.
    All,
    /// \E.
    Exists,
}

impl Quantifier {
    /// Whether it is \A.
    pub(crate) fn is_all(self) -> bool
        ensures { result ≡ is_all self }
    {
        match self {
            Quantifier::All => true,
            Quantifier::Exists => false,
        }
    }

    /// Joins what restricts a name, or an assumption, to what is said under it: by `=>` under \A, by `/\` under \E.
    fn restrict(self, alloc: Global, a: Expr, b: Expr) -> Result<Expr, Memory>
        ensures { IfOk result (λ r. r ≡ restricted self a b) }
    {
        match self {
            Quantifier::All => Expr::binary(alloc, Head::Imp, a, b),
            Quantifier::Exists => Expr::binary(alloc, Head::And, a, b),
        }
    }

    /// What is said under one more item.
    fn under(self, alloc: Global, item: &Item, e: Expr) -> Result<Expr, Memory>
        ensures { IfOk result (λ r. r ≡ under self (item_of item.now) e) }
    {
        match item {
            Item::New(x) => x.bound(alloc, self, &e),
            Item::NewIn(x, set) => {
                let domain = x.within(alloc, set)?;
                let body = self.restrict(alloc, domain, e)?;
                x.bound(alloc, self, &body)
            }
            Item::Given(a) => {
                let a = a.copy(alloc)?;
                self.restrict(alloc, a, e)
            }
        }
    }

    /// What is said under items, from the right.
    fn over(self, alloc: Global, items: &[Item], goal: &Expr) -> Result<Expr, Memory>
        ensures { IfOk result (λ r. r ≡ over_items self (items_of items.now) goal.now) }
    {
        let mut said = goal.copy(alloc)?;
        for i in (0..items.len()).rev() {
            said = self.under(alloc, &items[i], said)?;
        }
        Ok(said)
    }
}

/// The fact of a statement: a binder for each new name, an implication for each assumption and each domain, built from the right.
#[tactic(auto, using(crate::proofs::Binding::fact_is))]
pub fn fact_of(alloc: Global, items: &[Item], goal: &Expr) -> Result<Expr, Memory>
    ensures { IfOk result (λ e. e ≡ contexts.fact_of (items_of items.now) goal.now) }
{
    Quantifier::All.over(alloc, items, goal)
}

/// What PICK shows: that there are values of its names, in their sets, of which the formula holds.
#[tactic(auto, using(crate::proofs::Binding::picked_is))]
pub fn picked(alloc: Global, items: &[Item], goal: &Expr) -> Result<Expr, Memory>
    ensures { IfOk result (λ e. e ≡ contexts.picked (items_of items.now) goal.now) }
{
    Quantifier::Exists.over(alloc, items, goal)
}
