//! Statements.

ghost use Rattle.std.specs.Prelude.{◌≡◌, ◌++◌, ◌∷◌, [], map, IfOk, OnOk};
ghost use Rattle.core_expr.specs.declared.head.SymKind.TheVariants as kinds;
ghost use Rattle.proof_contexts.specs.Steps.{Item as stated};
ghost use Rattle.tla_ast.specs.declared.unit.Sort.TheVariants as sorts;
ghost use Rattle.plain_syntax.specs.Syntax as syntax;
ghost use Rattle.known_facts.specs.Shown as shown;
ghost use Rattle.usable_facts.specs.Proofs as spec;
ghost use Rattle.theorem_leaves.specs.Homes.{means, entries};
ghost use Rattle.theorem_leaves.specs.Moves.{numbered};

use crate::home::Home;
use core_expr::{Expr, Memory, SymKind};
use known_facts::{Item, NewSymbol, Statement};
use sqlite_items::{Boxed, Items};
use tla_ast::{Decl, Item as SourceItem, Node, Sort, Statement as Source};

impl Home<'_> {
    /// A new symbol; its number is 0 where the text was not resolved.
    pub(crate) fn symbol(&self, kind: SymKind, name: &Decl) -> NewSymbol
        ensures new { result ≡ numbered kind (means self.now name.now.place) }
        ensures symbol { shown.sym_of result ≡ spec.symbol kind (means self.now name.now.place) }
    {
        match self.meaning(name.place) {
            Some(number) => NewSymbol { kind, number },
            None => NewSymbol { kind, number: 0 },
        }
    }

    /// The core of a set, if there is one.
    pub(crate) fn set(&self, set: &Option<Boxed<Node>>) -> Result<Option<Expr>, Memory>
        ensures { IfOk result (λ s. s
            ≡ spec.domain (means self.now) (entries self.now) (syntax.set_of set.now)) }
    {
        match set {
            Some(node) => Ok(Some(self.core(node.get())?)),
            None => Ok(None),
        }
    }

    /// Appends the item of NEW CONSTANT.
    fn push_constant(
        &self,
        items: &mut Items<Item>,
        name: &Decl,
        set: Option<Expr>,
    ) -> Result<(), Memory>
        ensures { OnOk result (shown.items_of items.new ≡ shown.items_of items.old
            ++ spec.sort_items sorts.Constant (means self.now name.now.place) set) }
    {
        let symbol = self.symbol(SymKind::Constant, name);
        match set {
            Some(set) => items.push(Item::NewIn(symbol, set))?,
            None => items.push(Item::New(symbol))?,
        }
        Ok(())
    }

    /// Appends the two items of NEW VARIABLE or NEW STATE: the name, and the name primed.
    fn push_state(&self, items: &mut Items<Item>, name: &Decl) -> Result<(), Memory>
        ensures { OnOk result (shown.items_of items.new ≡ shown.items_of items.old
            ++ stated.New (spec.symbol kinds.State (means self.now name.now.place))
            ∷ stated.New (spec.symbol kinds.Primed (means self.now name.now.place)) ∷ []) }
    {
        items.push(Item::New(self.symbol(SymKind::State, name)))?;
        items.push(Item::New(self.symbol(SymKind::Primed, name)))?;
        Ok(())
    }

    /// Appends what an item after ASSUME is.
    fn push_item(&self, items: &mut Items<Item>, item: &SourceItem) -> Result<(), Memory>
        ensures { OnOk result (shown.items_of items.new ≡ shown.items_of items.old
            ++ spec.items (means self.now) (entries self.now) (syntax.item_of item.now ∷ [])) }
    {
        match item {
            SourceItem::New {
                sort: Sort::Constant,
                decl,
                domain,
            } => {
                let set = self.set(domain)?;
                self.push_constant(items, decl, set)
            }
            SourceItem::New {
                sort: _,
                decl,
                domain: _,
            } => self.push_state(items, decl),
            SourceItem::Given(node) => {
                items.push(Item::Given(self.core(node)?))?;
                Ok(())
            }
        }
    }

    /// Items after ASSUME over cores.
    #[tactic(auto, using(crate::proofs::Statements::items_first))]
    fn items(&self, items: &[SourceItem]) -> Result<Items<Item>, Memory>
        ensures { IfOk result (λ is. shown.items_of is
            ≡ spec.items (means self.now) (entries self.now) (map syntax.item_of items.now)) }
    {
        let mut found = Items::new(self.alloc);
        for item in items {
            self.push_item(&mut found, item)?;
        }
        Ok(found)
    }

    /// A statement over cores.
    pub fn statement(&self, statement: &Source) -> Result<Statement, Memory>
        ensures { IfOk result (λ s. shown.statement_of s
            ≡ spec.statement (means self.now) (entries self.now)
            (syntax.statement_of statement.now)) }
    {
        let items = self.items(statement.items.as_slice())?;
        let goal = self.core(&statement.goal)?;
        Ok(Statement { items, goal })
    }
}
