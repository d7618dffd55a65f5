//! Steps.

ghost use Rattle.std.specs.Prelude.{◌≡◌, ℕ, ◌++◌, map, Option, IfOk, OnOk, codes};
ghost use Rattle.symbol_table.specs.Symbols.{symbol_at};
ghost use Rattle.plain_syntax.specs.Syntax.{term_of, move_of, each_def};
ghost use Rattle.prime_expand.specs.Symbols.{is_word};
ghost use Rattle.proof_contexts.specs.Steps.{Proof};
ghost use Rattle.usable_facts.specs.Proofs.{acts, defined};
ghost use Rattle.theorem_leaves.specs.Homes.{means, entries, no_steps};
ghost use Rattle.theorem_leaves.specs.Acts as spec;
ghost use Rattle.theorem_leaves.specs.Moves as moves;

use crate::home::Home;
use core_expr::{Expr, Memory, SymKind};
use known_facts::Item;
use proof_leaves::{Claim, Move};
use proof_outline::Outline;
use sqlite_items::Items;
use tla_ast::{Decl, Def, Form, Group, Node, StepKind};

/// What a step does, over cores.
#[derive(Debug, Drop)]
pub enum Written {
    /// A step that has a proof of its own.
    Claimed(Claim),
    /// Steps without proofs of their own, one after another.
    Moves(Items<Move>),
    /// QED.
    Qed,
}

/// Whether a sign is `\in`.
fn is_in(sign: &[u8]) -> bool
    ensures { result ≡ is_word sign.now (codes "\\in") }
{
    sign == b"\\in".as_slice()
}

/// Two nodes, where there are no more.
fn two(nodes: &[Node]) -> Option<(&Node, &Node)>
    ensures { moves.pair_of result ≡ moves.two nodes.now }
{
    match nodes {
        [a, b] => Some((a, b)),
        _ => None,
    }
}

/// The sides of `\in`, where that is the uppermost operator of an expression.
#[tactic(auto, using(crate::proofs::Moves::are_sides, crate::proofs::Moves::other_sign, crate::proofs::Moves::no_sides))]
fn sides(node: &Node) -> Option<(&Node, &Node)>
    ensures { moves.pair_of result ≡ moves.sides (term_of node.now) }
{
    match &node.form {
        Form::Infix(sign) => {
            if is_in(sign.bytes()) {
                two(node.parts.as_slice())
            } else {
                None
            }
        }
        _ => None,
    }
}

impl Home<'_> {
    /// TAKE of a name.
    fn take(&self, set: &Option<Expr>, name: &Decl) -> Result<Move, Memory>
        ensures { IfOk result (λ m. m ≡ moves.take self.now set.now name.now) }
    {
        let symbol = self.symbol(SymKind::Constant, name);
        match set {
            Some(set) => Ok(Move::TakeIn(symbol, set.copy(self.alloc)?)),
            None => Ok(Move::Take(symbol)),
        }
    }

    /// Appends TAKE of names of one set, or of none.
    fn push_takes(
        &self,
        found: &mut Items<Move>,
        set: &Option<Expr>,
        names: &[Decl],
    ) -> Result<(), Memory>
        ensures { OnOk result (found.new
            ≡ found.old ++ map (moves.take self.now set.now) names.now) }
    {
        for name in names {
            found.push(self.take(set, name)?)?;
        }
        Ok(())
    }

    /// Appends TAKE of the names of a group.
    fn push_group(&self, found: &mut Items<Move>, group: &Group) -> Result<(), Memory>
        ensures { OnOk result (found.new ≡ found.old ++ moves.group_takes self.now group.now) }
    {
        let set = self.set(&group.domain)?;
        self.push_takes(found, &set, group.names.as_slice())?;
        Ok(())
    }

    /// TAKE, a move for each name.
    fn takes(&self, groups: &[Group]) -> Result<Items<Move>, Memory>
        ensures { IfOk result (λ ms. ms ≡ moves.takes self.now groups.now) }
    {
        let mut found = Items::new(self.alloc);
        for group in groups {
            self.push_group(&mut found, group)?;
        }
        Ok(found)
    }

    /// A name that PICK chooses.
    fn choice(&self, set: &Option<Expr>, name: &Decl) -> Result<Item, Memory>
        ensures { IfOk result (λ i. i ≡ moves.choice self.now set.now name.now) }
    {
        let symbol = self.symbol(SymKind::Constant, name);
        match set {
            Some(set) => Ok(Item::NewIn(symbol, set.copy(self.alloc)?)),
            None => Ok(Item::New(symbol)),
        }
    }

    /// Appends names of one set, or of none, that PICK chooses.
    fn push_choices(
        &self,
        found: &mut Items<Item>,
        set: &Option<Expr>,
        names: &[Decl],
    ) -> Result<(), Memory>
        ensures { OnOk result (found.new
            ≡ found.old ++ map (moves.choice self.now set.now) names.now) }
    {
        for name in names {
            found.push(self.choice(set, name)?)?;
        }
        Ok(())
    }

    /// Appends the names of a group that PICK chooses.
    fn push_chosen(&self, found: &mut Items<Item>, group: &Group) -> Result<(), Memory>
        ensures { OnOk result (found.new ≡ found.old ++ moves.group_choices self.now group.now) }
    {
        let set = self.set(&group.domain)?;
        self.push_choices(found, &set, group.names.as_slice())?;
        Ok(())
    }

    /// The names that PICK chooses.
    fn choices(&self, groups: &[Group]) -> Result<Items<Item>, Memory>
        ensures { IfOk result (λ is. is ≡ moves.choices self.now groups.now) }
    {
        let mut found = Items::new(self.alloc);
        for group in groups {
            self.push_chosen(&mut found, group)?;
        }
        Ok(found)
    }

    /// WITNESS of an expression: bounded where its uppermost operator is `\in`.
    fn witness(&self, node: &Node) -> Result<Move, Memory>
        ensures { IfOk result (λ m. m ≡ moves.witness self.now (term_of node.now)) }
    {
        match sides(node) {
            Some((a, b)) => Ok(Move::WitnessIn(self.core(a)?, self.core(b)?)),
            None => Ok(Move::Witness(self.core(node)?)),
        }
    }

    /// WITNESS, a move for each expression.
    fn witnesses(&self, nodes: &[Node]) -> Result<Items<Move>, Memory>
        ensures { IfOk result (λ ms. ms ≡ map (λ n. moves.witness self.now (term_of n)) nodes.now) }
    {
        let mut found = Items::new(self.alloc);
        for node in nodes {
            found.push(self.witness(node)?)?;
        }
        Ok(found)
    }

    /// The numbers of definitions.
    fn defined(&self, defs: &[Def]) -> Result<Items<u64>, Memory>
        ensures { IfOk result (λ ns. ns
            ≡ defined (means self.now) no_steps (entries self.now) (each_def defs.now)) }
    {
        let mut found = Items::new(self.alloc);
        for def in defs {
            if let Some(number) = self.meaning(def.place) {
                found.push(number)?;
            }
        }
        Ok(found)
    }

    /// One move.
    fn one(&self, step: Move) -> Result<Written, Memory>
        ensures { IfOk result (λ w. w ≡ spec.one step) }
    {
        let mut moves = Items::new(self.alloc);
        moves.push(step)?;
        Ok(Written::Moves(moves))
    }

    /// What a step does.
    #[tactic(auto, using(crate::proofs::Moves::witnesses_are))]
    pub fn written(&self, outline: &Outline, kind: &StepKind) -> Result<Written, Memory>
        ensures acts { IfOk result (λ w. (l : Option ℕ) (q : Proof) → spec.acts_of l w q
            ≡ acts (means self.now) (symbol_at outline.now) (entries self.now)
            l (move_of kind.now) q) }
        ensures ends { IfOk result (λ w. spec.is_qed w ≡ spec.ends (move_of kind.now)) }
        ensures claims { IfOk result (λ w. spec.is_claim w ≡ spec.claims (move_of kind.now)) }
    {
        match kind {
            StepKind::Assert(statement) => {
                Ok(Written::Claimed(Claim::Assert(self.statement(statement)?)))
            }
            StepKind::Case(node) => Ok(Written::Claimed(Claim::Case(self.core(node)?))),
            StepKind::Suffices(statement) => {
                Ok(Written::Claimed(Claim::Suffices(self.statement(statement)?)))
            }
            StepKind::Have(node) => self.one(Move::Have(self.core(node)?)),
            StepKind::Take(groups) => Ok(Written::Moves(self.takes(groups.as_slice())?)),
            StepKind::Witness(nodes) => Ok(Written::Moves(self.witnesses(nodes.as_slice())?)),
            StepKind::Pick(groups, node) => {
                let items = self.choices(groups.as_slice())?;
                Ok(Written::Claimed(Claim::Pick(items, self.core(node)?)))
            }
            StepKind::Define(defs) => self.one(Move::Define(self.defined(defs.as_slice())?)),
            StepKind::Add { facts, defs } => {
                let facts = self.facts(outline, facts.as_slice())?;
                self.one(Move::Use(facts, self.numbers(defs.as_slice())?))
            }
            StepKind::Hide { facts, defs } => {
                let marks = self.hidden(outline, facts.as_slice())?;
                self.one(Move::Hide(marks, self.numbers(defs.as_slice())?))
            }
            StepKind::Qed => Ok(Written::Qed),
        }
    }
}
