//! The syntax tree of a module: its units, statements and proofs.

use crate::place::Place;
use crate::tree::{Decl, Def, Group, Node};
use core_expr::Text;
use sqlite_items::{Boxed, Items};

/// The sort of a NEW item.
#[derive(Clone, Copy, Debug, PartialEq, Eq)]
pub enum Sort {
    Constant,
    Variable,
    State,
}

/// An item after ASSUME.
#[derive(Debug, Drop)]
pub enum Item {
    New {
        sort: Sort,
        decl: Decl,
        domain: Option<Boxed<Node>>,
    },
    Given(Node),
}

/// What a theorem or a step states: the items after ASSUME, if any, and the goal.
#[derive(Debug, Drop)]
pub struct Statement {
    pub items: Items<Item>,
    pub goal: Node,
}

/// A fact of BY, USE or HIDE.
#[derive(Debug, Drop)]
pub enum Fact {
    /// A step token, by its level and label.
    StepName {
        level: u128,
        label: Text,
        place: Place,
    },
    /// An expression, with the place of its first token, a parenthesis included.
    Plain {
        place: Place,
        node: Node,
    },
}

/// The proof of a theorem or a step. To drop one is a recursion over its subproofs, of which the readers allow 200.
#[cycle(proofs)]
#[derive(Debug, Drop)]
pub enum Proof {
    Missing,
    Obvious(Place),
    Omitted(Place),
    By {
        place: Place,
        only: bool,
        facts: Items<Fact>,
        defs: Items<Decl>,
    },
    Steps(Items<Step>),
}

/// A step of a proof, with the place of its step token.
#[cycle(proofs)]
#[derive(Debug, Drop)]
pub struct Step {
    pub place: Place,
    pub level: u128,
    pub label: Text,
    pub kind: StepKind,
    pub proof: Proof,
}

/// What a step does.
#[derive(Debug, Drop)]
pub enum StepKind {
    Assert(Statement),
    Case(Node),
    Suffices(Statement),
    Have(Node),
    Take(Items<Group>),
    Witness(Items<Node>),
    Pick(Items<Group>, Node),
    Define(Items<Def>),
    /// USE.
    Add {
        facts: Items<Fact>,
        defs: Items<Decl>,
    },
    Hide {
        facts: Items<Fact>,
        defs: Items<Decl>,
    },
    Qed,
}

/// What a unit declares, assumes, defines or proves.
#[derive(Debug, Drop)]
pub enum UnitKind {
    Constants(Items<Decl>),
    Variables(Items<Decl>),
    /// An ASSUME. Its name, where it has one, has arity 0 and the place of its own token.
    Assume {
        name: Option<Decl>,
        body: Node,
    },
    Define(Def),
    /// A theorem. Its name, where it has one, has arity 0 and the place of its own token.
    Theorem {
        name: Option<Decl>,
        statement: Statement,
        proof: Proof,
    },
}

/// A unit of a module, with the place of its first token.
#[derive(Debug, Drop)]
pub struct Unit {
    pub place: Place,
    pub kind: UnitKind,
}

/// A module: its name, the place of its header, the names that it extends with their places, and its units.
#[derive(Debug, Drop)]
pub struct Module {
    pub name: Text,
    pub header: Place,
    pub extends: Items<(Text, Place)>,
    pub units: Items<Unit>,
}

/// The modules of a run, each after all that it extends.
#[derive(Debug, Drop)]
pub struct Loaded {
    pub modules: Items<Module>,
}
