//! Steps over cores.

use core_expr::Expr;
use known_facts::{Fact, Item, NewSymbol, Statement};
use sqlite_items::Items;

/// A step that has no proof of its own. TAKE of several names and WITNESS of several expressions are as many steps.
#[derive(Debug, Drop)]
pub enum Move {
    /// HAVE of a formula.
    Have(Expr),
    /// TAKE of a name.
    Take(NewSymbol),
    /// TAKE of a name from a set.
    TakeIn(NewSymbol, Expr),
    /// WITNESS of an expression.
    Witness(Expr),
    /// WITNESS of an expression in a set.
    WitnessIn(Expr, Expr),
    /// DEFINE, by the numbers of the definitions.
    Define(Items<u64>),
    /// USE of facts, and of definitions by their numbers.
    Use(Items<Fact>, Items<u64>),
    /// HIDE of names of facts, and of definitions, by their numbers.
    Hide(Items<u64>, Items<u64>),
}

/// A step that has a proof of its own.
#[derive(Debug, Drop)]
pub enum Claim {
    /// A statement.
    Assert(Statement),
    /// CASE of a formula.
    Case(Expr),
    /// SUFFICES of a statement.
    Suffices(Statement),
    /// PICK of new symbols for which a formula holds.
    Pick(Items<Item>, Expr),
}
