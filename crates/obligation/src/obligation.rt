//! Definitions and obligations.

ghost use Rattle.std.specs.Prelude.{◌≡◌, IfOk};

use core_expr::{Expr, Memory, Sym};
use sqlite_items::Items;
use std::alloc::Global;

/// A definition: its symbol, and its body with as many loose variables as the symbol has arguments, the first argument's
/// outermost.
#[derive(Debug, Drop)]
pub struct Definition {
    pub symbol: Sym,
    pub body: Expr,
}

/// What a leaf has to show: the goal from the facts, where these definitions may be unfolded. They stand in order of
/// declaration, so that each body mentions earlier ones alone.
#[derive(Debug, Drop)]
pub struct Obligation {
    pub facts: Items<Expr>,
    pub goal: Expr,
    pub defs: Items<Definition>,
}

/// Equal expressions.
fn copy_all(alloc: Global, facts: &[Expr]) -> Result<Items<Expr>, Memory>
    ensures { IfOk result (λ copies. copies ≡ facts.now) }
{
    let mut copies = Items::new(alloc);
    for fact in facts {
        copies.push(fact.copy(alloc)?)?;
    }
    Ok(copies)
}

impl Definition {
    /// An equal definition.
    fn copy(&self, alloc: Global) -> Result<Definition, Memory>
        ensures { IfOk result (λ d. d ≡ self.now) }
    {
        Ok(Definition {
            symbol: self.symbol,
            body: self.body.copy(alloc)?,
        })
    }
}

/// Equal definitions.
fn copy_definitions(alloc: Global, defs: &[Definition]) -> Result<Items<Definition>, Memory>
    ensures { IfOk result (λ copies. copies ≡ defs.now) }
{
    let mut copies = Items::new(alloc);
    for def in defs {
        copies.push(def.copy(alloc)?)?;
    }
    Ok(copies)
}

impl Obligation {
    /// An equal obligation.
    pub fn copy(&self, alloc: Global) -> Result<Obligation, Memory>
        ensures { IfOk result (λ o. o ≡ self.now) }
    {
        Ok(Obligation {
            facts: copy_all(alloc, self.facts.as_slice())?,
            goal: self.goal.copy(alloc)?,
            defs: copy_definitions(alloc, self.defs.as_slice())?,
        })
    }
}
