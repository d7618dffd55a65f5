//! The definitions of all modules.

ghost use Rattle.std.specs.Prelude.{◌≡◌, [], ◌∷◌, IfOk};
ghost use Rattle.std.specs.List.{list_any};
ghost use Rattle.core_expr.specs.Places.{kind_of};
ghost use Rattle.obligation.specs.Nodes.{is_symbol};
ghost use Rattle.proof_contexts.specs.Expansion.{chosen, unfold_top, unfold_head};
ghost use Rattle.proof_contexts.specs.Contexts.{unfolded_by};
ghost use Rattle.proof_contexts.specs.Leaves.{has_mark, is_temporal};
ghost use Rattle.known_facts.specs.Clean.{is_suspect, has_suspect, suspects, is_temporal_one, definitions_of, HasSuspects};

use crate::form::root;
use crate::known::is_among;
use core_expr::{Expr, Head, Memory, RowKind, Sym};
use expr_parts::{over_arguments, parts};
use obligation::{Definition, unfold};
use sqlite_items::Items;
use std::alloc::Global;

/// The definitions of all modules, in order of declaration, with the numbers of those out of which something temporal may come.
#[derive(Drop)]
pub struct Table {
    definitions: Vec<Definition>,
    suspects: Vec<u64>,
}

/// Whether a node is the temporal mark, or the symbol of a definition with one of these numbers.
fn is_suspect(suspects: &[u64], kind: RowKind) -> bool
    ensures { result ≡ is_suspect suspects.now kind }
{
    match kind {
        RowKind::Symbol(symbol) => is_among(suspects, symbol.number),
        RowKind::Plain(Head::Temporal) => true,
        _ => false,
    }
}

/// Whether some node is.
fn has_suspect(suspects: &[u64], e: &Expr) -> bool
    ensures { result ≡ has_suspect suspects.now e.now }
{
    for i in 0..e.length() {
        if is_suspect(suspects, e.kind(i)) {
            return true;
        }
    }
    false
}

/// Whether the temporal mark stands in an expression.
#[tactic(auto, using(crate::proofs::Cleaning::mark_is))]
fn has_mark(e: &Expr) -> bool
    ensures { result ≡ has_mark e.now }
{
    has_suspect(&[], e)
}

/// The numbers of the definitions out of which something temporal may come.
fn find_suspects(alloc: Global, definitions: &[Definition]) -> Result<Vec<u64>, Memory>
    ensures { IfOk result (λ v. v.items ≡ suspects [] definitions.now) }
{
    let mut found = Vec::new(alloc);
    for definition in definitions {
        if has_suspect(found.as_slice(), &definition.body) {
            found.push(definition.symbol.number)?;
        }
    }
    Ok(found)
}

/// Whether the root of an expression is a symbol, this one.
fn has_head(e: &Expr, symbol: Sym) -> bool
    ensures { result ≡ is_symbol symbol (kind_of e.now) }
{
    match root(e) {
        RowKind::Symbol(other) => symbol == other,
        _ => false,
    }
}

/// The body of a definition over the arguments, where its symbol is the head of the expression.
#[tactic(auto, using(crate::proofs::Heads::top_here, crate::proofs::Heads::top_other))]
fn unfold_top(alloc: Global, definition: &Definition, e: Expr) -> Result<Expr, Memory>
    ensures { IfOk result (λ r. r ≡ unfold_top definition.now e) }
{
    if !has_head(&e, definition.symbol) {
        return Ok(e);
    }
    let args = parts(alloc, &e)?;
    let unfolded = over_arguments(alloc, &definition.body, args.as_slice())?;
    Ok(unfolded)
}

/// An equal definition.
fn copy(alloc: Global, definition: &Definition) -> Result<Definition, Memory>
    ensures { IfOk result (λ d. d ≡ definition.now) }
{
    Ok(Definition {
        symbol: definition.symbol,
        body: definition.body.copy(alloc)?,
    })
}

/// The definitions with these numbers.
fn choose(
    alloc: Global,
    definitions: &[Definition],
    numbers: &[u64],
) -> Result<Items<Definition>, Memory>
    ensures { IfOk result (λ ds. ds ≡ chosen numbers.now definitions.now) }
{
    let mut found = Items::new(alloc);
    for definition in definitions {
        if is_among(numbers, definition.symbol.number) {
            found.push(copy(alloc, definition)?)?;
        }
    }
    Ok(found)
}

impl Table {
    /// The table of these definitions.
    pub fn new(alloc: Global, definitions: Vec<Definition>) -> Result<Table, Memory>
        ensures table { IfOk result (λ t. definitions_of t ≡ definitions.items) }
        ensures suspects { IfOk result HasSuspects }
    {
        let suspects = find_suspects(alloc, definitions.as_slice())?;
        Ok(Table {
            definitions,
            suspects,
        })
    }

    /// The definitions.
    fn definitions(&self) -> &[Definition]
        ensures { result.now ≡ definitions_of self.now }
    {
        self.definitions.as_slice()
    }

    /// The numbers of the definitions out of which something temporal may come.
    fn suspects(&self) -> &[u64]
        requires { HasSuspects self.now }
        ensures { result.now ≡ suspects [] (definitions_of self.now) }
    {
        self.suspects.as_slice()
    }

    /// The definitions with these numbers.
    pub fn chosen(&self, alloc: Global, numbers: &[u64]) -> Result<Items<Definition>, Memory>
        ensures { IfOk result (λ ds. ds ≡ chosen numbers.now (definitions_of self.now)) }
    {
        choose(alloc, self.definitions(), numbers)
    }

    /// The expression with the definitions of these numbers unfolded everywhere.
    pub fn unfolded(&self, alloc: Global, numbers: &[u64], e: &Expr) -> Result<Expr, Memory>
        ensures { IfOk result (λ r. r ≡ unfolded_by (definitions_of self.now) numbers.now e.now) }
    {
        let chosen = self.chosen(alloc, numbers)?;
        unfold(alloc, e, chosen.as_slice())
    }

    /// The expression with its head unfolded by the definitions of these numbers, the last first.
    pub fn head_unfolded(&self, alloc: Global, numbers: &[u64], e: &Expr) -> Result<Expr, Memory>
        ensures { IfOk result (λ r. r ≡ unfold_head (chosen numbers.now (definitions_of self.now)) e.now) }
    {
        let chosen = self.chosen(alloc, numbers)?;
        unfold_heads(alloc, chosen.as_slice(), e)
    }

    /// Whether a formula is temporal, fully expanded or with the definitions of these numbers unfolded.
    #[tactic(auto, using(crate::proofs::Cleaning::clean_stays))]
    fn is_temporal(&self, alloc: Global, numbers: &[u64], e: &Expr) -> Result<bool, Memory>
        requires { HasSuspects self.now }
        ensures { IfOk result (λ b. b ≡ is_temporal_one (definitions_of self.now) numbers.now e.now) }
    {
        if !has_suspect(self.suspects(), e) {
            return Ok(false);
        }
        let full = unfold(alloc, e, self.definitions())?;
        if has_mark(&full) {
            return Ok(true);
        }
        let unfolded = self.unfolded(alloc, numbers, e)?;
        Ok(has_mark(&unfolded))
    }

    /// Whether one of several formulas is.
    fn has_temporal(&self, alloc: Global, numbers: &[u64], es: &[Expr]) -> Result<bool, Memory>
        requires { HasSuspects self.now }
        ensures { IfOk result (λ b. b
            ≡ list_any (is_temporal_one (definitions_of self.now) numbers.now) es.now) }
    {
        for e in es {
            if self.is_temporal(alloc, numbers, e)? {
                return Ok(true);
            }
        }
        Ok(false)
    }

    /// Whether one of a goal and facts is.
    #[tactic(auto, using(crate::proofs::Cleaning::goal_temporal, crate::proofs::Cleaning::facts_temporal))]
    pub fn any_temporal(
        &self,
        alloc: Global,
        numbers: &[u64],
        goal: &Expr,
        facts: &[Expr],
    ) -> Result<bool, Memory>
        requires { HasSuspects self.now }
        ensures { IfOk result (λ b. b
            ≡ is_temporal (definitions_of self.now) numbers.now (goal.now ∷ facts.now)) }
    {
        if self.is_temporal(alloc, numbers, goal)? {
            return Ok(true);
        }
        let found = self.has_temporal(alloc, numbers, facts)?;
        Ok(found)
    }
}

/// The expression with its head unfolded, the last definition first.
fn unfold_heads(alloc: Global, definitions: &[Definition], e: &Expr) -> Result<Expr, Memory>
    ensures { IfOk result (λ r. r ≡ unfold_head definitions.now e.now) }
{
    let mut unfolded = e.copy(alloc)?;
    for k in (0..definitions.len()).rev() {
        unfolded = unfold_top(alloc, &definitions[k], unfolded)?;
    }
    Ok(unfolded)
}
