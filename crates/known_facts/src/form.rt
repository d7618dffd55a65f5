//! Forms of goals.

ghost use Rattle.std.specs.Prelude.{◌≡◌, ◌↔◌, ◌<◌, length, slice_index_or, IfOk, IsTrue};
ghost use Rattle.core_expr.specs.declared.row.RowKind.TheVariants.{Plain};
ghost use Rattle.core_expr.specs.Heads.{subtrees, IsWellFormed};
ghost use Rattle.core_expr.specs.Places.{kind_of};
ghost use Rattle.core_expr.specs.Tree.{true_};
ghost use Rattle.proof_contexts.specs.Contexts as contexts;
ghost use Rattle.known_facts.specs.Forms.{is_root_of, as_quantified, as_restricted, as_pair, pair_of};

use crate::item::Quantifier;
use core_expr::theorems::last_is_root;
use core_expr::{Binder, Expr, Head, Memory, RowKind};
use expr_parts::part;
use std::alloc::Global;

/// What the root of an expression is.
pub(crate) fn root(e: &Expr) -> RowKind
    ensures kind { result ≡ kind_of e.now }
    ensures formed { IsWellFormed e.now }
{
    last_is_root();
    e.kind(e.length() - 1)
}

/// Whether a root is this head.
fn is_head(kind: RowKind, head: Head) -> bool
    ensures { IsTrue result ↔ (kind ≡ Plain head) }
{
    match kind {
        RowKind::Plain(other) => other == head,
        _ => false,
    }
}

/// The first two parts of an expression.
fn two_parts(alloc: Global, e: &Expr) -> Result<(Expr, Expr), Memory>
    requires { 1 < length (subtrees e.now) }
    ensures { IfOk result (λ p. pair_of p ≡ record {
      first = slice_index_or (subtrees e.now) 0 true_;
      second = slice_index_or (subtrees e.now) 1 true_;
    }) }
{
    Ok((part(alloc, e, 0)?, part(alloc, e, 1)?))
}

/// The two sides of an implication.
#[tactic(auto, using(crate::proofs::Heads::imp_here, crate::proofs::Heads::imp_fits, crate::proofs::Heads::imp_other))]
pub fn implication(alloc: Global, e: &Expr) -> Result<Option<(Expr, Expr)>, Memory>
    ensures { IfOk result (λ o. as_pair o ≡ contexts.as_imp e.now) }
{
    if !is_head(root(e), Head::Imp) {
        return Ok(None);
    }
    Ok(Some(two_parts(alloc, e)?))
}

/// The two sides of a conjunction.
#[tactic(auto, using(crate::proofs::Heads::and_here, crate::proofs::Heads::and_fits, crate::proofs::Heads::and_other))]
fn conjunction(alloc: Global, e: &Expr) -> Result<Option<(Expr, Expr)>, Memory>
    ensures { IfOk result (λ o. as_pair o ≡ contexts.as_and e.now) }
{
    if !is_head(root(e), Head::And) {
        return Ok(None);
    }
    Ok(Some(two_parts(alloc, e)?))
}

/// The element and the set of a membership.
#[tactic(auto, using(crate::proofs::Heads::in_here, crate::proofs::Heads::in_fits, crate::proofs::Heads::in_other))]
pub fn membership(alloc: Global, e: &Expr) -> Result<Option<(Expr, Expr)>, Memory>
    ensures { IfOk result (λ o. as_pair o ≡ contexts.as_in e.now) }
{
    if !is_head(root(e), Head::In) {
        return Ok(None);
    }
    Ok(Some(two_parts(alloc, e)?))
}

impl Quantifier {
    /// Whether a root is the quantifier's.
    fn is_root(self, kind: RowKind) -> bool
        ensures { result ≡ is_root_of self kind }
    {
        match kind {
            RowKind::Binding(Binder::All) => self.is_all(),
            RowKind::Binding(Binder::Ex) => !self.is_all(),
            _ => false,
        }
    }

    /// What is said under the quantifier, where a formula begins with it.
    #[tactic(auto, using(crate::proofs::Heads::quantified_here, crate::proofs::Heads::quantified_fits, crate::proofs::Heads::quantified_other))]
    pub fn body_of(self, alloc: Global, e: &Expr) -> Result<Option<Expr>, Memory>
        ensures { IfOk result (λ o. o ≡ as_quantified self e.now) }
    {
        if !self.is_root(root(e)) {
            return Ok(None);
        }
        Ok(Some(part(alloc, e, 0)?))
    }

    /// What restricts the name, and what is said of it, where a formula under the quantifier has this form.
    pub fn restriction_of(self, alloc: Global, e: &Expr) -> Result<Option<(Expr, Expr)>, Memory>
        ensures { IfOk result (λ o. as_pair o ≡ as_restricted self e.now) }
    {
        match self {
            Quantifier::All => implication(alloc, e),
            Quantifier::Exists => conjunction(alloc, e),
        }
    }
}
