//! What a step reads off the goal.

ghost use Rattle.std.specs.Prelude.{◌≡◌, IfOk, None, Some};
ghost use Rattle.core_expr.specs.Put.{inst};
ghost use Rattle.core_expr.specs.Terms as terms;
ghost use Rattle.proof_contexts.specs.Contexts as contexts;
ghost use Rattle.known_facts.specs.Clean.{definitions_of};
ghost use Rattle.known_facts.specs.Shown.{context_of};
ghost use Rattle.proof_leaves.specs.Forms as forms;

use core_expr::{Expr, Memory};
use expr_parts::over_arguments;
use known_facts::{Context, Quantifier, Table, membership};
use std::alloc::Global;

/// The goal with its head unfolded by the usable definitions.
pub(crate) fn top(alloc: Global, table: &Table, context: &Context) -> Result<Expr, Memory>
    ensures { IfOk result (λ e. e
        ≡ contexts.top (definitions_of table.now) (context_of context.now)) }
{
    table.head_unfolded(alloc, context.definitions(), context.goal())
}

/// Whether two expressions are equal.
#[tactic(auto, using(crate::proofs::Forms::same_yes, crate::proofs::Forms::same_no))]
fn is_same(a: &Expr, b: &Expr) -> bool
    ensures { result ≡ terms.same a.now b.now }
{
    a.same(b)
}

/// Whether two sets are equal once the usable definitions are unfolded in both.
fn same_set(
    alloc: Global,
    table: &Table,
    context: &Context,
    one: &Expr,
    other: &Expr,
) -> Result<bool, Memory>
    ensures { IfOk result (λ b. b
        ≡ contexts.same_set (definitions_of table.now) (context_of context.now) one.now other.now) }
{
    let one = table.unfolded(alloc, context.definitions(), one)?;
    let other = table.unfolded(alloc, context.definitions(), other)?;
    Ok(is_same(&one, &other))
}

/// Whether a formula says that the bound variable is in a set, once the usable definitions are unfolded.
#[tactic(auto, using(crate::proofs::Forms::no_membership, crate::proofs::Forms::other_element, crate::proofs::Forms::set_decides))]
fn is_domain(
    alloc: Global,
    table: &Table,
    context: &Context,
    set: &Expr,
    domain: &Expr,
) -> Result<bool, Memory>
    ensures { IfOk result (λ b. b ≡ forms.is_domain (definitions_of table.now)
        (context_of context.now) set.now domain.now) }
{
    let Some((element, other)) = membership(alloc, domain)? else {
        return Ok(false);
    };
    if !is_same(&element, &Expr::bound(alloc, 0)?) {
        return Ok(false);
    }
    same_set(alloc, table, context, &other, set)
}

/// What is said of each element of a set, or of some element, where a formula has this form.
#[tactic(auto, using(crate::proofs::Forms::no_quantifier, crate::proofs::Forms::no_restriction, crate::proofs::Forms::other_domain, crate::proofs::Forms::this_domain))]
pub(crate) fn body_over(
    alloc: Global,
    table: &Table,
    context: &Context,
    quantifier: Quantifier,
    set: &Expr,
    e: &Expr,
) -> Result<Option<Expr>, Memory>
    ensures { IfOk result (λ o. o ≡ forms.body_over (definitions_of table.now) quantifier
        (context_of context.now) set.now e.now) }
{
    let Some(body) = quantifier.body_of(alloc, e)? else {
        return Ok(None);
    };
    let Some((domain, said)) = quantifier.restriction_of(alloc, &body)? else {
        return Ok(None);
    };
    if !is_domain(alloc, table, context, set, &domain)? {
        return Ok(None);
    }
    Ok(Some(said))
}

/// The body of a quantifier with an expression for its variable.
pub(crate) fn instance(alloc: Global, body: &Expr, t: Expr) -> Result<Expr, Memory>
    ensures { IfOk result (λ e. e ≡ inst body.now t) }
{
    let args = vec![in alloc; t]?;
    over_arguments(alloc, body, args.as_slice())
}
