//! Which terms a literal is taken up or split at.
ghost use Rattle.std.specs.Prelude.{◌≡◌, ◌<◌, ◌∷◌, [], length, IfOk, not};
ghost use Rattle.core_expr.specs.Nodes.{AreBelow};
ghost use Rattle.core_expr.specs.Tree.{not_, apply_, choose_};
ghost use Rattle.term_bank.specs.Banks.{IsDistinct, Extends, tree_at};
ghost use Rattle.term_shapes.specs.Shapes.{tree_of, named_parts, IsWhole};
ghost use Rattle.search_definition.specs.Terms.{when};
ghost use Rattle.search_definition.specs.Branches.{has};
ghost use Rattle.search_definition.specs.Splits.{untaken, not_all_taken, split_term};
ghost use Rattle.branch_state.specs.Parts.{Holds, shown};
ghost use Rattle.tableau_search.specs.Entries.{AreKnown, branch_of};
ghost use Rattle.formula_rules.specs.Answers.{HasTerm};

use crate::standing::is_told;
use branch_state::Parts;
use branch_values::is_denied;
use core_expr::Memory;
use std::alloc::Global;
use term_bank::Bank;
use term_shapes::{Shape, make, shape_at};

/// Whether the Not of this form over terms of the bank stands on the branch.
fn is_form_denied(
    bank: &mut Bank,
    alloc: Global,
    parts: &Parts,
    shape: Shape,
) -> Result<bool, Memory>
    requires below { AreBelow (length bank.old) (named_parts shape) }
    requires whole { IsWhole shape }
    requires held { Holds parts.now }
    requires known { AreKnown (length bank.old) (shown parts.now).now }
    ensures extends { Extends bank.old bank.new }
    ensures distinct { IsDistinct bank.new }
    ensures ok { IfOk result (λ x. x
        ≡ has (branch_of bank.old (shown parts.now).now) (not_ (tree_of bank.old shape))) }
{
    let i = make(bank, alloc, shape)?;
    Ok(is_denied(bank, parts, i))
}

/// Whether P is a Not `~Q`, and `~\A x : Q` stands on the branch.
fn is_not_all(bank: &mut Bank, alloc: Global, parts: &Parts, p: u64) -> Result<bool, Memory>
    requires within { p < length bank.old }
    requires held { Holds parts.now }
    requires known { AreKnown (length bank.old) (shown parts.now).now }
    ensures extends { Extends bank.old bank.new }
    ensures distinct { IsDistinct bank.new }
    ensures ok { IfOk result (λ x. x
        ≡ not_all_taken (branch_of bank.old (shown parts.now).now) (tree_at bank.old p)) }
{
    let _count = bank.count();
    match shape_at(bank, p) {
        Shape::Not(q) => {
            let denied = is_form_denied(bank, alloc, parts, Shape::All(q))?;
            Ok(denied)
        }
        _ => Ok(false),
    }
}

/// Whether the branch says whether `CHOOSE x : P` has a witness.
fn is_taken(bank: &mut Bank, alloc: Global, parts: &Parts, p: u64) -> Result<bool, Memory>
    requires within { p < length bank.old }
    requires held { Holds parts.now }
    requires known { AreKnown (length bank.old) (shown parts.now).now }
    ensures extends { Extends bank.old bank.new }
    ensures distinct { IsDistinct bank.new }
    ensures ok { IfOk result (λ x. untaken (branch_of bank.old (shown parts.now).now)
        (choose_ (tree_at bank.old p)) ≡ when (not x) (tree_at bank.old p)) }
{
    let _count = bank.count();
    let ex = make(bank, alloc, Shape::Ex(p))?;
    let told = is_told(bank, parts, ex);
    let not_all = is_not_all(bank, alloc, parts, p)?;
    Ok(told || not_all)
}

/// The term, where the test holds.
fn term_when(held: bool, t: u64) -> Option<u64>
    ensures { result ≡ when held t }
{
    if held { Some(t) } else { None }
}

/// P, where the term at an index is `CHOOSE x : P` and the branch does not say yet whether it has a witness.
pub fn untaken_at(
    bank: &mut Bank,
    alloc: Global,
    parts: &Parts,
    t: u64,
) -> Result<Option<u64>, Memory>
    requires within { t < length bank.old }
    requires held { Holds parts.now }
    requires known { AreKnown (length bank.old) (shown parts.now).now }
    ensures extends { Extends bank.old bank.new }
    ensures distinct { IsDistinct bank.new }
    ensures ok { IfOk result (λ o. HasTerm bank.new o
        (untaken (branch_of bank.old (shown parts.now).now) (tree_at bank.old t))) }
{
    let _count = bank.count();
    match shape_at(bank, t) {
        Shape::Choose(p) => {
            let taken = is_taken(bank, alloc, parts, p)?;
            Ok(term_when(!taken, p))
        }
        _ => Ok(None),
    }
}

/// The application t of g to a, where g is a function constructor and the branch does not say that a is outside its domain.
fn applied_at(
    bank: &mut Bank,
    alloc: Global,
    parts: &Parts,
    t: u64,
    g: u64,
    a: u64,
) -> Result<Option<u64>, Memory>
    requires below { AreBelow (length bank.old) (t ∷ g ∷ a ∷ []) }
    requires is_application { tree_at bank.old t
        ≡ apply_ (tree_at bank.old g) (tree_at bank.old a) }
    requires held { Holds parts.now }
    requires known { AreKnown (length bank.old) (shown parts.now).now }
    ensures extends { Extends bank.old bank.new }
    ensures distinct { IsDistinct bank.new }
    ensures ok { IfOk result (λ o. HasTerm bank.new o
        (split_term (branch_of bank.old (shown parts.now).now) (tree_at bank.old t))) }
{
    let _count = bank.count();
    match shape_at(bank, g) {
        Shape::Fun(s, _) => {
            let outside = is_form_denied(bank, alloc, parts, Shape::In(a, s))?;
            Ok(term_when(!outside, t))
        }
        _ => Ok(None),
    }
}

/// The term at an index, where a literal is split at it: an IF, or a function constructor applied to an argument that the
/// branch does not say to be outside its domain.
pub fn divided_at(
    bank: &mut Bank,
    alloc: Global,
    parts: &Parts,
    t: u64,
) -> Result<Option<u64>, Memory>
    requires within { t < length bank.old }
    requires held { Holds parts.now }
    requires known { AreKnown (length bank.old) (shown parts.now).now }
    ensures extends { Extends bank.old bank.new }
    ensures distinct { IsDistinct bank.new }
    ensures ok { IfOk result (λ o. HasTerm bank.new o
        (split_term (branch_of bank.old (shown parts.now).now) (tree_at bank.old t))) }
{
    let _count = bank.count();
    match shape_at(bank, t) {
        Shape::If(_, _, _) => Ok(Some(t)),
        Shape::Apply(g, a) => applied_at(bank, alloc, parts, t, g, a),
        _ => Ok(None),
    }
}
