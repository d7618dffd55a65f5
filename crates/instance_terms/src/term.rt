//! The term that unifying gives for the universal's own variable.
ghost use Rattle.std.specs.Prelude.{◌<◌, length, IfOk};
ghost use Rattle.term_bank.specs.Banks.{IsDistinct, Extends, HasTree, tree_at};
ghost use Rattle.search_definition.specs.Instances.{spare_term, instance_term};
ghost use Rattle.formula_rules.specs.Answers.{HasTerm};
ghost use Rattle.unify_meta.specs.Metas.{symbols};
ghost use Rattle.instance_terms.specs.Fresh.{fresh_of};

use crate::fresh::FreshNumbers;
use core_expr::Memory;
use std::alloc::Global;
use term_bank::Bank;
use term_shapes::{Shape, make};
use unify_meta::{bound_to, grounded, unify};

/// The index of the spare term.
pub fn spare_term(bank: &mut Bank, alloc: Global, w: FreshNumbers) -> Result<u64, Memory>
    ensures extends { Extends bank.old bank.new }
    ensures distinct { IsDistinct bank.new }
    ensures ok { IfOk result (λ k. HasTree bank.new k (spare_term (fresh_of w))) }
{
    make(bank, alloc, Shape::Symbol(w.spare, 0))
}

/// The term of the universal's own variable where the terms at `s` and `t` are made equal, with the spare term for each
/// metavariable that is left: None exactly where they are not unified, or the variable is not bound.
pub fn instance_term(
    bank: &mut Bank,
    alloc: Global,
    w: FreshNumbers,
    metas: &[u64],
    s: u64,
    t: u64,
) -> Result<Option<u64>, Memory>
    requires left { s < length bank.old }
    requires right { t < length bank.old }
    ensures extends { Extends bank.old bank.new }
    ensures distinct { IsDistinct bank.new }
    ensures ok { IfOk result (λ o. HasTerm bank.new o
        (instance_term (fresh_of w) (symbols metas.now) (tree_at bank.old s) (tree_at bank.old t))) }
{
    let Some(bound) = unify(bank, alloc, metas, s, t)? else {
        return Ok(None);
    };
    let Some(term) = bound_to(bound.as_slice(), w.metas) else {
        return Ok(None);
    };
    let spare = spare_term(bank, alloc, w)?;
    Ok(Some(grounded(bank, alloc, metas, spare, term)?))
}
