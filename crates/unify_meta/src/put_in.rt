//! Putting the term of a metavariable in.
ghost use Rattle.std.specs.Prelude.{◌≡◌, ◌<◌, length, IfOk};
ghost use Rattle.core_expr.specs.Nodes.{canon_sym};
ghost use Rattle.unifier_definition.specs.Metas.{put};
ghost use Rattle.unifier_definition.specs.Unify.{may_bind, extended};
ghost use Rattle.term_bank.specs.Banks.{IsDistinct, Extends, HasTree, tree_at};
ghost use Rattle.unify_meta.specs.Disagreements.{IsAssignment};
ghost use Rattle.unify_meta.specs.Bindings.{bindings, TermsBelow};

use crate::binding::BoundMeta;
use crate::disagreement::Assignment;
use core_expr::Memory;
use std::alloc::Global;
use term_bank::Bank;
use term_walks::{occurs, replace};

/// Whether the metavariable may be bound to the term: the term has no loose variable, and the metavariable does not occur in it.
pub fn may_bind(bank: &Bank, alloc: Global, a: Assignment) -> Result<bool, Memory>
    requires { IsAssignment bank.now a }
    ensures { IfOk result (λ b. b ≡ may_bind (canon_sym a.name 0) (tree_at bank.now a.term)) }
{
    if !bank.is_closed(a.term) {
        return Ok(false);
    }
    let occurs = occurs(bank, alloc, a.meta, a.term)?;
    Ok(!occurs)
}

/// The index of the term at `e` with the metavariable's term put in.
pub fn put_in(bank: &mut Bank, alloc: Global, a: Assignment, e: u64) -> Result<u64, Memory>
    requires assigned { IsAssignment bank.old a }
    requires term { e < length bank.old }
    ensures extends { Extends bank.old bank.new }
    ensures distinct { IsDistinct bank.new }
    ensures ok { IfOk result (λ k. HasTree bank.new k
        (put (canon_sym a.name 0) (tree_at bank.old a.term) (tree_at bank.old e))) }
{
    replace(bank, alloc, a.meta, a.term, e)
}

/// The bindings with one more, whose term is put into those of the older ones.
pub fn extended(
    bank: &mut Bank,
    alloc: Global,
    a: Assignment,
    bound: &[BoundMeta],
) -> Result<Vec<BoundMeta>, Memory>
    requires assigned { IsAssignment bank.old a }
    requires bound { TermsBelow (length bank.old) bound.now }
    ensures extends { Extends bank.old bank.new }
    ensures distinct { IsDistinct bank.new }
    ensures below { IfOk result (λ v. TermsBelow (length bank.new) v.items) }
    ensures ok { IfOk result (λ v. bindings bank.new v.items
        ≡ extended (canon_sym a.name 0) (tree_at bank.old a.term) (bindings bank.old bound.now)) }
{
    bank.count();
    let mut more = Vec::new(alloc);
    for b in bound {
        let name = b.name;
        let term = put_in(bank, alloc, a, b.term)?;
        more.push(BoundMeta { name, term })?;
    }
    more.push(BoundMeta {
        name: a.name,
        term: a.term,
    })?;
    Ok(more)
}
