//! New instances by the live entries of the branch.
ghost use Rattle.std.specs.Prelude.{◌<◌, length, IfOk};
ghost use Rattle.term_bank.specs.Banks.{IsDistinct, Extends};
ghost use Rattle.search_definition.specs.Terms.{first_some};
ghost use Rattle.search_definition.specs.Branches.{alive};
ghost use Rattle.branch_state.specs.Parts.{Holds, shown};
ghost use Rattle.tableau_search.specs.Entries.{AreKnown, AreClosed, branch_of};
ghost use Rattle.formula_rules.specs.Answers.{HasTerm};
ghost use Rattle.instance_terms.specs.Fresh.{fresh_of};
ghost use Rattle.instance_ranks.specs.Seeking.{IsSought, aim_of};
ghost use Rattle.instance_ranks.specs.Partners.{IsPartner, partner_at, entry_gives};

use crate::partners::{Sought, at_literal, at_subterms, at_universal};
use branch_state::{Parts, entry, length};
use core_expr::Memory;
use instance_terms::FreshNumbers;
use std::alloc::Global;
use term_bank::Bank;

/// A kind of partner among the live formulas: a literal of opposite sign, a universal that has an atom of opposite sign, or a
/// literal by its closed subterms, for this side of an equation that is to hold.
#[derive(Clone, Copy, Debug)]
pub enum Partner {
    Literal,
    Opposite,
    Side(u64),
}

/// The term of the first new instance by the entry as a partner of this kind, where the entry is live.
fn at_entry(
    bank: &mut Bank,
    alloc: Global,
    parts: &Parts,
    w: FreshNumbers,
    s: Sought,
    kind: Partner,
    i: u64,
) -> Result<Option<u64>, Memory>
    requires held { Holds parts.now }
    requires known { AreKnown (length bank.old) (shown parts.now).now }
    requires closed { AreClosed bank.old (shown parts.now).now }
    requires sought { IsSought bank.old s }
    requires kind { IsPartner bank.old kind }
    requires within { i < length (shown parts.now).now }
    ensures extends { Extends bank.old bank.new }
    ensures distinct { IsDistinct bank.new }
    ensures ok { IfOk result (λ o. HasTerm bank.new o
        (entry_gives bank.old (shown parts.now).now (fresh_of w) s kind i)) }
{
    let _count = bank.count();
    let item = entry(parts, i);
    if !item.live {
        return Ok(None);
    }
    match kind {
        Partner::Literal => at_literal(bank, alloc, parts, w, s, item.formula),
        Partner::Opposite => at_universal(bank, alloc, parts, w, s, item.formula),
        Partner::Side(l) => at_subterms(bank, alloc, parts, w, s, l, item.formula),
    }
}

/// The term of the first new instance by a live entry as a partner of this kind, by age.
pub fn by_entries(
    bank: &mut Bank,
    alloc: Global,
    parts: &Parts,
    w: FreshNumbers,
    s: Sought,
    kind: Partner,
) -> Result<Option<u64>, Memory>
    requires held { Holds parts.now }
    requires known { AreKnown (length bank.old) (shown parts.now).now }
    requires closed { AreClosed bank.old (shown parts.now).now }
    requires sought { IsSought bank.old s }
    requires kind { IsPartner bank.old kind }
    ensures extends { Extends bank.old bank.new }
    ensures distinct { IsDistinct bank.new }
    ensures ok { IfOk result (λ o. HasTerm bank.new o (first_some
        (partner_at bank.old (fresh_of w) kind (aim_of bank.old (shown parts.now).now s))
        (alive (branch_of bank.old (shown parts.now).now)))) }
{
    let _count = bank.count();
    for i in 0..length(parts) {
        match at_entry(bank, alloc, parts, w, s, kind, i)? {
            Some(term) => return Ok(Some(term)),
            None => {}
        }
    }
    Ok(None)
}
