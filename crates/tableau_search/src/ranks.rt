//! The finder by ranks.
ghost use Rattle.std.specs.Prelude.{◌≡◌, None, length, IfOk, OnOk};
ghost use Rattle.term_bank.specs.Banks.{IsDistinct, Extends};
ghost use Rattle.search_definition.specs.Terms.{first_some};
ghost use Rattle.search_definition.specs.Branches.{closing};
ghost use Rattle.search_definition.specs.Search.{by_rank};
ghost use Rattle.branch_state.specs.Parts.{Holds, shown};
ghost use Rattle.tableau_search.specs.Entries.{AreKnown, AreClosed, branch_of};
ghost use Rattle.tableau_search.specs.Memos.{Stays};
ghost use Rattle.tableau_search.specs.Found.{Decided, IsAnswer, IsClosing};

use crate::finder::{Closing, Decision, Finder, Found};
use crate::memo::Memo;
use branch_state::Parts;
use core_expr::Memory;
use search_definition::Rank;
use std::alloc::Global;

/// The closing of a branch, and the rule of each rank.
pub trait Ranks: Memo {
    /// How the branch closes.
    fn close(&mut self, alloc: Global, parts: &Parts) -> Result<Option<Closing>, Memory>
        requires holds { Self.holds self.old }
        requires held { Holds parts.now }
        requires distinct { IsDistinct (Self.trees self.old) }
        requires known { AreKnown (length (Self.trees self.old)) (shown parts.now).now }
        requires closed { AreClosed (Self.trees self.old) (shown parts.now).now }
        requires right { Self.right self.old (shown parts.now).now }
        ensures holds { OnOk result (Self.holds self.new) }
        ensures extends { OnOk result (Extends (Self.trees self.old) (Self.trees self.new)) }
        ensures distinct { OnOk result (IsDistinct (Self.trees self.new)) }
        ensures fresh { OnOk result (Self.fresh self.new ≡ Self.fresh self.old) }
        ensures right { OnOk result (Self.right self.new (shown parts.now).now) }
        ensures count { OnOk result (Self.count self.new ≡ Self.count self.old) }
        ensures saved { OnOk result (Stays (length (Self.trees self.old)) (Self.count self.old)
            (Self.saved self.old) (Self.saved self.new)) }
        ensures closing { IfOk result (λ o.
            IsClosing (Self.trees self.new) (shown parts.now).now o) };

    /// What the rule of the rank gives on a branch that does not close.
    fn rank(&mut self, alloc: Global, parts: &Parts, rank: Rank) -> Result<Option<Found>, Memory>
        requires holds { Self.holds self.old }
        requires held { Holds parts.now }
        requires distinct { IsDistinct (Self.trees self.old) }
        requires known { AreKnown (length (Self.trees self.old)) (shown parts.now).now }
        requires closed { AreClosed (Self.trees self.old) (shown parts.now).now }
        requires right { Self.right self.old (shown parts.now).now }
        requires open { closing (branch_of (Self.trees self.old) (shown parts.now).now) ≡ None }
        ensures holds { OnOk result (Self.holds self.new) }
        ensures extends { OnOk result (Extends (Self.trees self.old) (Self.trees self.new)) }
        ensures distinct { OnOk result (IsDistinct (Self.trees self.new)) }
        ensures fresh { OnOk result (Self.fresh self.new ≡ Self.fresh self.old) }
        ensures right { OnOk result (Self.right self.new (shown parts.now).now) }
        ensures count { OnOk result (Self.count self.new ≡ Self.count self.old) }
        ensures saved { OnOk result (Stays (length (Self.trees self.old)) (Self.count self.old)
            (Self.saved self.old) (Self.saved self.new)) }
        ensures answer { IfOk result (λ o. IsAnswer (Self.trees self.new) (shown parts.now).now
            (by_rank (Self.fresh self.old)
            (branch_of (Self.trees self.new) (shown parts.now).now) rank) o) };
}

/// The ranks in the order in which they are tried.
const RANKS: [Rank; 12] = [
    Rank::Plain,
    Rank::Rewrite,
    Rank::Derive,
    Rank::Replace,
    Rank::Settle,
    Rank::Choice,
    Rank::Split,
    Rank::TermSplit,
    Rank::Extension,
    Rank::Instance,
    Rank::Spare,
    Rank::TakeUp,
];

/// The first answer of these ranks.
fn first_of<R: Ranks>(
    alloc: Global,
    ranks: &mut R,
    parts: &Parts,
    order: &[Rank],
) -> Result<Option<Found>, Memory>
    requires holds { R.holds ranks.old }
    requires held { Holds parts.now }
    requires known { AreKnown (length (R.trees ranks.old)) (shown parts.now).now }
    requires closed { AreClosed (R.trees ranks.old) (shown parts.now).now }
    requires distinct { IsDistinct (R.trees ranks.old) }
    requires right { R.right ranks.old (shown parts.now).now }
    requires open { closing (branch_of (R.trees ranks.old) (shown parts.now).now) ≡ None }
    ensures holds { OnOk result (R.holds ranks.new) }
    ensures extends { OnOk result (Extends (R.trees ranks.old) (R.trees ranks.new)) }
    ensures distinct { OnOk result (IsDistinct (R.trees ranks.new)) }
    ensures fresh { OnOk result (R.fresh ranks.new ≡ R.fresh ranks.old) }
    ensures right { OnOk result (R.right ranks.new (shown parts.now).now) }
    ensures count { OnOk result (R.count ranks.new ≡ R.count ranks.old) }
    ensures saved { OnOk result (Stays (length (R.trees ranks.old)) (R.count ranks.old)
        (R.saved ranks.old) (R.saved ranks.new)) }
    ensures answer { IfOk result (λ o. IsAnswer (R.trees ranks.new) (shown parts.now).now
        (first_some (by_rank (R.fresh ranks.old)
        (branch_of (R.trees ranks.new) (shown parts.now).now)) order.now) o) }
{
    for rank in order {
        match ranks.rank(alloc, parts, *rank)? {
            Some(found) => return Ok(Some(found)),
            None => {}
        }
    }
    Ok(None)
}

/// A closing, or the first answer of the ranks.
fn decide<R: Ranks>(alloc: Global, ranks: &mut R, parts: &Parts) -> Result<Decision, Memory>
    requires holds { R.holds ranks.old }
    requires held { Holds parts.now }
    requires distinct { IsDistinct (R.trees ranks.old) }
    requires known { AreKnown (length (R.trees ranks.old)) (shown parts.now).now }
    requires closed { AreClosed (R.trees ranks.old) (shown parts.now).now }
    requires right { R.right ranks.old (shown parts.now).now }
    ensures holds { OnOk result (R.holds ranks.new) }
    ensures extends { OnOk result (Extends (R.trees ranks.old) (R.trees ranks.new)) }
    ensures distinct { OnOk result (IsDistinct (R.trees ranks.new)) }
    ensures fresh { OnOk result (R.fresh ranks.new ≡ R.fresh ranks.old) }
    ensures right { OnOk result (R.right ranks.new (shown parts.now).now) }
    ensures count { OnOk result (R.count ranks.new ≡ R.count ranks.old) }
    ensures saved { OnOk result (Stays (length (R.trees ranks.old)) (R.count ranks.old)
        (R.saved ranks.old) (R.saved ranks.new)) }
    ensures decided { IfOk result (λ d.
        Decided (R.fresh ranks.old) (R.trees ranks.new) (shown parts.now).now d) }
{
    match ranks.close(alloc, parts)? {
        Some(closing) => Ok(Decision::Closes(closing)),
        None => match first_of(alloc, ranks, parts, &RANKS)? {
            Some(found) => Ok(Decision::Applies(found)),
            None => Ok(Decision::Stuck),
        },
    }
}

/// A finder by ranks.
#[derive(Drop)]
pub struct Ranked<R> {
    pub ranks: R,
}

impl<R: Ranks> Memo for Ranked<R> {
    ghost trees = { λ f. R.trees f.ranks };

    ghost fresh = { λ f. R.fresh f.ranks };

    ghost holds = { λ f. R.holds f.ranks };

    ghost right = { λ f. R.right f.ranks };

    ghost saved = { λ f. R.saved f.ranks };

    ghost count = { λ f. R.count f.ranks };

    fn put_off(&mut self, alloc: Global) -> Result<(), Memory> {
        self.ranks.put_off(alloc)
    }

    fn take_up(&mut self, at: u64) -> Result<(), Memory> {
        self.ranks.take_up(at)
    }

    ghost added = { λ f. R.added f.ranks };

    ghost used = { λ f. R.used f.ranks };
}

impl<R: Ranks> Finder for Ranked<R> {
    fn find(&mut self, alloc: Global, parts: &Parts) -> Result<Decision, Memory> {
        decide(alloc, &mut self.ranks, parts)
    }
}
