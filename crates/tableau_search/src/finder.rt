//! What finds the rule that fits a branch.
ghost use Rattle.std.specs.Prelude.{◌≡◌, length, IfOk, OnOk};
ghost use Rattle.term_bank.specs.Banks.{IsDistinct, Extends};
ghost use Rattle.branch_state.specs.Parts.{Holds, shown};
ghost use Rattle.tableau_search.specs.Entries.{AreKnown, AreClosed};
ghost use Rattle.tableau_search.specs.Memos.{Stays};
ghost use Rattle.tableau_search.specs.Found.{Decided};

use crate::memo::Memo;
use branch_state::{New, Parts};
use core_expr::Memory;
use search_definition::Clash;
use search_trace::Used;
use std::alloc::Global;

/// How a branch closes: the case, and the formulas that clash, the younger first.
#[derive(Debug, Drop)]
pub struct Closing {
    pub clash: Clash,
    pub entries: Vec<u64>,
}

/// A rule that fits, with what it adds: on one branch, or on the first and on the second side of a split.
#[derive(Debug, Drop)]
pub enum Found {
    Alone(Used, Vec<New>),
    Splits(Used, Vec<New>, Vec<New>),
}

/// What a turn is to do: no rule fits; the branch closes; or a rule is applied.
#[derive(Debug, Drop)]
pub enum Decision {
    Stuck,
    Closes(Closing),
    Applies(Found),
}

/// What the definition does with a branch.
pub trait Finder: Memo {
    /// What the definition does with the branch. Formulas may come, each with a number of its own.
    fn find(&mut self, alloc: Global, parts: &Parts) -> Result<Decision, Memory>
        requires holds { Self.holds self.old }
        requires held { Holds parts.now }
        requires distinct { IsDistinct (Self.trees self.old) }
        requires known { AreKnown (length (Self.trees self.old)) (shown parts.now).now }
        requires closed { AreClosed (Self.trees self.old) (shown parts.now).now }
        requires right { Self.right self.old (shown parts.now).now }
        ensures holds { OnOk result (Self.holds self.new) }
        ensures extends { OnOk result (Extends (Self.trees self.old) (Self.trees self.new)) }
        ensures distinct { OnOk result (IsDistinct (Self.trees self.new)) }
        ensures fresh { OnOk result (Self.fresh self.new ≡ Self.fresh self.old) }
        ensures right { OnOk result (Self.right self.new (shown parts.now).now) }
        ensures count { OnOk result (Self.count self.new ≡ Self.count self.old) }
        ensures saved { OnOk result (Stays (length (Self.trees self.old)) (Self.count self.old)
            (Self.saved self.old) (Self.saved self.new)) }
        ensures decided { IfOk result (λ d.
            Decided (Self.fresh self.old) (Self.trees self.new) (shown parts.now).now d) };
}
