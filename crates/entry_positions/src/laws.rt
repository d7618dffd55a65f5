//! The laws of positions. The functions do nothing: their contracts are the laws.
ghost use Rattle.entry_positions.specs.Laws.{PassedStart, PassedAdded, PassedUsed, PassedKept, PassedNext, PassedFound, PassedNone, OpenStart, OpenAdded, OpenUsed, OpenKept, OpenNext, OpenFound, OpenEnd, FormulaPositional, TermSplitPositional, TakeUpPositional};

/// Nothing stands before the first entry.
pub fn passed_start()
    ensures { PassedStart }
{}

/// A position stays right when a formula is added.
pub fn passed_added()
    ensures { PassedAdded }
{}

/// A position stays right when a live entry is used.
pub fn passed_used()
    ensures { PassedUsed }
{}

/// A position stays right when formulas get numbers.
pub fn passed_kept()
    ensures { PassedKept }
{}

/// A position moves past an entry that is dead or that the rule does not fit.
pub fn passed_next()
    ensures { PassedNext }
{}

/// A live entry at the position that the rule fits is the oldest.
#[tactic(auto, using(crate::proofs::PassedLaws::passed_found))]
pub fn passed_found()
    ensures { PassedFound }
{}

/// A position at the end says that the rule fits no entry.
#[tactic(auto, using(crate::proofs::PassedLaws::passed_none))]
pub fn passed_none()
    ensures { PassedNone }
{}

/// Nothing closes before the first entry.
pub fn open_start()
    ensures { OpenStart }
{}

/// Closings looked for up to a position stay looked for when a formula is added.
#[tactic(auto, using(crate::proofs::OpenLaws::open_added))]
pub fn open_added()
    ensures { OpenAdded }
{}

/// They do when an entry is used.
pub fn open_used()
    ensures { OpenUsed }
{}

/// They do when formulas get numbers.
#[tactic(auto, using(crate::proofs::OpenLaws::open_kept))]
pub fn open_kept()
    ensures { OpenKept }
{}

/// The position moves past an entry that closes neither by itself nor with an older one.
#[tactic(auto, using(crate::proofs::OpenLaws::open_next))]
pub fn open_next()
    ensures { OpenNext }
{}

/// An entry at the position that closes gives the closing of the branch.
#[tactic(auto, using(crate::proofs::OpenLaws::open_found))]
pub fn open_found()
    ensures { OpenFound }
{}

/// A position at the end says that the branch does not close.
#[tactic(auto, using(crate::proofs::OpenLaws::open_end))]
pub fn open_end()
    ensures { OpenEnd }
{}

/// A rule that looks at the formula alone has positions.
pub fn formula_positional()
    ensures { FormulaPositional }
{}

/// The rank term split has positions.
pub fn term_split_positional()
    ensures { TermSplitPositional }
{}

/// The rank take up has positions.
pub fn take_up_positional()
    ensures { TakeUpPositional }
{}
