//! The laws of the search's definition. The functions do nothing: their contracts are the laws.
ghost use Rattle.search_definition.specs.Laws.{ValueStays, SettleStays, UsedStays, OldestFrom, OldestFound, OldestNone, PositionStays, PositionKept, PositionUsed, ClosingAdded, ClosingStays, ClosingUsed, FallingContains, FallingWithout, FallingUnion, FallingFirst, ClosedHasTree, SearchedIsClosed, AtomsHaveRoom, LeftIsInstance, MembersAt, OldestIs, RuleTells, SidesStayClosed, UsedStands, FirstIsByRank};

/// A formula that is added leaves the value and the grounds of a formula that watches nothing that it touches.
pub fn value_stays()
    ensures { ValueStays }
{}

/// A formula that is added leaves how an entry settles that watches nothing that it touches.
#[tactic(auto, using(crate::proofs::Watching::settle_stays))]
pub fn settle_stays()
    ensures { SettleStays }
{}

/// Using an entry changes neither what stands on the branch nor any value.
pub fn used_stays()
    ensures { UsedStays }
{}

/// Where no live entry before a position fits, the search for the oldest starts at the position.
#[tactic(auto, using(crate::proofs::Positions::oldest_from))]
pub fn oldest_from()
    ensures { OldestFrom }
{}

/// The oldest entry is the one at the position, where that fits.
#[tactic(auto, using(crate::proofs::Positions::oldest_found))]
pub fn oldest_found()
    ensures { OldestFound }
{}

/// There is no oldest entry, where the position is the end.
#[tactic(auto, using(crate::proofs::Positions::oldest_none))]
pub fn oldest_none()
    ensures { OldestNone }
{}

/// A position stays right when a formula is added.
#[tactic(auto, using(crate::proofs::Positions::position_stays))]
pub fn position_stays()
    ensures { PositionStays }
{}

/// A position stays right when a formula is added, for a rule that the branch only takes answers from.
#[tactic(auto, using(crate::proofs::Positions::position_kept))]
pub fn position_kept()
    ensures { PositionKept }
{}

/// A position stays right when an entry dies.
pub fn position_used()
    ensures { PositionUsed }
{}

/// The closing after a formula is added is that of the new formula with the older ones.
#[tactic(auto, using(crate::proofs::Closings::closing_added))]
pub fn closing_added()
    ensures { ClosingAdded }
{}

/// Once a branch closes, further formulas leave the closing.
#[tactic(auto, using(crate::proofs::Closings::closing_stays))]
pub fn closing_stays()
    ensures { ClosingStays }
{}

/// Using an entry changes no closing.
#[tactic(auto, using(crate::proofs::Closings::closing_used))]
pub fn closing_used()
    ensures { ClosingUsed }
{}

/// A number that none of a falling set exceeds is in it exactly where it is the first.
#[tactic(auto, using(crate::proofs::Falling::contains_first))]
pub fn falling_contains()
    ensures { FallingContains }
{}

/// A falling set without its first number is the rest.
#[tactic(auto, using(crate::proofs::Falling::rests))]
pub fn falling_without()
    ensures { FallingWithout }
{}

/// The union of falling sets falls, and has the members of both.
#[tactic(auto, using(crate::proofs::Falling::merges))]
pub fn falling_union()
    ensures { FallingUnion }
{}

/// The union with a number above all others puts it in front.
#[tactic(auto, using(crate::proofs::Falling::fronts))]
pub fn falling_first()
    ensures { FallingFirst }
{}

/// Where the search ends closed, its steps are those of a tree that the search makes of the start branch, in the order of
/// turns, and the tree has as many turns as were used.
#[tactic(auto, using(crate::proofs::Treeing::closed_has_tree))]
pub fn closed_has_tree()
    ensures { ClosedHasTree }
{}

/// A tree that the search makes is closed for its branch.
#[tactic(auto, using(crate::proofs::Treeing::searched_is_closed))]
pub fn searched_is_closed()
    ensures { SearchedIsClosed }
{}

/// Room for four steps for each node of a universal's body is enough to find its signed atoms.
#[tactic(auto, using(crate::proofs::Rooms::atoms_have_room))]
pub fn atoms_have_room()
    ensures { AtomsHaveRoom }
{}

/// A left side with its right side is the instance of its schema.
#[tactic(auto, using(crate::proofs::Lefts::left_is_instance))]
pub fn left_is_instance()
    ensures { LeftIsInstance }
{}

/// What it is to be a member of a set, put at a term, is what its schema says of that term.
#[tactic(auto, using(crate::proofs::Lefts::members_at))]
pub fn members_at()
    ensures { MembersAt }
{}

/// The oldest entry that a rule fits is live, and the step is what the rule gives at its formula.
#[tactic(auto, using(crate::proofs::Standing::oldest_is))]
pub fn oldest_is()
    ensures { OldestIs }
{}

/// What the rule of a rank gives is of that rank. It names its live entry first, names formulas on the branch alone, and adds
/// closed formulas.
#[tactic(auto, using(crate::proofs::Telling::rule_tells))]
pub fn rule_tells()
    ensures { RuleTells }
{}

/// A branch of closed formulas gives branches of closed formulas.
#[tactic(auto, using(crate::proofs::Standing::sides_stay_closed))]
pub fn sides_stay_closed()
    ensures { SidesStayClosed }
{}

/// What a closed tree uses stands on its branch.
#[tactic(auto, using(crate::proofs::Used::used_stands))]
pub fn used_stands()
    ensures { UsedStands }
{}

/// The first rule applies, and there is none exactly where no rule applies.
pub fn first_is_by_rank()
    ensures { FirstIsByRank }
{}
