//! What a rule does to the branch, and the turn that is noted.
ghost use Rattle.std.specs.Prelude.{◌≡◌, ◌<◌, ◌∷◌, [], None, length, IfOk, OnOk};
ghost use Rattle.search_definition.specs.Needs.{union};
ghost use Rattle.branch_state.specs.Parts.{Holds, AreClassed, shown};
ghost use Rattle.branch_state.specs.Shown.{Falls};
ghost use Rattle.tableau_search.specs.Entries.{needs_of_all};
ghost use Rattle.tableau_search.specs.Boards.{used_alone, used_both, NotesShut, NotesAlone, NotesSplit};

use crate::finder::Closing;
use crate::needs::{needs_of_all, needs_of_split};
use crate::turns::added_of;
use branch_state::{New, Parts, add_all, keep_set, put_off, use_entry};
use search_trace::{Turn, Used};
use std::alloc::{AllocError, Global};

/// A rule with one side: the entry is used, and formulas are added with these needs.
fn use_alone(
    parts: &mut Parts,
    used: &Used,
    added: &[New],
    needs: Vec<u64>,
) -> Result<(), AllocError>
    requires held { Holds parts.old }
    requires within { used.now.entry < length (shown parts.old).now }
    requires classed { AreClassed added.now }
    requires falls { Falls needs.items }
    ensures held { Holds parts.new }
    ensures ok { OnOk result (shown parts.new
        ≡ used_alone (shown parts.old) used.now added.now needs.items) }
{
    let set = keep_set(parts, needs)?;
    use_entry(parts, used.entry, used.rule.stays(), used.rule.rises())?;
    add_all(parts, added, set)
}

/// A rule with two sides: the second one waits. The answer is its place. The entry is first used as the second side has it,
/// then as the first does.
fn use_both(
    parts: &mut Parts,
    used: &Used,
    first: &[New],
    second: Vec<New>,
    needs: Vec<u64>,
) -> Result<u64, AllocError>
    requires held { Holds parts.old }
    requires within { used.now.entry < length (shown parts.old).now }
    requires first { AreClassed first.now }
    requires second { AreClassed second.items }
    requires falls { Falls needs.items }
    ensures held { Holds parts.new }
    ensures place { IfOk result (λ n. n ≡ length (shown parts.old).waits) }
    ensures ok { OnOk result (shown parts.new
        ≡ used_both (shown parts.old) used.now first.now second.items needs.items) }
{
    let set = keep_set(parts, needs)?;
    use_entry(
        parts,
        used.entry,
        used.rule.stays_second(),
        used.rule.rises(),
    )?;
    let place = put_off(parts, second, set)?;
    use_entry(parts, used.entry, used.rule.stays(), false)?;
    add_all(parts, first, set)?;
    Ok(place)
}

/// The branch closes. The answer is what it needed.
pub fn shut(
    alloc: Global,
    parts: &Parts,
    turns: &mut Vec<Turn>,
    closing: Closing,
) -> Result<Vec<u64>, AllocError>
    requires { Holds parts.now }
    ensures needs { IfOk result (λ v.
        v.items ≡ needs_of_all (shown parts.now).now closing.entries.items) }
    ensures falls { IfOk result (λ v. Falls v.items) }
    ensures turns { OnOk result (NotesShut closing turns.old.items turns.new.items) }
{
    let needs = needs_of_all(alloc, parts, &closing.entries)?;
    turns.push(Turn::Shut(closing.clash, closing.entries, None))?;
    Ok(needs)
}

/// A rule goes on with one branch.
pub fn apply_alone(
    alloc: Global,
    parts: &mut Parts,
    turns: &mut Vec<Turn>,
    used: Used,
    added: Vec<New>,
) -> Result<(), AllocError>
    requires held { Holds parts.old }
    requires within { used.entry < length (shown parts.old).now }
    requires classed { AreClassed added.items }
    ensures held { Holds parts.new }
    ensures ok { OnOk result (shown parts.new ≡ used_alone (shown parts.old) used added.items
        (needs_of_all (shown parts.old).now used.named.items)) }
    ensures turns { OnOk result (NotesAlone (shown parts.old).now used added.items
        turns.old.items turns.new.items) }
{
    let needs = needs_of_all(alloc, parts, &used.named)?;
    let noted = added_of(alloc, parts, &added)?;
    use_alone(parts, &used, &added, needs)?;
    turns.push(Turn::Alone(used, noted))?;
    Ok(())
}

/// A rule splits the branch, in the turn with this number. The answer is the place at which the second side waits.
pub fn apply_split(
    alloc: Global,
    parts: &mut Parts,
    turns: &mut Vec<Turn>,
    used: Used,
    first: Vec<New>,
    second: Vec<New>,
    number: u64,
) -> Result<u64, AllocError>
    requires held { Holds parts.old }
    requires within { used.entry < length (shown parts.old).now }
    requires first { AreClassed first.items }
    requires second { AreClassed second.items }
    ensures held { Holds parts.new }
    ensures place { IfOk result (λ n. n ≡ length (shown parts.old).waits) }
    ensures ok { OnOk result (shown parts.new
        ≡ used_both (shown parts.old) used first.items second.items
        (union (number ∷ []) (needs_of_all (shown parts.old).now used.named.items))) }
    ensures turns { OnOk result (NotesSplit (shown parts.old).now used first.items second.items
        turns.old.items turns.new.items) }
{
    let needs = needs_of_split(alloc, parts, &used.named, number)?;
    let left = added_of(alloc, parts, &first)?;
    let right = added_of(alloc, parts, &second)?;
    let place = use_both(parts, &used, &first, second, needs)?;
    turns.push(Turn::Split(used, left, right))?;
    Ok(place)
}
