//! Rank replace.
ghost use Rattle.std.specs.Prelude.{◌≡◌, ◌<◌, ◌∷◌, [], Some, None, length, IfOk};
ghost use Rattle.core_expr.specs.Tree.{eq_};
ghost use Rattle.core_expr.specs.Put.{IsScoped};
ghost use Rattle.core_expr.specs.Nodes.{AreBelow};
ghost use Rattle.term_bank.specs.Banks.{IsDistinct, Extends, tree_at};
ghost use Rattle.term_order.specs.Sizes.{AreSizes};
ghost use Rattle.search_definition.specs.Equations.{sides_of, by_sides, replace_rule};
ghost use Rattle.branch_state.specs.Parts.{Holds, shown};
ghost use Rattle.tableau_search.specs.Entries.{AreKnown, AreClosed, branch_of};
ghost use Rattle.tableau_search.specs.Found.{IsFound, IsAnswer};
ghost use Rattle.equation_ranks.specs.Partners.{IsOldest};
ghost use Rattle.equation_ranks.specs.Replacing.{AddsClosed, HasSides, AreSides, ordered_of, fits_at, HasReplacement, IsReplacement, replaced_result, by_entry, FitsNone, NoneFits, first_untried};

use crate::found::alone_found;
use branch_state::{Parts, entry, length};
use core_expr::Memory;
use formula_rules::same_term;
use search_definition::Rule;
use std::alloc::Global;
use tableau_search::Found;
use term_bank::Bank;
use term_order::{Sizes, less};
use term_shapes::{Shape, shape_at};
use term_walks::{occurs, replace};

/// The sides of an equation by their order.
#[derive(Clone, Copy, Debug)]
pub struct Sides {
    pub greater: u64,
    pub smaller: u64,
}

/// An equation with its sides, and the place of the entry that it fits.
#[derive(Clone, Copy, Debug)]
pub struct Replacement {
    pub equation: u64,
    pub sides: Sides,
    pub place: u64,
}

/// The sides of the equation of these two terms by their order: None exactly where they are one.
fn ordered(bank: &Bank, sizes: &mut Sizes, s: u64, t: u64) -> Result<Option<Sides>, Memory>
    requires sizes { AreSizes bank.now sizes.old }
    requires below { AreBelow (length bank.now) (s ∷ t ∷ []) }
    requires left { IsScoped 0 (tree_at bank.now s) }
    requires right { IsScoped 0 (tree_at bank.now t) }
    ensures sizes { AreSizes bank.now sizes.new }
    ensures ok { IfOk result (HasSides bank.now
        (sides_of (eq_ (tree_at bank.now s) (tree_at bank.now t)))) }
{
    if same_term(bank, s, t) {
        return Ok(None);
    }
    if less(sizes, bank, s, t)? {
        return Ok(Some(Sides {
            greater: t,
            smaller: s,
        }));
    }
    Ok(Some(Sides {
        greater: s,
        smaller: t,
    }))
}

/// The sides of an equation by their order: None exactly where f is no equation, or its sides are one.
fn sides_of(bank: &Bank, sizes: &mut Sizes, f: u64) -> Result<Option<Sides>, Memory>
    requires sizes { AreSizes bank.now sizes.old }
    requires within { f < length bank.now }
    requires closed { IsScoped 0 (tree_at bank.now f) }
    ensures sizes { AreSizes bank.now sizes.new }
    ensures ok { IfOk result (HasSides bank.now (sides_of (tree_at bank.now f))) }
{
    match shape_at(bank, f) {
        Shape::Eq(s, t) => ordered(bank, sizes, s, t),
        _ => Ok(None),
    }
}

/// Whether the entry `i` is live, and the equation q with this greater side fits it.
fn fits(
    bank: &Bank,
    alloc: Global,
    parts: &Parts,
    q: u64,
    greater: u64,
    i: u64,
) -> Result<bool, Memory>
    requires held { Holds parts.now }
    requires known { AreKnown (length bank.now) (shown parts.now).now }
    requires below { AreBelow (length bank.now) (q ∷ greater ∷ []) }
    requires within { i < length (shown parts.now).now }
    ensures { IfOk result (λ b. b ≡ fits_at bank.now (shown parts.now).now
        (tree_at bank.now q) (tree_at bank.now greater) i) }
{
    let item = entry(parts, i);
    if !item.live {
        return Ok(false);
    }
    if same_term(bank, q, item.formula) {
        return Ok(false);
    }
    occurs(bank, alloc, greater, item.formula)
}

/// The oldest live entry that the equation q with this greater side fits, where it fits none of the oldest `start`.
fn oldest_fit(
    bank: &Bank,
    alloc: Global,
    parts: &Parts,
    q: u64,
    greater: u64,
    start: u64,
) -> Result<Option<u64>, Memory>
    requires held { Holds parts.now }
    requires known { AreKnown (length bank.now) (shown parts.now).now }
    requires below { AreBelow (length bank.now) (q ∷ greater ∷ []) }
    requires before { FitsNone bank.now (shown parts.now).now
        (tree_at bank.now q) (tree_at bank.now greater) start }
    ensures { IfOk result (IsOldest (fits_at bank.now (shown parts.now).now
        (tree_at bank.now q) (tree_at bank.now greater)) (length (shown parts.now).now)) }
{
    for i in start..length(parts) {
        if fits(bank, alloc, parts, q, greater, i)? {
            return Ok(Some(i));
        }
    }
    Ok(None)
}

/// The replacement by the equation q with these sides, in the oldest live entry that it fits, where it fits none of the oldest
/// `start`.
fn by_sides(
    bank: &Bank,
    alloc: Global,
    parts: &Parts,
    q: u64,
    sides: Sides,
    start: u64,
) -> Result<Option<Replacement>, Memory>
    requires held { Holds parts.now }
    requires known { AreKnown (length bank.now) (shown parts.now).now }
    requires equation { q < length bank.now }
    requires sides { AreSides bank.now sides }
    requires before { FitsNone bank.now (shown parts.now).now
        (tree_at bank.now q) (tree_at bank.now sides.greater) start }
    ensures { IfOk result (HasReplacement bank.now (shown parts.now).now
        (by_sides (branch_of bank.now (shown parts.now).now)
        (tree_at bank.now q) (ordered_of bank.now sides))) }
{
    match oldest_fit(bank, alloc, parts, q, sides.greater, start)? {
        Some(place) => Ok(Some(Replacement {
            equation: q,
            sides,
            place,
        })),
        None => Ok(None),
    }
}

/// The first entry that the entry `i` was not tried on, where those before `seen` were tried on one another.
fn first_untried(i: u64, seen: u64) -> u64
    ensures { result ≡ first_untried i seen }
{
    if i < seen { seen } else { 0 }
}

/// The replacement by the entry `i` as an equation, where it is live, and no entry before `seen` fits another such one.
fn by_entry(
    bank: &Bank,
    sizes: &mut Sizes,
    alloc: Global,
    parts: &Parts,
    i: u64,
    seen: u64,
) -> Result<Option<Replacement>, Memory>
    requires held { Holds parts.now }
    requires known { AreKnown (length bank.now) (shown parts.now).now }
    requires closed { AreClosed bank.now (shown parts.now).now }
    requires sizes { AreSizes bank.now sizes.old }
    requires within { i < length (shown parts.now).now }
    requires seen { NoneFits bank.now (shown parts.now).now seen }
    ensures sizes { AreSizes bank.now sizes.new }
    ensures ok { IfOk result (HasReplacement bank.now (shown parts.now).now
        (by_entry bank.now (shown parts.now).now i)) }
{
    let item = entry(parts, i);
    if !item.live {
        return Ok(None);
    }
    match sides_of(bank, sizes, item.formula)? {
        Some(sides) => {
            let start = first_untried(i, seen);
            by_sides(bank, alloc, parts, item.formula, sides, start)
        }
        None => Ok(None),
    }
}

/// The replacement by the oldest live equation that fits some other live entry, where no entry before `seen` fits another such
/// one.
fn oldest_replacement(
    bank: &Bank,
    sizes: &mut Sizes,
    alloc: Global,
    parts: &Parts,
    seen: u64,
) -> Result<Option<Replacement>, Memory>
    requires held { Holds parts.now }
    requires known { AreKnown (length bank.now) (shown parts.now).now }
    requires closed { AreClosed bank.now (shown parts.now).now }
    requires sizes { AreSizes bank.now sizes.old }
    requires seen { NoneFits bank.now (shown parts.now).now seen }
    ensures sizes { AreSizes bank.now sizes.new }
    ensures ok { IfOk result (HasReplacement bank.now (shown parts.now).now
        (replace_rule (branch_of bank.now (shown parts.now).now))) }
{
    if seen >= length(parts) {
        return Ok(None);
    }
    for i in 0..length(parts) {
        match by_entry(bank, sizes, alloc, parts, i, seen)? {
            Some(replacement) => return Ok(Some(replacement)),
            None => {}
        }
    }
    Ok(None)
}

/// The rule of a replacement.
fn replaced(
    bank: &mut Bank,
    alloc: Global,
    parts: &Parts,
    replacement: Replacement,
) -> Result<Found, Memory>
    requires held { Holds parts.now }
    requires known { AreKnown (length bank.old) (shown parts.now).now }
    requires replacement { IsReplacement bank.old (shown parts.now).now replacement }
    ensures extends { Extends bank.old bank.new }
    ensures distinct { IsDistinct bank.new }
    ensures found { IfOk result (IsFound bank.new (shown parts.now).now
        (Some (replaced_result bank.old (shown parts.now).now replacement))) }
{
    let f = entry(parts, replacement.place).formula;
    let Sides { greater, smaller } = replacement.sides;
    let changed = replace(bank, alloc, greater, smaller, f)?;
    let named = [f, replacement.equation];
    alone_found(
        bank,
        alloc,
        replacement.place,
        Rule::Replaced,
        &named,
        &[greater, smaller],
        changed,
    )
}

/// Rank replace, where no live entry before `seen` fits, as an equation, another such one: the oldest live equation that fits
/// some other live entry; the oldest such entry dies and gives itself with the smaller side for the greater. Only what is not
/// before `seen` is tried.
pub fn replace_from(
    bank: &mut Bank,
    sizes: &mut Sizes,
    alloc: Global,
    parts: &Parts,
    seen: u64,
) -> Result<Option<Found>, Memory>
    requires held { Holds parts.now }
    requires known { AreKnown (length bank.old) (shown parts.now).now }
    requires closed { AreClosed bank.old (shown parts.now).now }
    requires sizes { AreSizes bank.old sizes.old }
    requires seen { NoneFits bank.old (shown parts.now).now seen }
    ensures extends { Extends bank.old bank.new }
    ensures distinct { IsDistinct bank.new }
    ensures sizes { AreSizes bank.new sizes.new }
    ensures answer { IfOk result (IsAnswer bank.new (shown parts.now).now
        (replace_rule (branch_of bank.new (shown parts.now).now))) }
    ensures closed { IfOk result (AddsClosed bank.new) }
    ensures tried { IfOk result (λ o. o ≡ None
        → NoneFits bank.new (shown parts.now).now (length (shown parts.now).now)) }
{
    let _count = bank.count();
    match oldest_replacement(bank, sizes, alloc, parts, seen)? {
        Some(replacement) => Ok(Some(replaced(bank, alloc, parts, replacement)?)),
        None => Ok(None),
    }
}

/// Rank replace.
pub fn replace_rank(
    bank: &mut Bank,
    sizes: &mut Sizes,
    alloc: Global,
    parts: &Parts,
) -> Result<Option<Found>, Memory>
    requires held { Holds parts.now }
    requires known { AreKnown (length bank.old) (shown parts.now).now }
    requires closed { AreClosed bank.old (shown parts.now).now }
    requires sizes { AreSizes bank.old sizes.old }
    ensures extends { Extends bank.old bank.new }
    ensures distinct { IsDistinct bank.new }
    ensures sizes { AreSizes bank.new sizes.new }
    ensures answer { IfOk result (IsAnswer bank.new (shown parts.now).now
        (replace_rule (branch_of bank.new (shown parts.now).now))) }
    ensures closed { IfOk result (AddsClosed bank.new) }
    ensures tried { IfOk result (λ o. o ≡ None
        → NoneFits bank.new (shown parts.now).now (length (shown parts.now).now)) }
{
    replace_from(bank, sizes, alloc, parts, 0)
}
