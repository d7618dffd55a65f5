//! The schemas as nodes over their parameters.
ghost use Rattle.std.specs.Prelude.{map, ◌≡◌, ◌<◌, ◌∷◌, [], length, IfOk, IfSome, IfNone, IsTrue};
ghost use Rattle.std.proofs.Common.{get_or};
ghost use Rattle.core_expr.specs.Put.{IsScoped, inst};
ghost use Rattle.core_expr.specs.Nodes.{AreBelow, picked};
ghost use Rattle.term_bank.specs.Banks.{Extends, tree_at};
ghost use Rattle.proof_checker.specs.declared.pattern.Opening.TheVariants.{Chosen};
ghost use Rattle.proof_checker.specs.Schemas.{pattern_at, cell_list, opening_at, opened, IsOpen, HasPattern, AreOpened, takes_opening, IsBuilt};

use crate::nodes::Cell::{Leaf, One, Three, Two};
use crate::nodes::{Cell, add_cells};
use crate::plan::{chosen, is_body};
use core_expr::Memory;
use std::alloc::Global;
use term_bank::Bank;

/// Which instance of a parameter a schema's formula has.
#[derive(Clone, Copy, Debug)]
pub enum Opening {
    Nothing,
    /// The first parameter's, by what it chooses.
    Chosen,
    /// The third parameter's, by the first.
    Last,
}

/// How many parameters each schema from 2 to 19 has.
pub const COUNTS: [u64; 18] = [3, 3, 3, 2, 2, 3, 3, 1, 2, 2, 1, 3, 3, 2, 3, 4, 3, 3];

/// Of each: the place of a formula in which each parameter stands under as many binders as it may have loose variables.
pub const SUBJECTS: [u64; 18] = [5, 5, 5, 4, 4, 6, 5, 3, 3, 3, 3, 5, 5, 4, 6, 7, 5, 4];

/// Of each: its formula as nodes over the parameters, the instance where it has one, and the variable of the innermost binder.
/// The last node is the formula, where the parameters have no other loose variables than they may have.
pub const CELLS: [&[Cell]; 18] = [
    // t \in a \cup b <=> (t \in a \/ t \in b)
    &[
        Two(18, 1, 2),
        Two(15, 0, 4),
        Two(15, 0, 1),
        Two(15, 0, 2),
        Two(9, 6, 7),
        Two(11, 5, 8),
    ],
    // t \in a \cap b <=> (t \in a /\ t \in b)
    &[
        Two(19, 1, 2),
        Two(15, 0, 4),
        Two(15, 0, 1),
        Two(15, 0, 2),
        Two(8, 6, 7),
        Two(11, 5, 8),
    ],
    // t \in a \ b <=> (t \in a /\ ~(t \in b))
    &[
        Two(20, 1, 2),
        Two(15, 0, 4),
        Two(15, 0, 1),
        Two(15, 0, 2),
        One(7, 7),
        Two(8, 6, 8),
        Two(11, 5, 9),
    ],
    // t \in SUBSET a <=> t \subseteq a
    &[One(21, 1), Two(15, 0, 3), Two(16, 0, 1), Two(11, 4, 5)],
    // t \in UNION a <=> \E x : (x \in a /\ t \in x)
    &[
        One(22, 1),
        Two(15, 0, 3),
        Two(15, 2, 1),
        Two(15, 0, 2),
        Two(8, 5, 6),
        One(13, 7),
        Two(11, 4, 8),
    ],
    // t \in {x \in a : P} <=> (t \in a /\ P[t])
    &[
        Two(23, 1, 2),
        Two(15, 0, 5),
        Two(15, 0, 1),
        Two(8, 7, 3),
        Two(11, 6, 8),
    ],
    // t \in {e : x \in a} <=> \E x : (x \in a /\ t = e)
    &[
        Two(24, 1, 2),
        Two(15, 0, 4),
        Two(15, 3, 1),
        Two(14, 0, 2),
        Two(8, 6, 7),
        One(13, 8),
        Two(11, 5, 9),
    ],
    // t \in BOOLEAN <=> (t = TRUE \/ t = FALSE)
    &[
        Leaf(4),
        Two(15, 0, 2),
        Leaf(0),
        Two(14, 0, 4),
        Leaf(1),
        Two(14, 0, 6),
        Two(9, 5, 7),
        Two(11, 3, 8),
    ],
    // a \subseteq b <=> \A x : (x \in a => x \in b)
    &[
        Two(16, 0, 1),
        Two(15, 2, 0),
        Two(15, 2, 1),
        Two(10, 4, 5),
        One(12, 6),
        Two(11, 3, 7),
    ],
    // (\A x : (x \in a <=> x \in b)) => a = b
    &[
        Two(14, 0, 1),
        Two(15, 2, 0),
        Two(15, 2, 1),
        Two(11, 4, 5),
        One(12, 6),
        Two(10, 7, 3),
    ],
    // (\E x : P) => P[CHOOSE x : P]
    &[One(13, 0), Two(10, 3, 1)],
    // p => (IF p THEN a ELSE b) = a
    &[Three(31, 0, 1, 2), Two(14, 4, 1), Two(10, 0, 5)],
    // ~p => (IF p THEN a ELSE b) = b
    &[Three(31, 0, 1, 2), Two(14, 4, 2), One(7, 0), Two(10, 6, 5)],
    // DOMAIN [x \in s |-> e] = s
    &[Two(25, 0, 1), One(27, 3), Two(14, 4, 0)],
    // a \in s => [x \in s |-> e][a] = e[a]
    &[
        Two(25, 1, 2),
        Two(28, 5, 0),
        Two(15, 0, 1),
        Two(14, 6, 3),
        Two(10, 7, 8),
    ],
    // [x \in s |-> d] = [x \in t |-> e] <=> (s = t /\ \A x : (x \in s => d = e))
    &[
        Two(25, 0, 1),
        Two(25, 2, 3),
        Two(14, 5, 6),
        Two(14, 0, 2),
        Two(15, 4, 0),
        Two(14, 1, 3),
        Two(10, 9, 10),
        One(12, 11),
        Two(8, 8, 12),
        Two(11, 7, 13),
    ],
    // f \in [s -> t] <=> (f = [x \in s |-> f[x]] /\ \A x : (x \in s => f[x] \in t))
    &[
        Two(26, 1, 2),
        Two(15, 0, 4),
        Two(28, 0, 3),
        Two(25, 1, 6),
        Two(14, 0, 7),
        Two(15, 3, 1),
        Two(15, 6, 2),
        Two(10, 9, 10),
        One(12, 11),
        Two(8, 8, 12),
        Two(11, 5, 13),
    ],
    // [f EXCEPT ![a] = b] = [x \in DOMAIN f |-> IF x = a THEN b ELSE f[x]]
    &[
        Three(29, 0, 1, 2),
        One(27, 0),
        Two(14, 3, 1),
        Two(28, 0, 3),
        Three(31, 6, 2, 7),
        Two(25, 5, 8),
        Two(14, 4, 9),
    ],
];

/// Which instance the formula of each has.
fn opening_at(i: u64) -> Opening
    ensures { result ≡ opening_at i }
{
    match i {
        5 | 14 => Opening::Last,
        10 => Opening::Chosen,
        _ => Opening::Nothing,
    }
}

/// How many parameters there are.
fn count_at(i: u64) -> u64
    requires { i < 18 }
    ensures { result ≡ (pattern_at i).count }
{
    COUNTS[i as usize]
}

/// The place of the formula in which each parameter stands as it may.
fn subject_at(i: u64) -> u64
    requires { i < 18 }
    ensures { result ≡ (pattern_at i).subject }
{
    SUBJECTS[i as usize]
}

/// The nodes at this place of a table; none past its end.
fn cells_in(table: &[&'static [Cell]], i: u64) -> &'static [Cell]
    ensures { result.now ≡ get_or (map (λ r. r.now) table.now) i [] }
{
    match table.get(i as usize) {
        Some(cells) => *cells,
        None => &[],
    }
}

/// The nodes.
fn cells_at(i: u64) -> &'static [Cell]
    ensures { result.now ≡ cell_list i }
{
    cells_in(&CELLS, i)
}

/// Adds the instance of a body, where the term is closed and the body has at most one loose variable.
fn add_instance(
    bank: &mut Bank,
    alloc: Global,
    values: &mut Vec<u64>,
    body: u64,
    term: u64,
) -> Result<bool, Memory>
    requires values { AreBelow (length bank.old) values.old.items }
    requires body { body < length bank.old }
    requires term { term < length bank.old }
    ensures extends { Extends bank.old bank.new }
    ensures ok { IfOk result (λ b. AreOpened bank.old bank.new
        (IsScoped 0 (tree_at bank.old term) × IsScoped 1 (tree_at bank.old body))
        (inst (tree_at bank.old body) (tree_at bank.old term) ∷ [])
        values.old.items values.new.items b) }
{
    if !bank.is_closed(term) {
        return Ok(false);
    }
    if !is_body(bank, alloc, body)? {
        return Ok(false);
    }
    let instance = bank.inst(alloc, body, term)?;
    values.push(instance)?;
    Ok(true)
}

/// Adds the instance of the first parameter by what it chooses.
fn add_chosen(bank: &mut Bank, alloc: Global, values: &mut Vec<u64>) -> Result<bool, Memory>
    requires values { AreBelow (length bank.old) values.old.items }
    requires some { 0 < length values.old.items }
    ensures extends { Extends bank.old bank.new }
    ensures ok { IfOk result (λ b. AreOpened bank.old bank.new
        (IsOpen Chosen (picked bank.old values.old.items))
        (opened Chosen (picked bank.old values.old.items))
        values.old.items values.new.items b) }
{
    let body = values[0];
    let term = chosen(bank, alloc, body)?;
    let added = add_instance(bank, alloc, values, body, term)?;
    Ok(added)
}

/// Adds the instance that a formula has. False where it has other loose variables than it may have.
fn add_opening(
    bank: &mut Bank,
    alloc: Global,
    opening: Opening,
    values: &mut Vec<u64>,
) -> Result<bool, Memory>
    requires values { AreBelow (length bank.old) values.old.items }
    requires count { IsTrue (takes_opening opening (length values.old.items)) }
    ensures extends { Extends bank.old bank.new }
    ensures ok { IfOk result (λ b. AreOpened bank.old bank.new
        (IsOpen opening (picked bank.old values.old.items))
        (opened opening (picked bank.old values.old.items))
        values.old.items values.new.items b) }
{
    match opening {
        Opening::Nothing => Ok(true),
        Opening::Chosen => add_chosen(bank, alloc, values),
        Opening::Last => {
            let (term, body) = (values[0], values[2]);
            add_instance(bank, alloc, values, body, term)
        }
    }
}

/// The trees of a pattern with these parameters; None where they have other loose variables than its instance may have.
#[tactic(auto, unfolding(core_expr::specs::Heads::kind_at, core_expr::specs::Heads::kind_table))]
fn build(bank: &mut Bank, alloc: Global, i: u64, params: &[u64]) -> Result<Option<Vec<u64>>, Memory>
    requires pattern { i < 18 }
    requires params { AreBelow (length bank.old) params.now }
    requires count { length params.now ≡ (pattern_at i).count }
    ensures extends { Extends bank.old bank.new }
    ensures some { IfOk result (λ o. IfSome o (λ v. IsBuilt bank.new (pattern_at i)
        (picked bank.old params.now) v.items)) }
    ensures none { IfOk result (λ o. IfNone o
        (IsOpen (pattern_at i).opening (picked bank.old params.now) → ⊥)) }
{
    let mut values = Vec::from_slice(alloc, params)?;
    let begun = add_opening(bank, alloc, opening_at(i), &mut values)?;
    if !begun {
        return Ok(None);
    }
    let variable = bank.make(alloc, 5, &[0], &[])?;
    values.push(variable)?;
    add_cells(bank, alloc, &mut values, cells_at(i))?;
    Ok(Some(values))
}

/// The formula of a pattern with these parameters, where they have no other loose variables than they may have.
pub fn pattern_at(
    bank: &mut Bank,
    alloc: Global,
    i: u64,
    params: &[u64],
) -> Result<Option<u64>, Memory>
    requires pattern { i < 18 }
    requires params { AreBelow (length bank.old) params.now }
    ensures extends { Extends bank.old bank.new }
    ensures ok { IfOk result (λ o. HasPattern bank.new (pattern_at i)
        (picked bank.old params.now) o) }
{
    if params.len() as u64 != count_at(i) {
        return Ok(None);
    }
    let built = build(bank, alloc, i, params)?;
    match built {
        None => Ok(None),
        Some(values) => {
            let subject = values[subject_at(i) as usize];
            if !bank.is_closed(subject) {
                return Ok(None);
            }
            let formula = values[values.len() - 1];
            Ok(Some(formula))
        }
    }
}
