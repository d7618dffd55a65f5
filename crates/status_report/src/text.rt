//! The texts of which a report is made.

ghost use Rattle.std.specs.Prelude.{◌≡◌, ◌++◌, codes, decimal, flat_map, OnOk};
ghost use Rattle.status_report.specs.Texts.{line, place_text, name_text, valuation_text, verdict_text, leaf_line, stop_text, count_line};

use crate::table::{LeafIn, Shown};
use core_expr::Text;
use itoa::Buffer;
use std::alloc::AllocError;
use tla_ast::Place;

/// Appends a number in decimal digits.
pub fn push_number(out: &mut Vec<u8>, number: u64) -> Result<(), AllocError>
    ensures { OnOk result (out.new.items ≡ out.old.items ++ decimal number) }
{
    let mut buffer = Buffer::new();
    out.extend_from_slice(buffer.format(number).as_bytes())
}

/// Appends a line that begins with the first text and goes on with the second.
pub fn push_line(out: &mut Vec<u8>, first: &[u8], second: &[u8]) -> Result<(), AllocError>
    ensures { OnOk result (out.new.items ≡ out.old.items ++ line (first.now ++ second.now)) }
{
    out.extend_from_slice(first)?;
    out.extend_from_slice(second)?;
    out.extend_from_slice(b"\n")
}

/// Appends a place.
pub fn push_place(out: &mut Vec<u8>, place: Place) -> Result<(), AllocError>
    ensures { OnOk result (out.new.items ≡ out.old.items ++ place_text place) }
{
    push_number(out, place.line)?;
    out.extend_from_slice(b":")?;
    push_number(out, place.column)
}

/// The name of a theorem; `-` where it has none.
pub fn name_of(name: &Option<Text>) -> &[u8]
    ensures { result.now ≡ name_text name.now }
{
    match name {
        Some(name) => name.bytes(),
        None => b"-",
    }
}

/// Appends a number of turns.
fn push_turns(out: &mut Vec<u8>, verdict: &[u8], turns: u64) -> Result<(), AllocError>
    ensures { OnOk result (out.new.items
        ≡ out.old.items ++ (verdict.now ++ decimal turns ++ codes " turns")) }
{
    out.extend_from_slice(verdict)?;
    push_number(out, turns)?;
    out.extend_from_slice(b" turns")
}

/// Appends the text of a valuation, behind a colon and a blank, where there is one.
fn push_valuation(out: &mut Vec<u8>, valuation: &Option<Text>) -> Result<(), AllocError>
    ensures { OnOk result (out.new.items ≡ out.old.items ++ valuation_text valuation.now) }
{
    if let Some(text) = valuation {
        out.extend_from_slice(b": ")?;
        out.extend_from_slice(text.bytes())?;
    }
    Ok(())
}

/// Appends what a saturated leaf is shown as.
fn push_saturated(out: &mut Vec<u8>, turns: u64, valuation: &Option<Text>) -> Result<(), AllocError>
    ensures { OnOk result (out.new.items ≡ out.old.items
        ++ (codes "saturated, " ++ decimal turns ++ codes " turns" ++ valuation_text valuation.now)) }
{
    push_turns(out, b"saturated, ", turns)?;
    push_valuation(out, valuation)
}

/// Appends what a leaf is shown as.
fn push_verdict(out: &mut Vec<u8>, verdict: &Shown) -> Result<(), AllocError>
    ensures { OnOk result (out.new.items ≡ out.old.items ++ verdict_text verdict.now) }
{
    match verdict {
        Shown::Proved(turns) => push_turns(out, b"proved, ", *turns),
        Shown::Cached => out.extend_from_slice(b"proved, cached"),
        Shown::Saturated(turns, valuation) => push_saturated(out, *turns, valuation),
        Shown::Spent(turns) => push_turns(out, b"spent, ", *turns),
        Shown::Memory => out.extend_from_slice(b"memory"),
        Shown::Temporal => out.extend_from_slice(b"temporal"),
        Shown::Shape => out.extend_from_slice(b"shape"),
        Shown::Omitted => out.extend_from_slice(b"omitted"),
        Shown::Missing => out.extend_from_slice(b"missing"),
    }
}

/// Appends the line of a leaf.
fn push_leaf(out: &mut Vec<u8>, leaf: &LeafIn) -> Result<(), AllocError>
    ensures { OnOk result (out.new.items ≡ out.old.items ++ leaf_line leaf.now) }
{
    out.extend_from_slice(b"  leaf ")?;
    push_place(out, leaf.place)?;
    out.extend_from_slice(b" ")?;
    push_verdict(out, &leaf.verdict)?;
    out.extend_from_slice(b"\n")
}

/// Appends the lines of leaves.
pub fn push_leaves(out: &mut Vec<u8>, leaves: &[LeafIn]) -> Result<(), AllocError>
    ensures { OnOk result (out.new.items ≡ out.old.items ++ flat_map leaf_line leaves.now) }
{
    for leaf in leaves {
        push_leaf(out, leaf)?;
    }
    Ok(())
}

/// The end of the last line, which tells of a run that was stopped.
fn stop_text(stopped: bool) -> &'static [u8]
    ensures { result.now ≡ stop_text stopped }
{
    if stopped { b", stopped" } else { b"" }
}

/// Appends the last line.
pub fn push_count(
    out: &mut Vec<u8>,
    theorems: usize,
    proved: usize,
    stopped: bool,
) -> Result<(), AllocError>
    ensures { OnOk result (out.new.items ≡ out.old.items ++ count_line stopped theorems proved) }
{
    push_number(out, theorems as u64)?;
    out.extend_from_slice(b" theorems, ")?;
    push_number(out, proved as u64)?;
    push_line(out, b" proved", stop_text(stopped))
}
