//! Moves the loose variables of an expression, on its nodes.
ghost use Rattle.std.specs.Prelude.{◌≡◌, ◌++◌, IfOk, OnOk};
ghost use Rattle.core_expr.specs.Rename.{is_free_row, lifted_row, lifted};

use crate::memory::Memory;
use crate::row::{Row, RowKind};
use crate::rows::{copy_row, first_number};
use sqlite_items::Items;
use std::alloc::Global;

/// Whether the node, of an expression whose root stands under `depth` binders, is a variable that no binder of that
/// expression binds.
fn is_free(row: &Row, depth: u64) -> bool
    ensures { result ≡ is_free_row depth row.now.kind row.now }
{
    match row.kind {
        RowKind::Bound => first_number(row.numbers.as_slice()) >= row.depth.saturating_sub(depth),
        _ => false,
    }
}

/// The node under `rise` more binders, its index up by `by` where it is a free variable. Its expression's root stood
/// under `depth` binders.
fn lift_row(alloc: Global, row: &Row, rise: u64, by: u64, depth: u64) -> Result<Row, Memory>
    ensures { IfOk result (λ r. r ≡ lifted_row rise by depth row.now) }
{
    let Some(deeper) = row.depth.checked_add(rise) else {
        return Err(Memory);
    };
    if !is_free(row, depth) {
        return copy_row(alloc, row, deeper);
    }
    let Some(index) = first_number(row.numbers.as_slice()).checked_add(by) else {
        return Err(Memory);
    };
    let numbers = Items::from_slice(alloc, &[index])?;
    Ok(Row {
        kind: row.kind,
        numbers,
        parts: row.parts,
        depth: deeper,
    })
}

/// Puts the nodes of an expression, whose root stands under `depth` binders, at the end of `out`: under `rise` more
/// binders, with the free variables up by `by`.
pub(crate) fn lift(
    alloc: Global,
    out: &mut Vec<Row>,
    rows: &[Row],
    rise: u64,
    by: u64,
    depth: u64,
) -> Result<(), Memory>
    ensures { OnOk result (out.new.items ≡ out.old.items ++ lifted rise by depth rows.now) }
{
    for row in rows {
        out.push(lift_row(alloc, row, rise, by, depth)?)?;
    }
    Ok(())
}
