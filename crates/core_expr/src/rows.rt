//! What putting in, copying and the test of scopes do to nodes.
ghost use Rattle.std.specs.Prelude.{◌≡◌, ◌↔◌, ◌++◌, ◌+◌, IsTrue, IfOk, OnOk};
ghost use Rattle.core_expr.specs.Heads.{first};
ghost use Rattle.core_expr.specs.Rows.{raised, is_loose_row, replace_row, replaced, row_scoped, rows_scoped};

use crate::memory::Memory;
use crate::row::{Row, RowKind};
use sqlite_items::Items;
use std::alloc::Global;

/// Whether two nodes are equal.
fn same_row(a: &Row, b: &Row) -> bool
    ensures { IsTrue result ↔ (a.now ≡ b.now) }
{
    a.kind == b.kind
        && a.parts == b.parts
        && a.depth == b.depth
        && a.numbers.as_slice() == b.numbers.as_slice()
}

/// Whether two lists of nodes are equal.
pub(crate) fn same_rows(a: &[Row], b: &[Row]) -> bool
    ensures { IsTrue result ↔ (a.now ≡ b.now) }
{
    if a.len() != b.len() {
        return false;
    }
    for i in 0..a.len() {
        if !same_row(&a[i], &b[i]) {
            return false;
        }
    }
    true
}

/// The node, under `depth` binders.
pub(crate) fn copy_row(alloc: Global, row: &Row, depth: u64) -> Result<Row, Memory>
    ensures { IfOk result (λ r. r ≡ record row.now { depth = depth }) }
{
    let numbers = Items::from_slice(alloc, row.numbers.as_slice())?;
    Ok(Row {
        kind: row.kind,
        numbers,
        parts: row.parts,
        depth,
    })
}

/// Puts the nodes of `by`, under `depth` more binders, at the end of `out`.
pub(crate) fn raise(
    alloc: Global,
    out: &mut Items<Row>,
    by: &[Row],
    depth: u64,
) -> Result<(), Memory>
    ensures { OnOk result (out.new ≡ out.old ++ raised depth by.now) }
{
    for row in by {
        let Some(deeper) = row.depth.checked_add(depth) else {
            return Err(Memory);
        };
        out.push(copy_row(alloc, row, deeper)?)?;
    }
    Ok(())
}

/// The first of the numbers, 0 where there is none.
pub(crate) fn first_number(numbers: &[u64]) -> u64
    ensures { result ≡ first numbers.now }
{
    match numbers.first() {
        Some(number) => *number,
        None => 0,
    }
}

/// Whether the node is a variable that no binder above it binds.
pub(crate) fn is_loose(row: &Row) -> bool
    ensures { result ≡ is_loose_row row.now.kind row.now }
{
    match row.kind {
        RowKind::Bound => first_number(row.numbers.as_slice()) >= row.depth,
        _ => false,
    }
}

/// Puts the node at the end of `out`, or `by` for it where it is a loose variable.
fn replace_one(alloc: Global, out: &mut Items<Row>, row: &Row, by: &[Row]) -> Result<(), Memory>
    ensures { OnOk result (out.new ≡ out.old ++ replace_row row.now.kind row.now by.now) }
{
    if is_loose(row) {
        return raise(alloc, out, by, row.depth);
    }
    out.push(copy_row(alloc, row, row.depth)?)?;
    Ok(())
}

/// The nodes with `by` for each loose variable.
pub(crate) fn replace_all(alloc: Global, rows: &[Row], by: &[Row]) -> Result<Items<Row>, Memory>
    ensures { IfOk result (λ out. out ≡ replaced rows.now by.now) }
{
    let mut out = Items::new(alloc);
    for row in rows {
        replace_one(alloc, &mut out, row, by)?;
    }
    Ok(out)
}

/// A copy of the nodes.
pub(crate) fn copy_rows(alloc: Global, rows: &[Row]) -> Result<Items<Row>, Memory>
    ensures { IfOk result (λ out. out ≡ rows.now) }
{
    let mut out = Items::new(alloc);
    for row in rows {
        out.push(copy_row(alloc, row, row.depth)?)?;
    }
    Ok(out)
}

/// Whether the node is no loose variable from `n` on.
fn is_row_scoped(row: &Row, n: u64) -> bool
    ensures { result ≡ row_scoped n row.now.kind row.now }
{
    match row.kind {
        RowKind::Bound => {
            let index = first_number(row.numbers.as_slice());
            index < row.depth || index - row.depth < n
        }
        _ => true,
    }
}

/// Whether no node is a loose variable from `n` on.
pub(crate) fn are_rows_scoped(rows: &[Row], n: u64) -> bool
    ensures { result ≡ rows_scoped n rows.now }
{
    for row in rows {
        if !is_row_scoped(row, n) {
            return false;
        }
    }
    true
}
