//! How many nodes the subtree of each node has.
ghost use Rattle.std.specs.Prelude.{◌≡◌, ◌-◌, ◌≤◌, [], length, slice_index_or, IfOk};
ghost use Rattle.core_expr.specs.Spans.{back_over, spans_from};

use crate::memory::Memory;
use crate::row::Row;
use sqlite_items::Items;
use std::alloc::Global;

/// Where the last subtree before the place begins.
fn before(spans: &[u64], place: usize) -> usize
    requires { place ≤ length spans.now }
    ensures { result ≡ place - slice_index_or spans.now (place - 1) 0 }
{
    if place == 0 {
        return 0;
    }
    place.saturating_sub(spans[place - 1] as usize)
}

/// Where the last `parts` subtrees before the place `end` begin.
pub(crate) fn back_over(spans: &[u64], parts: u64, end: usize) -> usize
    requires { end ≤ length spans.now }
    ensures value { result ≡ back_over spans.now parts end }
    ensures bound { result ≤ end }
{
    let mut start = end;
    for skipped in 0..parts {
        start = before(spans, start);
    }
    start
}

/// The spans of the nodes: how many nodes the subtree of each has.
pub(crate) fn spans_of(alloc: Global, rows: &[Row]) -> Result<Items<u64>, Memory>
    ensures { IfOk result (λ spans. spans ≡ spans_from [] rows.now) }
{
    let mut spans = Items::new(alloc);
    for row in rows {
        let end = spans.len();
        let start = back_over(spans.as_slice(), row.parts, end);
        spans.push((end - start) as u64 + 1)?;
    }
    Ok(spans)
}
