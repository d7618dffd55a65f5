//! The nodes of several expressions, one after another.
ghost use Rattle.std.specs.Prelude.{◌≡◌, [], ◌++◌, IfOk};
ghost use Rattle.core_expr.specs.Rows.{raised};

use crate::memory::Memory;
use crate::row::Row;
use crate::rows::raise;
use sqlite_items::Items;
use std::alloc::Global;

/// The nodes of some expressions, one after another, and their spans.
#[derive(Debug, Drop)]
pub struct Forest {
    /// The nodes.
    pub rows: Items<Row>,
    /// For each node, how many nodes its subtree has.
    pub spans: Items<u64>,
}

impl Forest {
    /// No nodes.
    pub(crate) fn new(alloc: Global) -> Forest
        ensures rows { result.rows ≡ [] }
        ensures spans { result.spans ≡ [] }
    {
        Forest {
            rows: Items::new(alloc),
            spans: Items::new(alloc),
        }
    }

    /// The nodes with those of `more` behind them. The first nodes are moved and not copied.
    pub(crate) fn with(self, more: Forest) -> Result<Forest, Memory>
        ensures rows { IfOk result (λ f. f.rows ≡ self.rows ++ more.rows) }
        ensures spans { IfOk result (λ f. f.spans ≡ self.spans ++ more.spans) }
    {
        if self.rows.is_empty() && self.spans.is_empty() {
            return Ok(more);
        }
        let Forest {
            mut rows,
            mut spans,
        } = self;
        rows.append(more.rows)?;
        spans.append(more.spans)?;
        Ok(Forest { rows, spans })
    }

    /// The nodes with those of `more`, under one more binder, behind them.
    pub(crate) fn with_body(self, alloc: Global, more: Forest) -> Result<Forest, Memory>
        ensures rows { IfOk result (λ f. f.rows ≡ self.rows ++ raised 1 more.rows) }
        ensures spans { IfOk result (λ f. f.spans ≡ self.spans ++ more.spans) }
    {
        let Forest {
            mut rows,
            mut spans,
        } = self;
        raise(alloc, &mut rows, more.rows.as_slice(), 1)?;
        spans.append(more.spans)?;
        Ok(Forest { rows, spans })
    }
}
