//! Places in a text, and their order.

ghost use Rattle.std.specs.Prelude.{◌≡◌};
ghost use Rattle.tla_ast.specs.Place.{before, compare_places};

use std::cmp::Ordering;

/// A place in a text: line and column, both counted from 1. Each byte takes one column, but that a tab moves to the next
/// column of the form 8j + 1 and a line feed begins a line.
#[derive(Clone, Copy, Debug, PartialEq, Eq)]
pub struct Place {
    pub line: u64,
    pub column: u64,
}

impl Place {
    /// Whether this place stands before the other: on an earlier line, or on the same line in an earlier column.
    pub fn is_before(&self, other: &Place) -> bool
        ensures { result ≡ before self.now other.now }
    {
        self.line < other.line || (self.line == other.line && self.column < other.column)
    }

    /// The order of the text: by line and then by column.
    pub fn compare(&self, other: &Place) -> Ordering
        ensures { result ≡ compare_places self.now other.now }
    {
        if self.is_before(other) {
            Ordering::Less
        } else if other.is_before(self) {
            Ordering::Greater
        } else {
            Ordering::Equal
        }
    }
}
