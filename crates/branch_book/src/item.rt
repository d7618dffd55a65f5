//! Entries and changes.
/// An entry of a branch: the number of its formula, its class, whether rules still look at it, and how many instances it
/// gave.
#[derive(Clone, Copy, Debug, PartialEq, Eq)]
pub struct Item {
    pub formula: u64,
    pub class: u64,
    pub live: bool,
    pub count: u64,
}

/// A change, with what takes it back.
#[derive(Clone, Copy, Debug, PartialEq, Eq)]
pub enum Move {
    /// An entry came to the end.
    Added,
    /// A live entry died. It stood in its class's list between these two links.
    Killed { entry: u64, before: u64, after: u64 },
    /// A dead entry was to die.
    Kept,
    /// The count of an entry was raised.
    Counted { entry: u64 },
}
