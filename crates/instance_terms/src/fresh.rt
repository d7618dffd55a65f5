//! Fresh symbols and signed atoms.

/// The symbols that no formula of a search has, all of them constants: the number of the spare symbol, and the first number of
/// the metavariables.
#[derive(Clone, Copy, Debug)]
pub struct FreshNumbers {
    pub spare: u64,
    pub metas: u64,
}

/// An atom by its index with its sign, that is whether it is said to hold, and the number of its metavariables.
#[derive(Clone, Copy, Debug)]
pub struct SignedAtom {
    pub holds: bool,
    pub atom: u64,
    pub metas: u64,
}
