//! Finished second sides.

/// A finished second side: the number of its split, and whether it uses what the split newly added there.
#[derive(Clone, Copy, Debug)]
pub struct Second {
    pub number: u64,
    pub needed: bool,
}
