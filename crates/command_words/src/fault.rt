//! Why words are not read.

/// The words are unlawful; or there is no memory.
#[derive(Clone, Copy, Debug, PartialEq, Eq)]
pub enum WordsFault {
    Words,
    Memory,
}
