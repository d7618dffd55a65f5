//! The limits of the language that is read.

/// The most bytes that a text may have.
pub const MOST_BYTES: usize = 1_048_576;

/// The most nestings that an expression or a proof may stand in.
pub const MOST_NESTINGS: u64 = 200;

/// The most modules that a run may read.
pub const MOST_MODULES: u64 = 64;
