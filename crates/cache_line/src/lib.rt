//! Lines of a cache: JSON objects with the keys `k`, `o` and `p`, read and written.
//!
//! To the layers above this crate promises: [`read_line`] gives the parts of a line exactly where it has some, as `specs/Lines.antt`
//! says it (`IsLine`), and nothing where it has none; [`write_line`] writes parts compactly, and what it writes is a line with these
//! parts. Text is read and written by `serde_json`, so of a doubled key the last counts, and a number is whole where it is written in
//! digits alone and is below 2^64. Nothing is said here of what the parts mean.
#![tactic(auto)]

mod line;
mod read;
mod write;

pub use line::Line;
pub use read::read_line;
pub use write::write_line;
