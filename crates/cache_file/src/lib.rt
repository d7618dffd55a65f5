//! The file of a cache: its lines, the records among them, and the lines that a run writes.
//!
//! To the layers above this crate promises: [`read_cache`] cuts the bytes into lines, reads each by several threads at once, keeps the
//! records in order and counts all other lines. A line is a record (`specs/Records.antt`) where it is not too long and has what
//! `text_writer` writes of a canonical form, the list of any proof, and the form's key. The records of lines are one list
//! ([`records_are_one`]). [`write_cache`] writes the jobs that are proved, each on a line (`specs/Written.antt`), and what it writes
//! is read back as records of the same forms, whose proofs have the same trees. Want of memory is the only other answer of both.
#![tactic(auto)]

mod laws;
mod lines;
mod read;
mod record;
mod write;

pub use laws::records_are_one;
pub use read::read_cache;
pub use write::write_cache;
