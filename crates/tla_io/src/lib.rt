//! The outside as traits: a shelf of modules, a cache file and a sink, each with a count of its faults.
//!
//! To the layers above this crate promises, for every device of these traits:
//!
//! - A device may tell what it holds (`folder`, `content`, `taken`). Where it does, an answer is exactly what the told
//!   content gives, and the content changes only as the call says.
//! - A call answers `Failed` only where the device's count of faults rose in that call, and any other answer, want of
//!   memory included, leaves the count as it was.
//! - `write_whole` ends, and its sink took all the bytes, or it fails and its sink took a part of them from the front.
//!
//! `MemShelf`, `MemCache` and `MemSink` are devices in memory, which tell what they hold and fail exactly at the calls
//! that they are given. `FileShelf` and `FileCache` stand on any `Folder` of files, and `StdSink` on any writer of std: they
//! keep a count that every error raises, and their own clauses say what was opened, read, put, renamed and written there.
//! What a runtime reaches is such a folder; only its three calls, and the system's writer, tell nothing.
#![tactic(auto)]

pub mod cache_file;
mod calls;
pub mod faults;
pub mod file_cache;
pub mod file_shelf;
pub mod folder;
mod front;
pub mod mem_cache;
pub mod mem_shelf;
pub mod mem_sink;
pub mod shelf;
pub mod sink;
pub mod std_sink;
pub mod words;

pub use cache_file::CacheFile;
pub use faults::{CacheFault, Failed, ShelfFault};
pub use file_cache::FileCache;
pub use file_shelf::FileShelf;
pub use folder::Folder;
pub use mem_cache::MemCache;
pub use mem_shelf::MemShelf;
pub use mem_sink::MemSink;
pub use shelf::Shelf;
pub use sink::{Sink, write_whole};
pub use std_sink::StdSink;
pub use words::command_words;
