//! The program: makes the real devices, calls `run`, prints the status and ends.
#![tactic(auto)]

use proof_manager::{Status, Through, run};
use std::io::{self, Eprint};
use std::process::ExitCode;
use std::rt::{Env, Files};
use std::thread::Threads;
use tla_io::{FileCache, FileShelf, StdSink, command_words};

/// Prints a text on standard error, where it is not empty. Nothing can be told where that fails.
fn print(rt: &impl Eprint, text: &[u8]) {
    if text.is_empty() {
        return;
    }
    let line = str::from_utf8(text).unwrap_or("status");
    let _ = eprintln!(rt; "{line}");
}

/// Runs over the real devices.
fn status_of<R: Env + Files + Print + AllocGlobal + Threads + Sync>(rt: &R) -> Status {
    let Ok(words) = command_words(rt) else {
        return Status::Memory;
    };
    let mut shelf = FileShelf::new(rt);
    let mut cache = FileCache::new(rt);
    let mut out = StdSink::new(io::writer(rt));
    run(
        rt,
        rt.alloc(),
        &words,
        &mut shelf,
        &mut cache,
        &mut out,
        &Through,
    )
}

fn main(rt: HostRuntime) -> ExitCode {
    let status = status_of(&rt);
    match status.text(rt.alloc()) {
        Ok(text) => print(&rt, text.bytes()),
        Err(_) => print(&rt, b"memory"),
    }
    ExitCode::from(status.code())
}
