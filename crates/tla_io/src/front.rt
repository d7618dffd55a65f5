//! The front of a text, in memory or in a file.

ghost use Rattle.std.specs.Prelude.{◌≡◌, IfOk, take};
ghost use Rattle.std.specs.Str.{bytes_eq};
ghost use Rattle.tla_io.specs.Files.{IsFront, IsFrontAt, IsWithin};

use crate::folder::Folder;
use core_expr::Memory;
use std::alloc::Global;
use std::io::{ErrorKind, Read};

/// The first bytes of a text, at most so many of them.
pub(crate) fn front_of(alloc: Global, text: &[u8], at_most: u64) -> Result<Vec<u8>, Memory>
    ensures { IfOk result (λ v. v.items ≡ take at_most text.now) }
{
    let count = text.len().min(at_most as usize);
    let front = Vec::from_slice(alloc, &text[..count])?;
    Ok(front)
}

/// Whether two names are the same.
pub(crate) fn is_same(one: &[u8], other: &[u8]) -> bool
    ensures { result ≡ bytes_eq one.now other.now }
{
    one == other
}

/// What a reader gave.
#[derive(Drop)]
pub(crate) enum Front {
    /// Its first bytes.
    Bytes(Vec<u8>),
    /// There is no file to be read.
    Missing,
    /// A read failed.
    Failed,
    /// Memory for the bytes was refused.
    Memory,
}

/// The most bytes of one read.
const PIECE: usize = 4096;

/// The first bytes that a reader gives, at most so many of them.
pub(crate) fn read_front<F: Read>(alloc: Global, file: &mut F, at_most: u64) -> Front
    ensures front { IsFront result (F.remaining file.old) at_most }
    ensures within { IsWithin result at_most }
{
    let mut text = Vec::new(alloc);
    let mut buf = [0u8; PIECE];
    while (text.len() as u64) < at_most {
        let want = (at_most - text.len() as u64).min(PIECE as u64) as usize;
        match file.read(&mut buf[..want]) {
            Ok(0) => return Front::Bytes(text),
            Ok(count) => {
                if text.extend_from_slice(&buf[..count]).is_err() {
                    return Front::Memory;
                }
            }
            Err(_) => return Front::Failed,
        }
    }
    Front::Bytes(text)
}

/// The first bytes of the file at a path, at most so many of them.
pub(crate) fn read_path<F: Folder>(alloc: Global, folder: &F, path: &str, at_most: u64) -> Front
    ensures front { IsFrontAt result (F.held folder.now) path.now at_most }
    ensures within { IsWithin result at_most }
{
    match folder.open_path(path) {
        Ok(mut file) => read_front(alloc, &mut file, at_most),
        Err(error) if error.kind() == ErrorKind::NotFound => Front::Missing,
        Err(_) => Front::Failed,
    }
}
