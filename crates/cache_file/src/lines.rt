//! Lines.
ghost use Rattle.std.specs.Prelude.{◌≡◌, ◌≢◌, ◌<◌, [], ◌∷◌, length, map, IfOk};
ghost use Rattle.cache_file.specs.Lines.{lines_of};

use core_expr::Memory;
use memchr::memchr;
use std::alloc::Global;

/// The byte behind each line but the last.
pub const LINE_FEED: u8 = 10;

/// The bytes before the first line feed, and those behind it.
fn split_line(bytes: &[u8]) -> (&[u8], &[u8])
    requires { bytes.now ≢ [] }
    ensures lines { lines_of bytes.entry.now ≡ result.0.now ∷ lines_of result.1.now }
    ensures fewer { length result.1.now < length bytes.entry.now }
{
    match memchr(LINE_FEED, bytes) {
        Some(end) => (&bytes[..end], &bytes[end + 1..]),
        None => (bytes, &[]),
    }
}

/// The lines, which stand in the bytes.
pub fn lines(alloc: Global, bytes: &[u8]) -> Result<Vec<&[u8]>, Memory>
    ensures { IfOk result (λ v. map (λ l. l.now) v.items ≡ lines_of bytes.entry.now) }
{
    let mut found = Vec::new(alloc);
    let mut left = bytes;
    while !left.is_empty() {
        let (line, behind) = split_line(left);
        found.push(line)?;
        left = behind;
    }
    Ok(found)
}
