//! The standard output.

ghost use Rattle.std.specs.Prelude.{◌≡◌, ◌≤◌, ◌<◌, None, IfOk, length};
ghost use Rattle.std.specs.Io.KnownBytes.{WriteAppends};
ghost use Rattle.tla_io.specs.Causes.{HasCause};

use crate::faults::Failed;
use crate::sink::Sink;
use std::io::Write;
use std::marker::Model;

/// A sink over a writer of std, as `io::writer` of the runtime, which writes to the standard output. Each write is one
/// of the writer's; an error, and no byte taken of a piece that is not empty, is a fault. It tells nothing to
/// the traits' callers; its own clause says what the writer holds after a write.
#[derive(Drop)]
pub struct StdSink<W: Write + Drop> {
    writer: W,
    faults: u64,
}

impl<W: Write + Drop> Model for StdSink<W> {
    ghost use Rattle.tla_io.specs.Files.{Counted};

    ghost Value = { Counted W };

    ghost view = { λ s. record { device = s.writer; faults = s.faults } };
}

impl<W: Write + Drop> StdSink<W> {
    /// A sink over this writer.
    pub fn new(writer: W) -> StdSink<W>
        ensures writer { result.device ≡ writer }
        ensures count { ⟦<StdSink<W> as Sink>⟧.count result ≡ 0 }
    {
        StdSink { writer, faults: 0 }
    }
}

/// One write of the writer's, which fails where it takes nothing of a piece that is not empty.
fn write_once<W: Write>(writer: &mut W, piece: &[u8]) -> Result<u64, Failed>
    ensures within { IfOk result (λ n. n ≤ length piece.now) }
    ensures some { IfOk result (λ n. 0 < length piece.now → 0 < n) }
    ensures written { WriteAppends (W.contents writer.old) (W.contents writer.new)
        result piece.now }
{
    match writer.write(piece) {
        Ok(count) if 0 < count || piece.is_empty() => Ok(count as u64),
        _ => Err(Failed),
    }
}

impl<W: Write + Drop> Sink for StdSink<W> {
    ghost taken = { λ _. None };

    ghost count = { λ s. s.faults };

    fn write(&mut self, piece: &[u8]) -> Result<u64, Failed>
        ensures within { IfOk result (λ n. n ≤ length piece.now) }
        ensures some { IfOk result (λ n. 0 < length piece.now → 0 < n) }
        ensures cause { HasCause self.old.faults self.new.faults result }
        ensures written { WriteAppends (W.contents self.old.device) (W.contents self.new.device)
            result piece.now }
    {
        let result = write_once(&mut self.writer, piece);
        if result.is_err() {
            self.faults = self.faults.saturating_add(1);
        }
        result
    }

    fn faults(&self) -> u64 {
        self.faults
    }
}
