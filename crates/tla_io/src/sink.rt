//! Where a report goes.

ghost use Rattle.std.specs.Prelude.{◌≡◌, ◌<◌, ◌≤◌, ℕ, List, length, take, IfOk, OnOk, OnErr, Option};
ghost use Rattle.tla_io.specs.Causes.{HasCause};
ghost use Rattle.tla_io.specs.Told.{Takes, with_more};

use crate::faults::Failed;

/// What takes bytes, piece by piece.
pub trait Sink {
    /// The bytes taken so far, where the sink tells them.
    ghost taken: { Self → Option (List ℕ) };

    /// How often the sink has failed.
    ghost count: { Self → ℕ };

    /// Takes bytes from the front of the piece, at least one where it has any, and answers how many; or takes none, and
    /// fails.
    fn write(&mut self, piece: &[u8]) -> Result<u64, Failed>
        ensures within { IfOk result (λ n. n ≤ length piece.now) }
        ensures some { IfOk result (λ n. 0 < length piece.now → 0 < n) }
        ensures takes { Takes (taken self.old) (taken self.new) piece.now result }
        ensures cause { HasCause (count self.old) (count self.new) result };

    /// How often the sink has failed, up to 2^64 - 1.
    fn faults(&self) -> u64
        ensures { result ≡ count self.now };
}

/// Writes all the bytes, by as many calls as that takes. After a failure the sink took a part of them from the front,
/// and not all. Where there are no bytes the sink is not called.
pub fn write_whole<K: Sink>(out: &mut K, bytes: &[u8]) -> Result<(), Failed>
    ensures whole { OnOk result (K.taken out.new ≡ with_more (K.taken out.old) bytes.now) }
    ensures part { OnErr result ((n : ℕ) × (n < length bytes.now)
        × (K.taken out.new ≡ with_more (K.taken out.old) (take n bytes.now))) }
    ensures cause { HasCause (K.count out.old) (K.count out.new) result }
    ensures nothing { length bytes.now ≡ 0 → out.new ≡ out.old }
{
    let mut done = 0;
    while done < bytes.len() {
        let piece = &bytes[done..];
        let count = out.write(piece)?;
        done += count as usize;
    }
    Ok(())
}
