//! Why a list is not read.
use core_expr::Memory;
use std::alloc::{AllocError, AllocFailed};
use std::error::Error;
use std::fmt;

/// Why a list of numbers is not read.
#[derive(Clone, Copy, Debug, PartialEq, Eq)]
pub enum TextFault {
    /// The list is no encoding. The index is the first such that no encoding goes on with the numbers up to and with it: the
    /// length where the list only ends early.
    BadText(u64),
    /// There was no memory.
    Memory,
}

impl From<AllocError> for TextFault {
    ghost use Rattle.std.specs.Prelude.{◌≡◌};
    ghost use Rattle.proof_text.specs.declared.fault.TextFault.TheVariants as fault;

    ghost from_gives = { λ _ e. e ≡ fault.Memory };

    fn from(_: AllocError) -> TextFault {
        TextFault::Memory
    }
}

impl<T: Drop> From<AllocFailed<T>> for TextFault {
    ghost use Rattle.std.specs.Prelude.{◌≡◌};
    ghost use Rattle.proof_text.specs.declared.fault.TextFault.TheVariants as fault;

    ghost from_gives = { λ _ e. e ≡ fault.Memory };

    fn from(_: AllocFailed<T>) -> TextFault {
        TextFault::Memory
    }
}

impl From<Memory> for TextFault {
    ghost use Rattle.std.specs.Prelude.{◌≡◌};
    ghost use Rattle.proof_text.specs.declared.fault.TextFault.TheVariants as fault;

    ghost from_gives = { λ _ e. e ≡ fault.Memory };

    fn from(_: Memory) -> TextFault {
        TextFault::Memory
    }
}

impl fmt::Display for TextFault {
    fn fmt<W: fmt::Write>(&self, f: &mut fmt::Formatter<W>) -> fmt::Result {
        match self {
            TextFault::BadText(at) => write!(f, "bad text at {at}"),
            TextFault::Memory => write!(f, "out of memory"),
        }
    }
}

impl Error for TextFault {}
