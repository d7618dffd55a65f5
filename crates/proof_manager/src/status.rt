//! How a run ended.

ghost use Rattle.std.specs.Prelude.{◌≡◌, ◌++◌, IfOk, OnOk, codes, decimal};
ghost use Rattle.proof_manager.specs.Status.{code_of, text_of};

use core_expr::{Memory, Text};
use itoa::Buffer;
use std::alloc::{AllocError, Global};
use tla_ast::{Kind, Place};

/// How a run ended. Every status but `AllProved`, `NotAll`, `MemoryLeaf`, `WriteFault` and `CacheWrite` comes before anything was written.
#[derive(Debug, Drop)]
pub enum Status {
    /// The report was taken whole, and every theorem is proved.
    AllProved,
    /// The report was taken whole, some theorem is not proved, and every search found memory.
    NotAll,
    /// The words of the command are not lawful.
    Words,
    /// The text of the module is refused at this place (line and column from 1).
    Refused {
        module: Text,
        place: Place,
        kind: Kind,
    },
    /// There is no module of this name.
    NotFound {
        name: Text,
    },
    /// A module could not be read.
    ReadFault,
    /// The cache's file could not be read.
    CacheRead,
    /// The report could not be written whole; what was taken is its front.
    WriteFault,
    /// The report was taken whole, and the cache's file could not be replaced.
    CacheWrite,
    /// Memory was not found, and nothing was written.
    Memory,
    /// The report was taken whole, and the search of some leaf found no memory.
    MemoryLeaf,
}

/// Appends the number in decimal digits.
pub fn push_number(out: &mut Vec<u8>, number: u64) -> Result<(), AllocError>
    ensures { OnOk result (out.new.items ≡ out.old.items ++ decimal number) }
{
    let mut buffer = Buffer::new();
    out.extend_from_slice(buffer.format(number).as_bytes())
}

/// The text of a refusal.
fn refusal(alloc: Global, name: &[u8], place: Place, kind: &[u8]) -> Result<Vec<u8>, AllocError>
    ensures { IfOk result (λ v. v.items
        ≡ codes "refused " ++ name.now ++ codes " " ++ decimal place.line ++ codes ":"
        ++ decimal place.column ++ codes " " ++ kind.now) }
{
    let mut out = Vec::from_slice(alloc, b"refused ")?;
    out.extend_from_slice(name)?;
    out.extend_from_slice(b" ")?;
    push_number(&mut out, place.line)?;
    out.extend_from_slice(b":")?;
    push_number(&mut out, place.column)?;
    out.extend_from_slice(b" ")?;
    out.extend_from_slice(kind)?;
    Ok(out)
}

/// The text of an absence.
fn absence(alloc: Global, name: &[u8]) -> Result<Vec<u8>, AllocError>
    ensures { IfOk result (λ v. v.items ≡ codes "not found " ++ name.now) }
{
    let mut out = Vec::from_slice(alloc, b"not found ")?;
    out.extend_from_slice(name)?;
    Ok(out)
}

impl Status {
    /// The exit status of the program.
    pub fn code(&self) -> u8
        ensures { result ≡ code_of self.now }
    {
        match self {
            Status::AllProved => 0,
            Status::NotAll => 1,
            Status::Words => 2,
            Status::Refused { .. } => 3,
            Status::NotFound { .. } => 4,
            Status::ReadFault => 5,
            Status::CacheRead => 6,
            Status::WriteFault => 7,
            Status::CacheWrite => 8,
            Status::Memory => 9,
            Status::MemoryLeaf => 10,
        }
    }

    /// What is printed on standard error: nothing after a report without a Memory leaf.
    pub fn text(&self, alloc: Global) -> Result<Text, Memory>
        ensures { IfOk result (λ t. t ≡ text_of self.now) }
    {
        match self {
            Status::AllProved | Status::NotAll => Text::of(alloc, b""),
            Status::Words => Text::of(alloc, b"words"),
            Status::Refused {
                module,
                place,
                kind,
            } => {
                let kind = kind.text(alloc)?;
                let bytes = refusal(alloc, module.bytes(), *place, kind.bytes())?;
                Text::of(alloc, bytes.as_slice())
            }
            Status::NotFound { name } => {
                let bytes = absence(alloc, name.bytes())?;
                Text::of(alloc, bytes.as_slice())
            }
            Status::ReadFault => Text::of(alloc, b"read fault"),
            Status::CacheRead => Text::of(alloc, b"cache read fault"),
            Status::WriteFault => Text::of(alloc, b"write fault"),
            Status::CacheWrite => Text::of(alloc, b"cache write fault"),
            Status::Memory => Text::of(alloc, b"memory"),
            Status::MemoryLeaf => Text::of(alloc, b"memory in a leaf"),
        }
    }
}
