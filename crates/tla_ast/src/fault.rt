//! The faults of a text: their kinds, the order of the kinds and their texts.

ghost use Rattle.std.specs.Prelude.{◌≡◌, ◌∷◌, ◌++◌, IfOk};
ghost use Rattle.std.specs.Option.{option_copied};
ghost use Rattle.tla_ast.specs.Fault.{rank, kind_text, name_of, carried};

use crate::place::Place;
use core_expr::{Memory, Text};
use std::alloc::{AllocError, Global};

/// Why a module is refused. Of several faults at one place the first in this order is told.
#[derive(Debug, Drop)]
pub enum Kind {
    /// More than 1048576 bytes.
    TooLong,
    /// No module header.
    NoModule,
    /// A byte, or a run of letters, digits and `_`, with which no token begins.
    BadByte,
    /// A `(*` that is not closed.
    OpenComment,
    /// A `"` that is not closed on its line.
    OpenString,
    /// A number or a step level of 2^128 or more.
    NumberTooLarge,
    /// A token with which no reading goes on.
    Expected,
    /// An operator with which the operators before it have no right tree.
    Precedence,
    /// A nesting over 200.
    TooDeep,
    /// A construct of the language that is left out, by its sign or word.
    Unsupported(Text),
    /// A step token of a level that cannot stand here.
    StepLevel,
    /// A proof by steps that does not end with QED.
    NoQed,
    /// A header with another name than that of its file.
    NameMismatch,
    /// A module that extends itself, directly or through others.
    Cycle(Text),
    /// More than 64 modules.
    TooMany,
    /// The name of no step.
    UnknownStep,
    /// The name of a step that is not seen here.
    StepOutOfScope,
    /// A step's name for the second time.
    DuplicateStep,
    /// A name that means nothing here.
    Unknown(Text),
    /// A name that has a meaning already.
    Redeclared(Text),
    /// A name with a wrong number of arguments.
    Arity(Text),
    /// An operator on an expression of too high a level.
    Level,
    /// An ASSUME of a level over that of a constant.
    AssumeLevel,
}

/// Two words with a space between them.
fn spelled(alloc: Global, name: &[u8], carried: &[u8]) -> Result<Vec<u8>, AllocError>
    ensures { IfOk result (λ v. v.items ≡ name.now ++ 32 ∷ carried.now) }
{
    let mut bytes = Vec::from_slice(alloc, name)?;
    bytes.push(b' ')?;
    bytes.extend_from_slice(carried)?;
    Ok(bytes)
}

impl Kind {
    /// The number of this kind in the order of kinds, from 0.
    pub fn rank(&self) -> u64
        ensures { result ≡ rank self.now }
    {
        match self {
            Kind::TooLong => 0,
            Kind::NoModule => 1,
            Kind::BadByte => 2,
            Kind::OpenComment => 3,
            Kind::OpenString => 4,
            Kind::NumberTooLarge => 5,
            Kind::Expected => 6,
            Kind::Precedence => 7,
            Kind::TooDeep => 8,
            Kind::Unsupported(_) => 9,
            Kind::StepLevel => 10,
            Kind::NoQed => 11,
            Kind::NameMismatch => 12,
            Kind::Cycle(_) => 13,
            Kind::TooMany => 14,
            Kind::UnknownStep => 15,
            Kind::StepOutOfScope => 16,
            Kind::DuplicateStep => 17,
            Kind::Unknown(_) => 18,
            Kind::Redeclared(_) => 19,
            Kind::Arity(_) => 20,
            Kind::Level => 21,
            Kind::AssumeLevel => 22,
        }
    }

    /// The name of the kind alone.
    pub fn name(&self) -> &'static [u8]
        ensures { result.now ≡ name_of self.now }
    {
        match self {
            Kind::TooLong => b"TooLong",
            Kind::NoModule => b"NoModule",
            Kind::BadByte => b"BadByte",
            Kind::OpenComment => b"OpenComment",
            Kind::OpenString => b"OpenString",
            Kind::NumberTooLarge => b"NumberTooLarge",
            Kind::Expected => b"Expected",
            Kind::Precedence => b"Precedence",
            Kind::TooDeep => b"TooDeep",
            Kind::Unsupported(_) => b"Unsupported",
            Kind::StepLevel => b"StepLevel",
            Kind::NoQed => b"NoQed",
            Kind::NameMismatch => b"NameMismatch",
            Kind::Cycle(_) => b"Cycle",
            Kind::TooMany => b"TooMany",
            Kind::UnknownStep => b"UnknownStep",
            Kind::StepOutOfScope => b"StepOutOfScope",
            Kind::DuplicateStep => b"DuplicateStep",
            Kind::Unknown(_) => b"Unknown",
            Kind::Redeclared(_) => b"Redeclared",
            Kind::Arity(_) => b"Arity",
            Kind::Level => b"Level",
            Kind::AssumeLevel => b"AssumeLevel",
        }
    }

    /// The name that a kind carries, where it carries one.
    pub fn carried(&self) -> Option<&Text>
        ensures { option_copied result ≡ carried self.now }
    {
        match self {
            Kind::Unsupported(name)
            | Kind::Cycle(name)
            | Kind::Unknown(name)
            | Kind::Redeclared(name)
            | Kind::Arity(name) => Some(name),
            _ => None,
        }
    }

    /// The name of the kind and, where it carries a name, a space and that name.
    pub fn text(&self, alloc: Global) -> Result<Text, Memory>
        ensures { IfOk result (λ t. t ≡ kind_text self.now) }
    {
        match self.carried() {
            None => Text::of(alloc, self.name()),
            Some(carried) => {
                let bytes = spelled(alloc, self.name(), carried.bytes())?;
                Text::of(alloc, bytes.as_slice())
            }
        }
    }
}

/// Why a text is no module, with the place of what is wrong, or want of memory. Every layer that reads a text answers this.
#[derive(Debug, Drop)]
pub enum Fault {
    Memory,
    At { place: Place, kind: Kind },
}

/// A text that has no tokens, or want of memory.
pub type LexFault = Fault;

/// Tokens with no reading, or want of memory.
pub type SynFault = Fault;

/// A step's name that means nothing, or want of memory.
pub type OutlineFault = Fault;

impl From<Memory> for Fault {
    ghost use Rattle.std.specs.Prelude.{◌≡◌};
    ghost use Rattle.tla_ast.specs.declared.fault.Fault.TheVariants as fault;

    ghost from_gives = { λ _ e. e ≡ fault.Memory };

    /// Want of memory.
    fn from(_: Memory) -> Fault {
        Fault::Memory
    }
}

impl From<AllocError> for Fault {
    ghost use Rattle.std.specs.Prelude.{◌≡◌};
    ghost use Rattle.tla_ast.specs.declared.fault.Fault.TheVariants as fault;

    ghost from_gives = { λ _ e. e ≡ fault.Memory };

    /// Want of memory.
    fn from(_: AllocError) -> Fault {
        Fault::Memory
    }
}

/// A name, arity or level that is wrong in the module of this name, or want of memory.
#[derive(Debug, Drop)]
pub enum ScopeFault {
    Memory,
    At {
        module: Text,
        place: Place,
        kind: Kind,
    },
}

impl From<Memory> for ScopeFault {
    ghost use Rattle.std.specs.Prelude.{◌≡◌};
    ghost use Rattle.tla_ast.specs.declared.fault.ScopeFault.TheVariants as fault;

    ghost from_gives = { λ _ e. e ≡ fault.Memory };

    /// Want of memory.
    fn from(_: Memory) -> ScopeFault {
        ScopeFault::Memory
    }
}

impl From<AllocError> for ScopeFault {
    ghost use Rattle.std.specs.Prelude.{◌≡◌};
    ghost use Rattle.tla_ast.specs.declared.fault.ScopeFault.TheVariants as fault;

    ghost from_gives = { λ _ e. e ≡ fault.Memory };

    /// Want of memory.
    fn from(_: AllocError) -> ScopeFault {
        ScopeFault::Memory
    }
}
