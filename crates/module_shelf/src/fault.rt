//! Why there are no modules.

use core_expr::{Memory, Text};
use std::alloc::AllocError;
use tla_ast::{Kind, Place};

/// Why the loading of a module stops.
#[derive(Debug, Drop)]
pub enum LoadFault {
    /// The shelf has no module of this name.
    NotFound(Text),
    /// The shelf failed.
    ReadFault,
    /// The text under the name `module` is refused, at this place of it.
    Refused {
        module: Text,
        place: Place,
        kind: Kind,
    },
    /// Memory was not found.
    Memory,
}

impl From<Memory> for LoadFault {
    ghost use Rattle.std.specs.Prelude.{◌≡◌};
    ghost use Rattle.module_shelf.specs.declared.fault.LoadFault.TheVariants as fault;

    ghost from_gives = { λ _ e. e ≡ fault.Memory };

    /// Want of memory.
    fn from(_: Memory) -> LoadFault {
        LoadFault::Memory
    }
}

impl From<AllocError> for LoadFault {
    ghost use Rattle.std.specs.Prelude.{◌≡◌};
    ghost use Rattle.module_shelf.specs.declared.fault.LoadFault.TheVariants as fault;

    ghost from_gives = { λ _ e. e ≡ fault.Memory };

    /// Want of memory.
    fn from(_: AllocError) -> LoadFault {
        LoadFault::Memory
    }
}
