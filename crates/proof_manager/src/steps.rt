//! The step names of all theorems.

ghost use Rattle.std.specs.Prelude.{◌≡◌, map, IfOk};
ghost use Rattle.plain_syntax.specs.Syntax.{kind_of, unit_of, module_of};
ghost use Rattle.proof_manager.specs.Reading as spec;

use core_expr::{Memory, Text};
use proof_outline::outline;
use std::alloc::Global;
use tla_ast::{Module, OutlineFault, ScopeFault, Unit, UnitKind};

/// The fault of the step names of a unit's theorem, if it is one.
fn unit_fault(alloc: Global, unit: &Unit) -> Result<Option<OutlineFault>, Memory>
    ensures { IfOk result (λ o. o ≡ spec.unit_fault (kind_of unit.now.kind)) }
{
    let UnitKind::Theorem {
        name: _,
        statement: _,
        proof,
    } = &unit.kind
    else {
        return Ok(None);
    };
    match outline(alloc, proof) {
        Ok(_) => Ok(None),
        Err(OutlineFault::Memory) => Err(Memory),
        Err(fault) => Ok(Some(fault)),
    }
}

/// The first fault of the step names of units.
fn units_fault(alloc: Global, units: &[Unit]) -> Result<Option<OutlineFault>, Memory>
    ensures { IfOk result (λ o. o ≡ spec.units_fault (map unit_of units.now)) }
{
    for unit in units {
        if let Some(fault) = unit_fault(alloc, unit)? {
            return Ok(Some(fault));
        }
    }
    Ok(None)
}

/// A fault in a module of this name.
fn in_module(alloc: Global, name: &Text, fault: OutlineFault) -> Result<ScopeFault, Memory>
    ensures { IfOk result (λ e. e ≡ spec.in_module name.now fault) }
{
    match fault {
        OutlineFault::Memory => Ok(ScopeFault::Memory),
        OutlineFault::At { place, kind } => Ok(ScopeFault::At {
            module: Text::of(alloc, name.bytes())?,
            place,
            kind,
        }),
    }
}

/// The first module with a fault of step names: how many modules stand before it, and the fault.
pub fn modules_fault(
    alloc: Global,
    modules: &[Module],
) -> Result<Option<(usize, ScopeFault)>, Memory>
    ensures { IfOk result (λ o. o ≡ spec.modules_fault (map module_of modules.now)) }
{
    for (number, module) in modules.iter().enumerate() {
        if let Some(fault) = units_fault(alloc, module.units.as_slice())? {
            return Ok(Some((number, in_module(alloc, &module.name, fault)?)));
        }
    }
    Ok(None)
}
