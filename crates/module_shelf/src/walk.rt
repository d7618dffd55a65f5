//! What an extended name asks for.

ghost use Rattle.std.specs.Prelude.{◌≡◌, ◌≢◌, ◌≤◌, ◌+◌, length, IfOk, IfErr};
ghost use Rattle.tla_ast.specs.Word as word;
ghost use Rattle.module_shelf.specs.Loading as spec;
ghost use Rattle.module_shelf.specs.Causes.{Ends};
ghost use Rattle.module_shelf.specs.Order.{Asked};
ghost use Rattle.module_shelf.specs.declared.fault.LoadFault.TheVariants as load;

use crate::fault::LoadFault;
use crate::read::refused;
use core_expr::Text;
use std::alloc::Global;
use std_names::is_library;
use tla_ast::{Fault, Kind, MOST_MODULES, Module, Place};

/// Whether a name is one of these.
fn is_on(path: &[Text], name: &[u8]) -> bool
    ensures { result ≡ word.is_among path.now name.now }
{
    path.iter().any(|entry| entry.bytes() == name)
}

/// Whether one of these modules has this name.
fn is_complete(modules: &[Module], name: &[u8]) -> bool
    ensures { result ≡ spec.has modules.now name.now }
{
    modules.iter().any(|entry| entry.name.bytes() == name)
}

/// Whether a name that the module `inside` extends has still to be loaded: not where it means a library module, or one that is
/// complete. A name on the path is a cycle, and 64 modules are the most.
#[tactic(auto, unfolding(crate::specs::Loading::asks))]
pub fn asks(
    alloc: Global,
    path: &[Text],
    done: &[Module],
    inside: &Text,
    extended: &(Text, Place),
) -> Result<bool, LoadFault>
    requires { length path.now + length done.now ≤ 64 }
    ensures told { Ends (λ b. b) result (spec.asks path.now done.now inside.now extended.now) }
    ensures never { IfErr result (λ e. e ≢ load.ReadFault) }
    ensures asked { IfOk result (Asked path.now done.now extended.now) }
{
    let (name, place) = extended;
    if is_library(name.bytes()) {
        return Ok(false);
    }
    let kind = if is_on(path, name.bytes()) {
        Kind::Cycle(Text::of(alloc, name.bytes())?)
    } else if is_complete(done, name.bytes()) {
        return Ok(false);
    } else if path.len() + done.len() < MOST_MODULES as usize {
        return Ok(true);
    } else {
        Kind::TooMany
    };
    let place = *place;
    Err(refused(alloc, inside, Fault::At { place, kind })?)
}
