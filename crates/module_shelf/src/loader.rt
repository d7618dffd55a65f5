//! The walk over what modules extend.

ghost use Rattle.std.specs.Prelude.{◌≡◌, ◌∷◌, ◌++◌, ◌-◌, [], OnOk, IfOk, length, option_map};
ghost use Rattle.module_shelf.specs.Loading as spec;
ghost use Rattle.module_shelf.specs.Order.{Fine, MayBegin, Reached, Visited, IsOrdered};
ghost use Rattle.module_shelf.specs.Causes.{Ends, Loads, LoadCause, WhereTold};

use crate::fault::LoadFault;
use crate::read::find_module;
use crate::walk::asks;
use core_expr::{Memory, Text};
use sqlite_items::Items;
use std::alloc::Global;
use tla_ast::{Loaded, Module, Place};
use tla_io::Shelf;

/// The names with one more behind them.
fn with_name(alloc: Global, path: &[Text], name: &Text) -> Result<Items<Text>, Memory>
    ensures { IfOk result (λ all. all ≡ path.now ++ name.now ∷ []) }
{
    let mut all = Items::new(alloc);
    for entry in path {
        all.push(Text::of(alloc, entry.bytes())?)?;
    }
    all.push(Text::of(alloc, name.bytes())?)?;
    Ok(all)
}

/// Visits a name that the module `inside` extends: where it asks for a module, that is fetched, read and completed.
#[cycle(walk)]
fn visit<S: Shelf>(
    alloc: Global,
    shelf: &mut S,
    path: &[Text],
    done: &mut Items<Module>,
    inside: &Text,
    extended: &(Text, Place),
) -> Result<(), LoadFault>
    requires { Fine path.now done.old }
    ensures loads { Loads result (λ _. done.new) (λ folder. spec.visit folder path.now inside.now
        (spec.completed (64 - length path.now) folder path.now) done.old extended.now)
        (S.folder shelf.old, S.count shelf.old) (S.folder shelf.new, S.count shelf.new) }
    ensures order { OnOk result (Visited path.now extended.now done.old done.new) }
{
    if !asks(alloc, path, done.as_slice(), inside, extended)? {
        return Ok(());
    }
    let next = find_module(alloc, shelf, &extended.0, None)?;
    complete(alloc, shelf, path, done, next)
}

/// Visits what a module extends, from left to right and depth first; then the module is complete.
#[cycle(walk)]
fn complete<S: Shelf>(
    alloc: Global,
    shelf: &mut S,
    path: &[Text],
    done: &mut Items<Module>,
    module: Module,
) -> Result<(), LoadFault>
    requires fine { Fine path.now done.old }
    requires begins { MayBegin path.now done.old «module».name }
    ensures loads { Loads result (λ _. done.new) (λ folder. spec.completed
        (64 - length path.now) folder path.now «module» done.old)
        (S.folder shelf.old, S.count shelf.old) (S.folder shelf.new, S.count shelf.new) }
    ensures order { OnOk result (Reached path.now «module» done.old done.new) }
{
    let longer = with_name(alloc, path, &module.name)?;
    let now = longer.as_slice();
    for extended in module.extends.as_slice() {
        visit(alloc, shelf, now, done, &module.name, extended)?;
    }
    done.push(module)?;
    Ok(())
}

/// Loads a module, and those that it extends, directly or through others.
///
/// The root's text is the given one, or is fetched under its name, even where that is the name of a library module. Then what
/// each module extends is loaded from left to right, depth first, each module once, and each text is read as soon as it is
/// fetched. A name of a library module means the library. A name on the path from the root is refused as Cycle and a 65th module
/// as TooMany, at the name, before anything is fetched; a text whose header has another name as NameMismatch at the header. A
/// refusal carries the name under which the text was fetched or given. The modules are in the order in which they are complete.
pub fn load<S: Shelf>(
    alloc: Global,
    shelf: &mut S,
    root: &Text,
    given: Option<Vec<u8>>,
) -> Result<Loaded, LoadFault>
    ensures told { WhereTold (S.folder shelf.old) (λ folder. Ends (λ loaded. loaded.modules) result
        (spec.loading (option_map (λ v. v.items) given) folder root.now)) }
    ensures order { IfOk result (λ loaded. IsOrdered root.now loaded.modules) }
    ensures cause { LoadCause result (S.count shelf.old) (S.count shelf.new) }
    ensures kept { S.folder shelf.new ≡ S.folder shelf.old }
{
    let module = find_module(alloc, shelf, root, given)?;
    let mut modules = Items::new(alloc);
    complete(alloc, shelf, &[], &mut modules, module)?;
    Ok(Loaded { modules })
}
