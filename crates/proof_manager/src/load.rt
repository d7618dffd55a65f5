//! The modules that are to be answered.

ghost use Rattle.std.specs.Prelude.{◌≡◌, map, take, option_map, IfOk, OnOk};
ghost use Rattle.plain_syntax.specs.Syntax.{module_of};
ghost use Rattle.module_shelf.specs.Causes.{LoadCause};
ghost use Rattle.theorem_leaves.specs.Chapters.{chapters_of};
ghost use Rattle.proof_manager.specs.Causes.{Answers, Reads, ReadsFor, IsFine, read_in};
ghost use Rattle.proof_manager.specs.Runs.{IsDemoSize, given_for};
ghost use Rattle.command_words.specs.Requests.{asked_by};
ghost use Rattle.proof_manager.specs.Reading.{checked, read_of, load_fault};

use crate::steps::modules_fault;
use command_words::Request;
use core_expr::{Memory, Text};
use demo_maker::demo;
use module_scope::resolve;
use module_shelf::LoadFault;
use sqlite_items::Items;
use std::alloc::Global;
use symbol_table::Scoped;
use theorem_leaves::{Chapter, chapters};
use tla_ast::{Loaded, ScopeFault};
use tla_io::Shelf;

/// The fault of names, or the refusal of a form, as one of the loading.
fn as_load_fault(fault: ScopeFault) -> LoadFault
    ensures { result ≡ load_fault fault }
{
    match fault {
        ScopeFault::Memory => LoadFault::Memory,
        ScopeFault::At {
            module,
            place,
            kind,
        } => LoadFault::Refused {
            module,
            place,
            kind,
        },
    }
}

/// Only so many of the first modules stay.
fn keep_first(loaded: &mut Loaded, count: usize)
    ensures { loaded.new.modules ≡ take count loaded.old.modules }
{
    while loaded.modules.len() > count {
        loaded.modules.pop();
    }
}

/// What the names of the modules mean, or the first fault of step names or of names. Without a fault the modules stay.
fn check(alloc: Global, loaded: &mut Loaded) -> Result<Scoped, ScopeFault>
    ensures value { Answers (λ s. s) result (checked (map module_of loaded.old.modules)) }
    ensures same { OnOk result (loaded.new ≡ loaded.old) }
{
    let Some((count, fault)) = modules_fault(alloc, loaded.modules.as_slice())? else {
        return resolve(alloc, loaded);
    };
    keep_first(loaded, count);
    resolve(alloc, loaded)?;
    Err(fault)
}

/// Modules, what their names mean, and their theorems with their leaves.
#[derive(Drop)]
pub struct Checked {
    pub loaded: Loaded,
    pub scoped: Scoped,
    pub chapters: Items<Chapter>,
}

/// What the names of loaded modules mean, and their theorems, or the first fault.
fn check_all(alloc: Global, mut loaded: Loaded) -> Result<Checked, ScopeFault>
    ensures told { Answers read_in result (read_of (map module_of loaded.modules)) }
    ensures same { IfOk result (λ c. c.loaded ≡ loaded) }
    ensures chapters { IfOk result (λ c. c.chapters
        ≡ chapters_of (map module_of c.loaded.modules) c.scoped) }
{
    let scoped = check(alloc, &mut loaded)?;
    let chapters = chapters(alloc, &scoped, loaded.modules.as_slice())?;
    Ok(Checked {
        loaded,
        scoped,
        chapters,
    })
}

/// Loads a module, whose text may be given, and those that it extends, and reads what they say.
fn read<S: Shelf>(
    alloc: Global,
    shelf: &mut S,
    root: &Text,
    given: Option<Vec<u8>>,
) -> Result<Checked, LoadFault>
    ensures told { Reads result (S.folder shelf.old) (option_map (λ v. v.items) given) root.now }
    ensures fine { IfOk result IsFine }
    ensures cause { LoadCause result (S.count shelf.old) (S.count shelf.new) }
    ensures kept { S.folder shelf.new ≡ S.folder shelf.old }
{
    let loaded = module_shelf::load(alloc, shelf, root, given)?;
    match check_all(alloc, loaded) {
        Ok(checked) => Ok(checked),
        Err(fault) => Err(as_load_fault(fault)),
    }
}

/// The text of a demonstration, where one is asked for.
fn given(alloc: Global, root: &Text, size: Option<u64>) -> Result<Option<Vec<u8>>, Memory>
    requires { IsDemoSize size }
    ensures { IfOk result (λ g. option_map (λ v. v.items) g ≡ given_for root.now size) }
{
    match size {
        None => Ok(None),
        Some(count) => Ok(Some(demo(alloc, root, count)?)),
    }
}

/// Loads the module that is asked for, or makes that of a demonstration, and those that it extends, and reads what they say.
pub fn read_asked<S: Shelf>(
    alloc: Global,
    shelf: &mut S,
    request: Request,
) -> Result<Checked, LoadFault>
    requires { IsDemoSize request.demo }
    ensures told { ReadsFor result (S.folder shelf.old) (asked_by request.entry) }
    ensures fine { IfOk result IsFine }
    ensures cause { LoadCause result (S.count shelf.old) (S.count shelf.new) }
    ensures kept { S.folder shelf.new ≡ S.folder shelf.old }
{
    let root = Text::of(alloc, request.root.as_bytes())?;
    let given = given(alloc, &root, request.demo)?;
    read(alloc, shelf, &root, given)
}
