//! The theorems of modules.

ghost use Rattle.std.specs.Prelude.{◌≡◌, ◌∷◌, ◌++◌, map, List, IfOk, OnOk};
ghost use Rattle.std.specs.Option.{option_copied};
ghost use Rattle.plain_syntax.specs.Plain.{Text as word};
ghost use Rattle.plain_syntax.specs.Syntax.{module_of};
ghost use Rattle.known_facts.specs.Shown.{context_of};
ghost use Rattle.known_facts.specs.Clean.{HasSuspects};
ghost use Rattle.usable_facts.specs.Theorems.{Done as before, is_reached, reaches, brought};
ghost use Rattle.theorem_leaves.specs.Chapters.{chapters_of};
ghost use Rattle.theorem_leaves.specs.Passing.{AreDone, HasNames, IsBase, IsPassed, Passed};
ghost use Rattle.theorem_leaves.specs.Modules as spec;

use crate::chapter::Chapter;
use crate::definition::definitions;
use crate::home::Home;
use crate::keys::theorem_keys;
use crate::unit::Known;
use crate::units::{Reading, Setting};
use core_expr::{Expr, Head, Memory, Text};
use indexmap::IndexSet;
use known_facts::{Context, Table};
use sqlite_items::Items;
use std::alloc::Global;
use std_names::is_library;
use symbol_table::Scoped;
use tla_ast::{Module, Place};
/// What is kept of a module that was read: its name, those of all modules that it extends, directly or through others, and what its
/// units add to what is known.
#[derive(Drop)]
struct Done {
    name: Text,
    reaches: Items<Text>,
    adds: Items<Known>,
}

/// Where a pass over modules is: the modules that were read, how many theorems these have, and their chapters.
#[derive(Drop)]
struct Modules {
    done: Vec<Done>,
    before: u64,
    chapters: Items<Chapter>,
}

/// Whether a name is one of these.
fn is_reached(names: &[Text], name: &[u8]) -> bool
    ensures { result ≡ is_reached names.now name.now }
{
    for other in names {
        if other.bytes() == name {
            return true;
        }
    }
    false
}

/// One more name, if it is not there.
fn add_name(alloc: Global, names: &mut Items<Text>, name: &[u8]) -> Result<(), Memory>
    ensures { OnOk result (HasNames names.new (name.now ∷ names.old)) }
{
    if !is_reached(names.as_slice(), name) {
        names.push(Text::of(alloc, name)?)?;
    }
    Ok(())
}

/// Several more names.
fn add_names(alloc: Global, names: &mut Items<Text>, more: &[Text]) -> Result<(), Memory>
    ensures { OnOk result (HasNames names.new (names.old ++ more.now)) }
{
    for name in more {
        add_name(alloc, names, name.bytes())?;
    }
    Ok(())
}

/// The module of a name, if it was read.
fn find<'a>(done: &'a [Done], name: &[u8]) -> Option<&'a Done>
    ensures { option_copied result ≡ spec.found done.now name.now }
{
    for entry in done {
        if entry.name.bytes() == name {
            return Some(entry);
        }
    }
    None
}

/// What an extended name leads to.
fn extend(alloc: Global, done: &[Done], names: &mut Items<Text>, name: &[u8]) -> Result<(), Memory>
    ensures { OnOk result ((ds : List before) → AreDone done.now ds
        → HasNames names.new (names.old ++ spec.led ds name.now)) }
{
    if is_library(name) {
        return Ok(());
    }
    if let Some(entry) = find(done, name) {
        add_name(alloc, names, name)?;
        add_names(alloc, names, entry.reaches.as_slice())?;
    }
    Ok(())
}

/// The names of all modules that EXTENDS leads to.
fn reaches(alloc: Global, done: &[Done], extends: &[(Text, Place)]) -> Result<Items<Text>, Memory>
    ensures { IfOk result (λ names. (ds : List before) → AreDone done.now ds
        → HasNames names (reaches ds extends.now)) }
{
    let mut names = Items::new(alloc);
    for (name, _) in extends {
        extend(alloc, done, &mut names, name.bytes())?;
    }
    Ok(names)
}

/// Several more known facts of a context.
fn tell_all(alloc: Global, context: &mut Context, facts: &[Known]) -> Result<(), Memory>
    ensures { OnOk result (spec.Tells facts.now (context_of context.old) (context_of context.new)) }
{
    for fact in facts {
        fact.tell(alloc, context)?;
    }
    Ok(())
}

/// The context of what the modules with these names add.
fn bring(alloc: Global, done: &[Done], names: &[Text]) -> Result<Context, Memory>
    ensures { IfOk result (λ c. (ds : List before) (ws : List word) → AreDone done.now ds
        → HasNames names.now ws → IsBase (brought ds ws) (context_of c)) }
{
    let mut context = Context::new(alloc, Expr::leaf(alloc, Head::True)?);
    for entry in done {
        if is_reached(names, entry.name.bytes()) {
            tell_all(alloc, &mut context, entry.adds.as_slice())?;
        }
    }
    Ok(context)
}

/// What holds for all modules: what names mean, the definitions, and the keys of all theorems.
#[derive(Clone, Copy)]
struct Whole<'a> {
    alloc: Global,
    scoped: &'a Scoped,
    table: &'a Table,
    theorems: &'a IndexSet<u64>,
}

impl Whole<'_> {
    /// A module, by its number.
    fn module(&self, modules: &mut Modules, number: u64, module: &Module) -> Result<(), Memory>
        requires { HasSuspects self.now.table.now }
        ensures { OnOk result ((a : Passed) → IsPassed modules.old a
            → IsPassed modules.new (spec.passed_module self.now number «module».now a)) }
    {
        let alloc = self.alloc;
        let names = reaches(alloc, modules.done.as_slice(), module.extends.as_slice())?;
        let setting = Setting {
            home: Home {
                alloc,
                scoped: self.scoped,
                module: number,
            },
            table: self.table,
            theorems: self.theorems,
        };
        let mut reading = Reading {
            context: bring(alloc, modules.done.as_slice(), names.as_slice())?,
            adds: Items::new(alloc),
            before: modules.before,
            theorems: Items::new(alloc),
        };
        setting.units(&mut reading, module.units.as_slice())?;
        let Reading {
            context: _,
            adds,
            before,
            theorems,
        } = reading;
        modules.before = before;
        modules.done.push(Done {
            name: Text::of(alloc, module.name.bytes())?,
            reaches: names,
            adds,
        })?;
        modules.chapters.push(Chapter {
            name: Text::of(alloc, module.name.bytes())?,
            theorems,
        })?;
        Ok(())
    }

    /// Modules, of which the first has the number 0.
    fn modules(&self, modules: &[Module]) -> Result<Items<Chapter>, Memory>
        requires { HasSuspects self.now.table.now }
        ensures { IfOk result (λ cs. cs
            ≡ (spec.passed_modules self.now 0 modules.now spec.nothing).chapters) }
    {
        let mut passed = Modules {
            done: Vec::new(self.alloc),
            before: 0,
            chapters: Items::new(self.alloc),
        };
        for (number, module) in modules.iter().enumerate() {
            self.module(&mut passed, number as u64, module)?;
        }
        let Modules {
            done: _,
            before: _,
            chapters,
        } = passed;
        Ok(chapters)
    }
}

/// The modules with their theorems, each theorem with the leaves of its proof, where `scoped` says what the names of the modules
/// mean. Want of memory is the only other answer.
pub fn chapters(
    alloc: Global,
    scoped: &Scoped,
    modules: &[Module],
) -> Result<Items<Chapter>, Memory>
    ensures { IfOk result (λ cs. cs ≡ chapters_of (map module_of modules.now) scoped.now) }
{
    let table = Table::new(alloc, definitions(alloc, scoped, modules)?)?;
    let theorems = theorem_keys(alloc, scoped, modules)?;
    let whole = Whole {
        alloc,
        scoped,
        table: &table,
        theorems: &theorems,
    };
    whole.modules(modules)
}
