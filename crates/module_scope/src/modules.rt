//! What each name of the modules means.

ghost use Rattle.std.specs.Prelude.{◌≡◌, [], ◌∷◌, ◌++◌, map, IfOk, OnOk, IfErr};
ghost use Rattle.plain_syntax.specs.Syntax.{module_of};
ghost use Rattle.module_scope.specs.Known.{book_of, exports_of, export_of};
ghost use Rattle.module_scope.specs.Resolution as spec;
ghost use Rattle.module_scope.specs.Finished as finished;

use crate::extend::Export;
use crate::library::library_entries;
use crate::scope::Scope;
use crate::walker::Walker;
use core_expr::{Memory, Text};
use expression_level::Levels;
use sqlite_items::Items;
use std::alloc::Global;
use std::mem;
use symbol_table::{Scoped, Symbols};
use tla_ast::{Kind, Loaded, Module, Place, ScopeFault};

/// Whether a fault is told before another: at an earlier place, or at the same place the first in the order of kinds.
fn comes_before(left: &(Place, Kind), right: &(Place, Kind)) -> bool
    ensures { result ≡ spec.comes_before left.now right.now }
{
    left.0.is_before(&right.0) || (!right.0.is_before(&left.0) && left.1.rank() < right.1.rank())
}

/// The fault that is told, of the one so far, if there is one, and one more.
fn sooner(least: Option<(Place, Kind)>, fault: (Place, Kind)) -> Option<(Place, Kind)>
    ensures { result ≡ spec.sooner least fault }
{
    match least {
        None => Some(fault),
        Some(other) => {
            if comes_before(&fault, &other) {
                Some(fault)
            } else {
                Some(other)
            }
        }
    }
}

/// The fault that is told, of several.
fn least(faults: Vec<(Place, Kind)>) -> Option<(Place, Kind)>
    ensures { result ≡ spec.least faults.items }
{
    let mut least = None;
    for fault in faults {
        least = sooner(least, fault);
    }
    least
}

impl<'a> Walker<'a> {
    /// What is known before all modules.
    fn new(alloc: Global) -> Result<Walker<'a>, Memory>
        ensures { IfOk result (λ walker. book_of walker ≡ spec.start) }
    {
        let entries = library_entries(alloc)?;
        Ok(Walker {
            scope: Scope::new(alloc),
            entries,
            levels: Levels::new(alloc),
            symbols: Symbols::new(alloc),
            faults: Vec::new(alloc),
        })
    }

    /// What is known before a module.
    fn begin(&mut self, alloc: Global)
        ensures { book_of self.new ≡ spec.emptied (book_of self.old) }
    {
        self.scope.leave(0);
        self.symbols = Symbols::new(alloc);
        self.faults = Vec::new(alloc);
    }

    /// The names of a module.
    fn walk(
        &mut self,
        alloc: Global,
        exports: &[Export<'a>],
        module: &'a Module,
    ) -> Result<(), Memory>
        ensures { OnOk result (book_of self.new
            ≡ spec.module_names (exports_of exports.now) (module_of «module».now)
            (book_of self.old)) }
    {
        self.begin(alloc);
        self.extend_all(alloc, exports, module.extends.as_slice())?;
        self.units(alloc, module.units.as_slice())
    }

    /// The names of a module, what it gives to others and what they mean; or the fault that is told.
    fn finish(
        &mut self,
        alloc: Global,
        exports: &[Export<'a>],
        module: &'a Module,
    ) -> Result<(Export<'a>, Symbols), ScopeFault>
        ensures finished { IfOk result (λ p. finished.Finished (exports_of exports.now)
            (module_of «module».now)
            (book_of self.old) (book_of self.new) (export_of p.0) p.1) }
        ensures refused { IfErr result (λ e.
            finished.Refused (exports_of exports.now) (module_of «module».now)
            (book_of self.old) e) }
    {
        self.walk(alloc, exports, module)?;
        let faults = mem::replace(&mut self.faults, Vec::new(alloc));
        if let Some((place, kind)) = least(faults) {
            let module = Text::of(alloc, module.name.bytes())?;
            return Err(ScopeFault::At {
                module,
                place,
                kind,
            });
        }
        let names = self.scope.names(alloc)?;
        let symbols = mem::replace(&mut self.symbols, Symbols::new(alloc));
        let name = module.name.bytes();
        Ok((Export { name, names }, symbols))
    }
}

/// Keeps what a module gives to others.
fn keep<'a>(exports: &mut Vec<Export<'a>>, export: Export<'a>) -> Result<(), Memory>
    ensures { OnOk result (exports_of exports.new.items
        ≡ exports_of exports.old.items ++ export_of export.entry ∷ []) }
{
    exports.push(export)?;
    Ok(())
}

/// What each name of the modules means, by the table of all that they declare; or the first fault of a name, of a number of
/// arguments or of a level. Each module must stand behind those that it extends; a name of an EXTENDS that is neither a library's
/// nor an earlier module's brings nothing.
pub fn resolve(alloc: Global, loaded: &Loaded) -> Result<Scoped, ScopeFault>
    ensures { finished.Answers result (spec.resolution (map module_of loaded.now.modules)) }
{
    let mut walker = Walker::new(alloc)?;
    let mut exports = Vec::new(alloc);
    let mut symbols = Items::new(alloc);
    for module in loaded.modules.as_slice() {
        let (export, names) = walker.finish(alloc, exports.as_slice(), module)?;
        keep(&mut exports, export)?;
        symbols.push(names)?;
    }
    let entries = mem::replace(&mut walker.entries, Vec::new(alloc));
    Ok(Scoped::new(Items::from_vec(entries), symbols))
}
