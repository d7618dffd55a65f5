//! One module, from its text.

ghost use Rattle.std.specs.Prelude.{◌≡◌, ◌≢◌, IfOk, IfErr, MatchOption, true, false, option_map};
ghost use Rattle.tla_ast.specs.Answers.{Answers};
ghost use Rattle.tla_ast.specs.Word.{is_identifier};
ghost use Rattle.module_shelf.specs.Loading as spec;
ghost use Rattle.module_shelf.specs.Causes.{Ends, Loads};
ghost use Rattle.module_shelf.specs.declared.fault.LoadFault.TheVariants as load;

use crate::fault::LoadFault;
use core_expr::{Memory, Text};
use proof_parser::read_module;
use std::alloc::Global;
use tla_ast::{Fault, Kind, Module, is_identifier};
use tla_io::{Shelf, ShelfFault};
use tla_lexer::lex;

/// More bytes than a module may have.
const AT_MOST: u64 = 1_048_577;

/// The module of a name that a text is read as, or the text's fault.
#[tactic(auto, unfolding(crate::specs::Loading::module_in))]
fn module_in(alloc: Global, name: &Text, text: &[u8]) -> Result<Module, Fault>
    ensures text { Answers result (spec.module_in name.now text.now) }
    ensures name { IfOk result (λ m. m.name ≡ name.now) }
{
    let tokens = lex(alloc, text)?;
    let module = read_module(alloc, &tokens)?;
    if module.name.bytes() == name.bytes() {
        return Ok(module);
    }
    Err(Fault::At {
        place: module.header,
        kind: Kind::NameMismatch,
    })
}

/// The refusal of what stands under a name.
pub fn refused(alloc: Global, module: &Text, fault: Fault) -> Result<LoadFault, Memory>
    ensures { IfOk result (λ e. e ≡ spec.refused «module».now fault) }
{
    match fault {
        Fault::Memory => Ok(LoadFault::Memory),
        Fault::At { place, kind } => Ok(LoadFault::Refused {
            module: Text::of(alloc, module.bytes())?,
            place,
            kind,
        }),
    }
}

/// The module of a name, from the text that stands under it, if one does.
fn module_at(alloc: Global, name: &Text, text: Option<Vec<u8>>) -> Result<Module, LoadFault>
    ensures text { Ends (λ m. m) result
        (spec.module_at name.now (option_map (λ v. v.items) text)) }
    ensures name { IfOk result (λ m. m.name ≡ name.now) }
    ensures never { IfErr result (λ e. e ≢ load.ReadFault) }
{
    let Some(text) = text else {
        return Err(LoadFault::NotFound(Text::of(alloc, name.bytes())?));
    };
    match module_in(alloc, name, text.as_slice()) {
        Ok(module) => Ok(module),
        Err(fault) => Err(refused(alloc, name, fault)?),
    }
}

/// A name as a string, where it is an identifier.
#[tactic(auto, using(crate::proofs::Names::identifier_is_text))]
fn identifier(name: &Text) -> Option<&str>
    ensures { MatchOption result (is_identifier name.now ≡ false)
        (λ s. (s.now ≡ name.now) × (is_identifier name.now ≡ true)) }
{
    if !is_identifier(name.bytes()) {
        return None;
    }
    match str::from_utf8(name.bytes()) {
        Ok(word) => Some(word),
        Err(_) => None,
    }
}

/// The module of a name, from the text that is given, or else from the one that is fetched under the name, read at once.
pub fn find_module<S: Shelf>(
    alloc: Global,
    shelf: &mut S,
    name: &Text,
    given: Option<Vec<u8>>,
) -> Result<Module, LoadFault>
    ensures loads { Loads result (λ m. m)
        (λ folder. spec.find (option_map (λ v. v.items) given) folder name.now)
        (S.folder shelf.old, S.count shelf.old) (S.folder shelf.new, S.count shelf.new) }
    ensures name { IfOk result (λ m. m.name ≡ name.now) }
{
    if let Some(text) = given {
        return module_at(alloc, name, Some(text));
    }
    let Some(word) = identifier(name) else {
        return module_at(alloc, name, None);
    };
    match shelf.fetch(alloc, word, AT_MOST) {
        Err(ShelfFault::Failed) => Err(LoadFault::ReadFault),
        Err(ShelfFault::Memory) => Err(LoadFault::Memory),
        Ok(text) => module_at(alloc, name, text),
    }
}
