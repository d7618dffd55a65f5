//! The reader of a module.

ghost use Rattle.tla_ast.specs.Answers.{Answers};
ghost use Rattle.tla_ast.specs.Listing.{IsTokenList};
ghost use Rattle.proof_parser.specs.Modules as spec;

use crate::unit::{extends, units};
use core_expr::Text;
use std::alloc::Global;
use tla_ast::{Fault, Module, Tokens};
use token_reader::Cursor;

/// Reads a module from the tokens after its header: EXTENDS, then units up to the end token, with rules between. What follows the
/// end token is no token of the list.
///
/// The fault is the one of the least place: those of expressions (Expected, Precedence, TooDeep, Unsupported); StepLevel at a step
/// token of a level that no proof round it has and that may not begin one; NoQed at the token before which a proof by steps ends
/// without QED. After Lamport, "TLA+ Version 2: A Preliminary Guide", and "Specifying Systems", chapter 15.
///
/// The time is linear in the tokens. The nesting of proofs and expressions, at most 200, bounds the recursion.
#[tactic(auto, unfolding(crate::specs::Modules::module_of))]
pub fn read_module(alloc: Global, tokens: &Tokens) -> Result<Module, Fault>
    requires { IsTokenList tokens.now.list }
    ensures { Answers result (spec.module_of tokens.now.name tokens.now.header tokens.now.list) }
{
    let mut cursor = Cursor::new(tokens.list.as_slice());
    let extends = extends(alloc, &mut cursor)?;
    let units = units(alloc, &mut cursor)?;
    let name = Text::of(alloc, tokens.name.bytes())?;
    Ok(Module {
        name,
        header: tokens.header,
        extends,
        units,
    })
}
