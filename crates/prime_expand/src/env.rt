//! What names mean where an expression stands.

ghost use Rattle.std.specs.Prelude.{◌≡◌, ◌+◌, ◌∷◌, ◌++◌, [], drop, fold, map, IfOk, OnOk};
ghost use Rattle.plain_syntax.specs.Syntax.{each_group, each_def};
ghost use Rattle.prime_expand.specs.Both.{part_at};
ghost use Rattle.prime_expand.specs.Core as spec;
ghost use Rattle.prime_expand.specs.Core.{names_in};
ghost use Rattle.prime_expand.specs.Core.Meaning.{fixed};
ghost use Rattle.prime_expand.specs.Env.{means, naming, grouping, arguing, defining, env_of, frame_env, meaning, entry_of, standing_of, pick};

use crate::both::Both;
use core_expr::Memory;
use std::alloc::Global;
use std::rc::Rc;
use std::vec::IntoIter;
use symbol_table::Scoped;
use tla_ast::{Decl, Def, Group, Place};

/// The names of a module, and the allocator.
#[derive(Clone, Copy)]
pub struct Names<'a> {
    pub alloc: Global,
    pub scoped: &'a Scoped,
    /// The number of the module.
    pub home: u64,
}

/// A core, and the depth of binders at which it stands.
#[derive(Drop)]
pub struct Standing {
    pub depth: u64,
    pub value: Both,
}

/// A name by its number, with the core that it stands for.
#[derive(Drop)]
pub struct Known {
    pub number: u64,
    pub value: Standing,
}

/// What the names that are bound round an expression mean.
#[derive(Drop)]
pub enum Env<'a> {
    Empty,
    /// Bound names or parameters.
    Known {
        known: Vec<Known>,
        outer: Rc<Env<'a>>,
    },
    /// The definitions of a LET, and what `@` is where it stands.
    Definitions {
        defs: &'a [Def],
        at: Rc<Standing>,
        outer: Rc<Env<'a>>,
    },
}

/// Bound names that are collected, and the names round them.
#[derive(Drop)]
pub struct Frame<'a> {
    pub known: Vec<Known>,
    pub outer: Rc<Env<'a>>,
}

impl<'a> Frame<'a> {
    /// The names that were collected and those round them.
    pub fn into_env(self) -> Env<'a>
        ensures { (names : Names) → env_of names result ≡ frame_env names self.entry }
    {
        let Frame { known, outer } = self;
        Env::Known { known, outer }
    }
}

/// What a name means.
#[derive(Clone, Copy)]
pub enum Found<'e, 'a> {
    /// It is not bound here.
    Nothing,
    Fixed(&'e Standing),
    /// A definition of a LET, with those before it, what `@` is there, and the names round the LET.
    Definition {
        def: &'a Def,
        before: &'a [Def],
        at: &'e Rc<Standing>,
        outer: &'e Rc<Env<'a>>,
    },
}

/// A sum of depths; want of memory where it is past every binder that fits into memory.
pub fn deeper(depth: u64, by: u64) -> Result<u64, Memory>
    ensures { IfOk result (λ d. d ≡ depth + by) }
{
    match depth.checked_add(by) {
        Some(sum) => Ok(sum),
        None => Err(Memory),
    }
}

/// How many names there are in groups.
#[tactic(auto, using(crate::proofs::Envs::names_first))]
pub fn count_names(groups: &[Group]) -> Result<u64, Memory>
    ensures { IfOk result (λ n. n ≡ names_in (each_group groups.now)) }
{
    let mut count = 0;
    for group in groups {
        count = deeper(count, group.names.len() as u64)?;
    }
    Ok(count)
}

impl Names<'_> {
    /// The number of what the name at a place means.
    pub fn symbol(&self, place: Place) -> Option<u64>
        ensures { result ≡ means self.now place }
    {
        self.scoped.symbol(self.home, place)
    }

    /// A name is known from here on, where it has a number.
    pub fn note(
        &self,
        frame: &mut Frame<'_>,
        place: Place,
        depth: u64,
        value: Both,
    ) -> Result<(), Memory>
        ensures { OnOk result (frame_env self.now frame.new
            ≡ spec.known_as (means self.now place) (fixed (depth, value)) (frame_env self.now frame.old)) }
    {
        if let Some(number) = self.symbol(place) {
            let value = Standing { depth, value };
            frame.known.push(Known { number, value })?;
        }
        Ok(())
    }

    /// Names are the variables of the binders from this depth on.
    fn note_names(&self, frame: &mut Frame<'_>, depth: u64, names: &[Decl]) -> Result<(), Memory>
        ensures { OnOk result (frame_env self.now frame.new
            ≡ naming self.now depth names.now (frame_env self.now frame.old)) }
    {
        let mut depth = depth;
        for name in names {
            depth = deeper(depth, 1)?;
            let variable = Both::variable(self.alloc, 0)?;
            self.note(frame, name.place, depth, variable)?;
        }
        Ok(())
    }

    /// The names of groups are the variables of the binders from this depth on.
    pub fn note_groups(
        &self,
        frame: &mut Frame<'_>,
        depth: u64,
        groups: &[Group],
    ) -> Result<(), Memory>
        ensures { OnOk result (frame_env self.now frame.new
            ≡ grouping self.now depth (each_group groups.now) (frame_env self.now frame.old)) }
    {
        let mut depth = depth;
        for group in groups {
            self.note_names(frame, depth, group.names.as_slice())?;
            depth = deeper(depth, group.names.len() as u64)?;
        }
        Ok(())
    }

    /// Parameters are their arguments, which stand at this depth; TRUE where there is none.
    pub fn note_arguments(
        &self,
        frame: &mut Frame<'_>,
        depth: u64,
        params: &[Decl],
        args: Vec<Both>,
    ) -> Result<(), Memory>
        ensures { OnOk result (frame_env self.now frame.new
            ≡ arguing self.now depth params.now args.items (frame_env self.now frame.old)) }
    {
        let mut args = args.into_iter();
        for param in params {
            let value = next_argument(self.alloc, &mut args)?;
            self.note(frame, param.place, depth, value)?;
        }
        Ok(())
    }

    /// The meaning of a number where one definition more is known.
    fn or_definition<'e, 'a>(
        &self,
        found: Found<'e, 'a>,
        def: &'a Def,
        before: &'a [Def],
        at: &'e Rc<Standing>,
        outer: &'e Rc<Env<'a>>,
        number: u64,
    ) -> Found<'e, 'a>
        requires { meaning self.now found ≡ spec.lookup (defining self.now (standing_of at.now.value)
            (each_def before.now) (env_of self.now outer.now.value)) number }
        ensures { meaning self.now result ≡ spec.lookup (defining self.now (standing_of at.entry.now.value)
            (each_def (before.entry.now ++ def.entry.now ∷ [])) (env_of self.now outer.entry.now.value)) number }
    {
        let Some(own) = self.symbol(def.place) else {
            return found;
        };
        if own != number {
            return found;
        }
        Found::Definition {
            def,
            before,
            at,
            outer,
        }
    }

    /// The meaning of a number among definitions of a LET, the last that has it, or else what was found round them.
    fn last_defined<'e, 'a>(
        &self,
        found: Found<'e, 'a>,
        defs: &'a [Def],
        at: &'e Rc<Standing>,
        outer: &'e Rc<Env<'a>>,
        number: u64,
    ) -> Found<'e, 'a>
        requires { meaning self.now found ≡ spec.lookup (env_of self.now outer.now.value) number }
        ensures { meaning self.now result ≡ spec.lookup (defining self.now (standing_of at.entry.now.value)
            (each_def defs.entry.now) (env_of self.now outer.entry.now.value)) number }
    {
        let mut found = found;
        for (i, def) in defs.iter().enumerate() {
            found = self.or_definition(found, def, &defs[..i], at, outer, number);
        }
        found
    }

    /// What the name of a number means. Takes as many levels of calls as there are binders, brackets and LETs round it.
    pub fn find<'e, 'a>(&self, env: &'e Env<'a>, number: u64) -> Found<'e, 'a>
        ensures { meaning self.now result ≡ spec.lookup (env_of self.now env.entry.now) number }
    {
        match env {
            Env::Empty => Found::Nothing,
            Env::Known { known, outer } => {
                last_known(self.find(outer, number), known.as_slice(), number)
            }
            Env::Definitions { defs, at, outer } => {
                let found = self.find(outer, number);
                self.last_defined(found, defs, at, outer, number)
            }
        }
    }
}

/// The next argument, or else TRUE.
fn next_argument(alloc: Global, args: &mut IntoIter<Both>) -> Result<Both, Memory>
    ensures value { IfOk result (λ b. b ≡ part_at 0 args.old.rest.items) }
    ensures rest { OnOk result (args.new.rest.items ≡ drop 1 args.old.rest.items) }
{
    match args.next() {
        Some(arg) => Ok(arg),
        None => Both::truth(alloc),
    }
}

/// The meaning of a number among known names, the last that has it, or else what was found round them.
fn last_known<'e, 'a>(found: Found<'e, 'a>, known: &'e [Known], number: u64) -> Found<'e, 'a>
    ensures { (names : Names) → meaning names result
        ≡ fold (pick number) (meaning names found.entry) (map entry_of known.entry.now) }
{
    let mut found = found;
    for name in known {
        if name.number == number {
            found = Found::Fixed(&name.value);
        }
    }
    found
}
