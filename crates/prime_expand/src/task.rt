//! The work that is left of a walk over an expression.

ghost use Rattle.std.specs.Prelude.{◌≡◌, IfOk};
ghost use Rattle.prime_expand.specs.declared.env.Names.{Names};
ghost use Rattle.prime_expand.specs.Walk.{point, placed, quantified_by, ranged_by};
ghost use Rattle.core_expr.specs.Heads.{binder_arity};

use crate::both::Both;
use crate::env::{Env, Standing};
use core_expr::{Binder, Memory, Text};
use std::rc::Rc;
use tla_ast::Node;

/// Where an expression stands: what names mean there, what `@` is, and how many binders are round it.
#[derive(Drop)]
pub struct Spot<'a> {
    pub env: Rc<Env<'a>>,
    pub at: Rc<Standing>,
    pub depth: u64,
}

impl<'a> Spot<'a> {
    /// The same.
    pub fn copy(&self) -> Result<Spot<'a>, Memory>
        ensures { IfOk result (λ s. (names : Names) → point names s ≡ point names self.now) }
    {
        let env = self.env.clone()?;
        let at = self.at.clone()?;
        Ok(Spot {
            env,
            at,
            depth: self.depth,
        })
    }

    /// The same, so many binders deep.
    pub fn at_depth(&self, depth: u64) -> Result<Spot<'a>, Memory>
        ensures { IfOk result (λ s. (names : Names) → point names s ≡ placed depth (point names self.now)) }
    {
        let mut spot = self.copy()?;
        spot.depth = depth;
        Ok(spot)
    }
}

/// What binds names without or with a set.
#[derive(Clone, Copy, Drop)]
pub enum Quantifier {
    All,
    Exists,
    Choose,
}

impl Quantifier {
    /// The binder of the core.
    pub fn binder(self) -> Binder
        ensures binder { result ≡ quantified_by self }
        ensures arity { binder_arity result ≡ 1 }
    {
        match self {
            Quantifier::All => Binder::All,
            Quantifier::Exists => Binder::Ex,
            Quantifier::Choose => Binder::Choose,
        }
    }
}

/// What binds a name of a set, over a body.
#[derive(Clone, Copy, Drop)]
pub enum Comprehension {
    Filter,
    Image,
    Function,
}

impl Comprehension {
    /// The binder of the core.
    pub fn binder(self) -> Binder
        ensures binder { result ≡ ranged_by self }
        ensures arity { binder_arity result ≡ 2 }
    {
        match self {
            Comprehension::Filter => Binder::Filter,
            Comprehension::Image => Binder::Image,
            Comprehension::Function => Binder::Fun,
        }
    }
}

/// A step of the walk. It takes the last of the cores that were made, and puts one in their place.
#[derive(Drop)]
pub enum Task<'a> {
    /// Reads an expression.
    Read {
        spot: Spot<'a>,
        node: &'a Node,
    },
    /// Reads a field's name as a key.
    Word(&'a Text),
    /// Makes a node over the last cores, as many as this.
    Join {
        spot: Spot<'a>,
        node: &'a Node,
        count: usize,
    },
    /// Takes the first of the last cores, which are as many as this; TRUE where there is none.
    First(usize),
    /// Makes a Filter, Image or Fun over a set and a body, the first of the last cores, which are as many as this.
    Range {
        binder: Comprehension,
        count: usize,
    },
    /// Puts a bound name with a set over a body; the set comes last.
    Bind(Quantifier),
    /// Puts a bound name without a set over a body.
    Free(Quantifier),
    /// Begins an update: takes a value and keys, as many as this together, and reads the new value, where `@` is what stands at
    /// these keys.
    Enter {
        spot: Spot<'a>,
        node: &'a Node,
        count: usize,
    },
    /// Ends an update of a value along keys with the new value.
    Update {
        done: Both,
        keys: Vec<Both>,
    },
}
