//! Where parts of modules stand.

ghost use Rattle.std.specs.Prelude.{◌≡◌, IfOk};
ghost use Rattle.plain_syntax.specs.Syntax.{term_of};
ghost use Rattle.usable_facts.specs.Proofs as spec;
ghost use Rattle.theorem_leaves.specs.Homes.{means, entries};

use core_expr::{Expr, Memory};
use prime_expand::to_core;
use std::alloc::Global;
use symbol_table::Scoped;
use tla_ast::{Node, Place};

/// Where a part of a module stands: the table of names, and the number of the module, which counts the loaded modules from 0.
#[derive(Clone, Copy)]
pub struct Home<'a> {
    pub alloc: Global,
    pub scoped: &'a Scoped,
    pub module: u64,
}

impl Home<'_> {
    /// The number of what the name at a place means.
    pub fn meaning(&self, place: Place) -> Option<u64>
        ensures { result ≡ means self.now place }
    {
        self.scoped.symbol(self.module, place)
    }

    /// The core of an expression.
    pub fn core(&self, node: &Node) -> Result<Expr, Memory>
        ensures { IfOk result (λ e. e
            ≡ spec.core (means self.now) (entries self.now) (term_of node.now)) }
    {
        to_core(self.alloc, self.scoped, self.module, node, false)
    }
}
