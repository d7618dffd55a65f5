//! Sides of equations in which a metavariable occurs.
ghost use Rattle.std.specs.Prelude.{◌≡◌, ◌<◌, length, IfOk};
ghost use Rattle.unifier_definition.specs.Metas.{has_meta};
ghost use Rattle.term_bank.specs.Banks.{IsDistinct, Extends, tree_at};
ghost use Rattle.search_definition.specs.Instances.{is_side};
ghost use Rattle.unify_meta.specs.Metas.{symbols};

use crate::expand::has_no_parts;
use core_expr::Memory;
use std::alloc::Global;
use term_bank::Bank;
use term_shapes::{Shape, make};
use term_walks::occurs;

/// Whether one of the metavariables occurs in the term.
fn has_meta(bank: &mut Bank, alloc: Global, metas: &[u64], e: u64) -> Result<bool, Memory>
    requires { e < length bank.old }
    ensures extends { Extends bank.old bank.new }
    ensures distinct { IsDistinct bank.new }
    ensures ok { IfOk result (λ b. b ≡ has_meta (symbols metas.now) (tree_at bank.old e)) }
{
    bank.count();
    for meta in metas {
        let node = make(bank, alloc, Shape::Symbol(*meta, 0))?;
        if occurs(bank, alloc, node, e)? {
            return Ok(true);
        }
    }
    Ok(false)
}

/// Whether the term contains one of the metavariables, and is none.
pub fn is_side(bank: &mut Bank, alloc: Global, metas: &[u64], l: u64) -> Result<bool, Memory>
    requires { l < length bank.old }
    ensures extends { Extends bank.old bank.new }
    ensures distinct { IsDistinct bank.new }
    ensures ok { IfOk result (λ b. b ≡ is_side (symbols metas.now) (tree_at bank.old l)) }
{
    bank.count();
    if has_no_parts(bank, l) {
        return Ok(false);
    }
    has_meta(bank, alloc, metas, l)
}
