//! Universal formulas and their instances.
ghost use Rattle.std.specs.Prelude.{◌<◌, ◌∷◌, [], length, IfOk};
ghost use Rattle.core_expr.specs.Nodes.{AreBelow};
ghost use Rattle.core_expr.specs.Tree.{not_};
ghost use Rattle.core_expr.specs.Put.{IsScoped};
ghost use Rattle.term_bank.specs.Banks.{IsDistinct, Extends, HasTree, tree_at};
ghost use Rattle.search_definition.specs.Instances.{universal, instance};
ghost use Rattle.formula_rules.specs.Answers.{HasUniversal, universal_of};

use core_expr::Memory;
use std::alloc::Global;
use term_bank::Bank;
use term_shapes::{Shape, make, shape_at};

/// A universal formula: All(P), which holds, or ~Ex(P), whose body P does not; with the index of the body.
#[derive(Clone, Copy, Debug)]
pub struct Quantified {
    pub holds: bool,
    pub body: u64,
}

/// The Not of a as a universal.
fn denied_universal(bank: &Bank, a: u64) -> Option<Quantified>
    requires { a < length bank.now }
    ensures { HasUniversal bank.now result (universal (not_ (tree_at bank.now a))) }
{
    match shape_at(bank, a) {
        Shape::Ex(body) => Some(Quantified { holds: false, body }),
        _ => None,
    }
}

/// The formula as a universal: None exactly where it is none.
pub fn universal(bank: &Bank, f: u64) -> Option<Quantified>
    requires { f < length bank.now }
    ensures { HasUniversal bank.now result (universal (tree_at bank.now f)) }
{
    match shape_at(bank, f) {
        Shape::All(body) => Some(Quantified { holds: true, body }),
        Shape::Not(a) => denied_universal(bank, a),
        _ => None,
    }
}

/// The universal's instance by a closed term.
pub fn instance(bank: &mut Bank, alloc: Global, u: Quantified, t: u64) -> Result<u64, Memory>
    requires below { AreBelow (length bank.old) (u.body ∷ t ∷ []) }
    requires body { IsScoped 1 (tree_at bank.old u.body) }
    requires closed { IsScoped 0 (tree_at bank.old t) }
    ensures extends { Extends bank.old bank.new }
    ensures distinct { IsDistinct bank.new }
    ensures ok { IfOk result (λ k. HasTree bank.new k
        (instance (universal_of bank.old u) (tree_at bank.old t))) }
{
    let body = bank.inst(alloc, u.body, t)?;
    if u.holds {
        return Ok(body);
    }
    make(bank, alloc, Shape::Not(body))
}
