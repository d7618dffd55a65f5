//! The formulas that a search on a canonical form starts with.
ghost use Rattle.std.specs.Prelude.{◌≡◌, true, IfOk};
ghost use Rattle.search_definition.specs.Search.{denied};
ghost use Rattle.term_bank.specs.Banks.{IsDistinct, Extends, HasTree};
ghost use Rattle.term_shapes.specs.Forms.{ArePlaced};
ghost use Rattle.leaf_prover.specs.Forms.{are_form_parts, is_form};

use core_expr::{Canon, Expr, Memory};
use std::alloc::Global;
use term_bank::Bank;
use term_shapes::{Shape, make};

/// The indices of the facts, in order.
fn intern_facts(bank: &mut Bank, alloc: Global, facts: &[Expr]) -> Result<Vec<u64>, Memory>
    requires { are_form_parts facts.now ≡ true }
    ensures extends { Extends bank.old bank.new }
    ensures distinct { IsDistinct bank.new }
    ensures ok { IfOk result (λ v. ArePlaced bank.new facts.now v.items) }
{
    let _count = bank.count();
    let mut list = Vec::new(alloc);
    for i in 0..facts.len() {
        let fact = bank.intern(alloc, &facts[i])?;
        list.push(fact)?;
    }
    Ok(list)
}

/// The indices of the facts, in order, and of the Not of the goal; and that of the goal.
#[derive(Drop)]
pub struct Denied {
    pub formulas: Vec<u64>,
    pub goal: u64,
}

/// The indices of what a search on the form starts with.
pub fn intern_denied(bank: &mut Bank, alloc: Global, canon: &Canon) -> Result<Denied, Memory>
    requires { is_form canon.now ≡ true }
    ensures extends { Extends bank.old bank.new }
    ensures distinct { IsDistinct bank.new }
    ensures ok { IfOk result (λ d. ArePlaced bank.new
        (denied canon.now.facts canon.now.goal) d.formulas.items) }
    ensures goal { IfOk result (λ d. HasTree bank.new d.goal canon.now.goal) }
{
    let mut list = intern_facts(bank, alloc, canon.facts.as_slice())?;
    let goal = bank.intern(alloc, &canon.goal)?;
    let denial = make(bank, alloc, Shape::Not(goal))?;
    list.push(denial)?;
    Ok(Denied {
        formulas: list,
        goal,
    })
}
