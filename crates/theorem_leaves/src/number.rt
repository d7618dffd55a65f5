//! Numbers of steps, which are numbered in the order of the text.

ghost use Rattle.std.specs.Prelude.{◌≡◌, ◌+◌, IfOk};
ghost use Rattle.plain_syntax.specs.Syntax.{proof_of as plain_proof};
ghost use Rattle.usable_facts.specs.Proofs.{count};
ghost use Rattle.theorem_leaves.specs.Visits.{count_all};

use core_expr::Memory;
use tla_ast::{Proof, Step};

/// The number of the step after these steps and their subproofs, of which the first has this number.
#[cycle(counts)]
fn number_after_all(first: u64, steps: &[Step]) -> Result<u64, Memory>
    ensures { IfOk result (λ n. n ≡ first + count_all steps.now) }
{
    let mut number = first;
    for step in steps {
        let own = number.checked_add(1).ok_or(Memory)?;
        number = number_after(own, &step.proof)?;
    }
    Ok(number)
}

/// The number of the step after a proof whose first step has this number.
#[cycle(counts)]
pub fn number_after(first: u64, proof: &Proof) -> Result<u64, Memory>
    ensures { IfOk result (λ n. n ≡ first + count (plain_proof proof.now)) }
{
    match proof {
        Proof::Steps(steps) => number_after_all(first, steps.as_slice()),
        _ => Ok(first),
    }
}
