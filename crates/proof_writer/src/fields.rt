//! What a writer holds, and how a step comes to the end.
ghost use Rattle.std.specs.Prelude.{◌≡◌, ◌<◌, ◌≤◌, ◌+◌, [], ◌∷◌, length, IsTrue, OnOk, IfOk};
ghost use Rattle.core_expr.specs.Nodes.{AreBelow};
ghost use Rattle.seq_calculus.specs.Lists.{step_fits};
ghost use Rattle.proof_writer.specs.Written.{IsWritten, with_unused, grown};
ghost use Rattle.proof_writer.specs.Seen.{seen};

use crate::inference::{none, one, two};
use core_expr::Memory;
use seq_calculus::ProofStep;
use sqlite_items::Items;
use std::alloc::Global;
use term_bank::Bank;

/// The expressions, the steps, and the unused steps, the latest last.
#[derive(Drop)]
pub struct Fields {
    pub bank: Bank,
    pub steps: Vec<ProofStep>,
    pub unused: Vec<u64>,
}

/// A step comes to the end. Its premises were the latest unused steps.
pub fn put(
    fields: &mut Fields,
    rule: u64,
    numbers: Items<u64>,
    exprs: Items<u64>,
    premises: Items<u64>,
) -> Result<(), Memory>
    requires held { IsWritten (with_unused (seen fields.old) premises) }
    requires form { IsTrue (step_fits (record { rule = rule; numbers = numbers; exprs = exprs; premises = premises })) }
    requires below { AreBelow (length fields.old.bank) exprs }
    ensures held { IsWritten (seen fields.new) }
    ensures bank { fields.new.bank ≡ fields.old.bank }
    ensures ok { OnOk result (seen fields.new ≡ grown (seen fields.old) (record { rule = rule; numbers = numbers; exprs = exprs; premises = premises })) }
{
    let at = fields.steps.len() as u64;
    fields.steps.push(ProofStep {
        rule,
        numbers,
        exprs,
        premises,
    })?;
    fields.unused.push(at)?;
    Ok(())
}

/// A step that was taken off is open again.
pub fn put_back(fields: &mut Fields, step: u64) -> Result<(), Memory>
    requires { IsWritten (with_unused (seen fields.old) (step ∷ [])) }
    ensures held { IsWritten (seen fields.new) }
    ensures bank { fields.new.bank ≡ fields.old.bank }
    ensures ok { OnOk result (seen fields.new ≡ with_unused (seen fields.old) (step ∷ [])) }
{
    fields.unused.push(step)?;
    Ok(())
}

/// The latest open step is taken off.
pub fn take(fields: &mut Fields) -> u64
    requires held { IsWritten (seen fields.old) }
    requires some { 0 < length fields.old.unused.items }
    ensures held { IsWritten (seen fields.new) }
    ensures taken { seen fields.old ≡ with_unused (seen fields.new) (result ∷ []) }
    ensures bank { fields.new.bank ≡ fields.old.bank }
    ensures fewer { length fields.old.unused.items ≡ length fields.new.unused.items + 1 }
{
    let last = fields.unused.len() - 1;
    let step = fields.unused[last];
    fields.unused.pop();
    step
}

/// So many of the latest open steps are taken off, at most two, the latest first.
pub fn take_some(fields: &mut Fields, alloc: Global, many: u64) -> Result<Items<u64>, Memory>
    requires held { IsWritten (seen fields.old) }
    requires some { many ≤ length fields.old.unused.items }
    requires few { many ≤ 2 }
    ensures held { IsWritten (seen fields.new) }
    ensures bank { fields.new.bank ≡ fields.old.bank }
    ensures ok { IfOk result (λ is. (length is ≡ many) × (seen fields.old ≡ with_unused (seen fields.new) is)) }
{
    if many == 0 {
        return Ok(none(alloc));
    }
    let first = take(fields);
    if many == 1 {
        return one(alloc, first);
    }
    let second = take(fields);
    two(alloc, first, second)
}
