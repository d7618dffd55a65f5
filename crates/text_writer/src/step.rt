//! Steps of a proof as they are written.
ghost use Rattle.std.specs.Prelude.{◌≡◌, ◌++◌, OnOk, slice_index, min, length};
ghost use Rattle.std.specs.List.{flat_map};
ghost use Rattle.seq_calculus.specs.Lists.{written_operands, written_step};

use core_expr::Memory;
use seq_calculus::ProofStep;

/// The number at a place, and 0 past the last.
fn number_at(numbers: &[u64], at: usize) -> u64
    ensures { result ≡ slice_index numbers.now at }
{
    numbers.get(at).copied().unwrap_or(0)
}

/// The lesser of a number and a length.
fn at_most(number: u64, length: usize) -> usize
    ensures { result ≡ min number length }
{
    (number as usize).min(length)
}

/// Writes the numbers and expressions of a step. Weakening has the length of each list before it.
fn write_operands(list: &mut Vec<u64>, step: &ProofStep) -> Result<(), Memory>
    ensures { OnOk result (list.new.items ≡ list.old.items ++ written_operands step.now) }
{
    let numbers = step.numbers.as_slice();
    let exprs = step.exprs.as_slice();
    if step.rule != 3 {
        list.extend_from_slice(numbers)?;
        list.extend_from_slice(exprs)?;
        return Ok(());
    }
    let left = number_at(numbers, 0);
    let cut = at_most(left, exprs.len());
    list.push(left)?;
    list.extend_from_slice(&exprs[..cut])?;
    list.push(number_at(numbers, 1))?;
    list.extend_from_slice(&exprs[cut..])?;
    Ok(())
}

/// Writes a step: its rule, its numbers and expressions, and its premises.
fn write_step(list: &mut Vec<u64>, step: &ProofStep) -> Result<(), Memory>
    ensures { OnOk result (list.new.items ≡ list.old.items ++ written_step step.now) }
{
    list.push(step.rule)?;
    write_operands(list, step)?;
    list.extend_from_slice(step.premises.as_slice())?;
    Ok(())
}

/// Writes steps, one after another.
pub fn write_steps(list: &mut Vec<u64>, steps: &[ProofStep]) -> Result<(), Memory>
    ensures { OnOk result (list.new.items ≡ list.old.items ++ flat_map written_step steps.now) }
{
    for step in steps {
        write_step(list, step)?;
    }
    Ok(())
}
