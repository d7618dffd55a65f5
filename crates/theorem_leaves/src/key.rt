//! The numbers by which facts are cited.

ghost use Rattle.std.specs.Prelude.{◌≡◌, ◌+◌, ◌*◌, IfOk};
ghost use Rattle.usable_facts.specs.Keys as keys;
ghost use Rattle.usable_facts.specs.Theorems.{number_of};
ghost use Rattle.theorem_leaves.specs.Homes.{means};

use crate::home::Home;
use core_expr::Memory;
use tla_ast::Decl;

/// Three times a number, and so much more; want of memory where that is past every name that fits into memory.
fn triple(number: u64, more: u64) -> Result<u64, Memory>
    ensures { IfOk result (λ k. k ≡ 3 * number + more) }
{
    let Some(product) = number.checked_mul(3) else {
        return Err(Memory);
    };
    match product.checked_add(more) {
        Some(sum) => Ok(sum),
        None => Err(Memory),
    }
}

/// The number by which a step is cited, by its number in the proof.
pub(crate) fn step_key(number: u64) -> Result<u64, Memory>
    ensures { IfOk result (λ k. k ≡ keys.step_key number) }
{
    triple(number, 0)
}

/// The number by which a declared fact is cited, by the number of its declaration.
pub fn entry_key(number: u64) -> Result<u64, Memory>
    ensures { IfOk result (λ k. k ≡ keys.entry_key number) }
{
    triple(number, 1)
}

/// The number of a theorem without a name, by how many theorems stand before it.
fn unnamed_key(before: u64) -> Result<u64, Memory>
    ensures { IfOk result (λ k. k ≡ keys.unnamed_key before) }
{
    triple(before, 2)
}

/// The number by which a step with this number and this label is cited; None exactly where the label is empty.
#[tactic(auto, using(crate::proofs::KeyLaws::labelled, crate::proofs::KeyLaws::unlabelled))]
pub fn label_key(number: u64, label: &[u8]) -> Result<Option<u64>, Memory>
    ensures { IfOk result (λ k. k ≡ keys.label_key number label.now) }
{
    if label.is_empty() {
        return Ok(None);
    }
    Ok(Some(step_key(number)?))
}

impl Home<'_> {
    /// The number that a name means, if there is one.
    pub(crate) fn number_of(&self, name: &Option<Decl>) -> Option<u64>
        ensures { result ≡ number_of (means self.now) name.now }
    {
        match name {
            Some(decl) => self.meaning(decl.place),
            None => None,
        }
    }

    /// The number by which what has this name is cited; None exactly where it has no name, or the text was not resolved.
    pub fn name_key(&self, name: &Option<Decl>) -> Result<Option<u64>, Memory>
        ensures { IfOk result (λ k. k ≡ keys.as_entry_key (number_of (means self.now) name.now)) }
    {
        match self.number_of(name) {
            Some(number) => Ok(Some(entry_key(number)?)),
            None => Ok(None),
        }
    }

    /// The number of a theorem, by its name, or by how many theorems stand before it where it has none.
    pub fn theorem_key(&self, before: u64, name: &Option<Decl>) -> Result<u64, Memory>
        ensures { IfOk result (λ k. k
            ≡ keys.theorem_key before (number_of (means self.now) name.now)) }
    {
        match self.number_of(name) {
            Some(number) => entry_key(number),
            None => unnamed_key(before),
        }
    }
}
