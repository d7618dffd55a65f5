//! The instances of the schemas over the indices of a bank.
ghost use Rattle.std.specs.Prelude.{◌<◌, length, IfOk};
ghost use Rattle.core_expr.specs.Nodes.{AreBelow, picked};
ghost use Rattle.term_bank.specs.Banks.{Extends};
ghost use Rattle.proof_checker.specs.Schemas.{IsInstance};

use crate::pattern::pattern_at;
use crate::tuple::{enumeration, literals, tuple_entry, tuple_equality};
use core_expr::Memory;
use std::alloc::Global;
use term_bank::Bank;

/// The formula of a schema from 2 to 19.
fn by_pattern(
    bank: &mut Bank,
    alloc: Global,
    schema: u64,
    number: u64,
    params: &[u64],
) -> Result<Option<u64>, Memory>
    requires least { 1 < schema }
    requires most { schema < 20 }
    requires params { AreBelow (length bank.old) params.now }
    ensures extends { Extends bank.old bank.new }
    ensures ok { IfOk result (λ o. IsInstance bank.new schema number
        (picked bank.old params.now) o) }
{
    if number != 0 {
        return Ok(None);
    }
    let found = pattern_at(bank, alloc, schema - 2, params)?;
    Ok(found)
}

/// The formula of the schema with this number, from 1 to 22, and these parameters. None where it has no closed instance.
pub fn instance(
    bank: &mut Bank,
    alloc: Global,
    schema: u64,
    number: u64,
    params: &[u64],
) -> Result<Option<u64>, Memory>
    requires params { AreBelow (length bank.old) params.now }
    ensures extends { Extends bank.old bank.new }
    ensures ok { IfOk result (λ o. IsInstance bank.new schema number
        (picked bank.old params.now) o) }
{
    if schema == 1 {
        return enumeration(bank, alloc, number, params);
    }
    if schema > 1 && schema < 20 {
        return by_pattern(bank, alloc, schema, number, params);
    }
    if schema == 20 {
        return tuple_equality(bank, alloc, number, params);
    }
    if schema == 21 {
        return tuple_entry(bank, alloc, number, params);
    }
    if schema == 22 {
        return literals(bank, alloc, number, params);
    }
    Ok(None)
}
