//! Lines as they are written.
ghost use Rattle.std.specs.Prelude.{◌≡◌, true, IfOk};
ghost use Rattle.serde_json.specs.View.{view};
ghost use Rattle.serde_json.specs.Data.{array};
ghost use Rattle.cache_line.specs.declared.line.Line.{Line};
ghost use Rattle.cache_line.specs.Lines.{IsLine, is_one_line, items_for, data_for, line_text};

use core_expr::Memory;
use serde_json::{Value, json};
use std::alloc::{AllocError, Global};

/// A list of numbers as JSON.
fn array(alloc: Global, numbers: &[u64]) -> Result<Value, AllocError>
    ensures { IfOk result (λ v. view v ≡ array (items_for numbers.now)) }
{
    let mut items = Vec::with_capacity(alloc, numbers.len())?;
    for number in numbers {
        items.push(Value::from(*number))?;
    }
    Ok(Value::Array(items))
}

/// The JSON object of a line.
fn object(alloc: Global, key: &str, obligation: &[u64], proof: &[u64]) -> Result<Value, AllocError>
    ensures { IfOk result (λ v. view v
        ≡ data_for (record { key = key.now; obligation = obligation.now; proof = proof.now })) }
{
    let obligation = array(alloc, obligation)?;
    let proof = array(alloc, proof)?;
    json!(in alloc; {"k": key, "o": obligation, "p": proof})
}

/// The text of a line with these parts, without a line feed. Want of memory is the only other answer.
pub fn write_line(
    alloc: Global,
    key: &str,
    obligation: &[u64],
    proof: &[u64],
) -> Result<Vec<u8>, Memory>
    ensures text { IfOk result (λ b. b.items
        ≡ line_text (record { key = key.now; obligation = obligation.now; proof = proof.now })) }
    ensures one_line { IfOk result (λ b. is_one_line b.items ≡ true) }
    ensures read { IfOk result (λ b. IsLine b.items
        (record { key = key.now; obligation = obligation.now; proof = proof.now })) }
{
    let value = object(alloc, key, obligation, proof)?;
    let bytes = value.to_vec(alloc)?;
    Ok(bytes)
}
