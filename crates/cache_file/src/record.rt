//! Records of lines.
ghost use Rattle.std.specs.Prelude.{◌≡◌, ◌↔◌, IsTrue, IfOk, IfSome, IfNone};
ghost use Rattle.core_expr.specs.declared.canon.Canon.{Canon};
ghost use Rattle.seq_calculus.specs.Lists.{AreLists, written};
ghost use Rattle.proof_text.specs.Key.{key_of};
ghost use Rattle.proof_text.specs.Texts.{Shows, IsProofText};
ghost use Rattle.text_writer.specs.Tables.{canon_list};
ghost use Rattle.proof_cache.specs.declared.record.Record.{Record};
ghost use Rattle.cache_file.specs.Records.{IsAnswered, IsKept};

use cache_line::{Line, read_line};
use core_expr::{Canon, Memory, Text};
use proof_cache::Record;
use proof_text::{TextFault, key, obligations_differ, read_canon, read_proof};
use seq_calculus::SeqProof;
use std::alloc::Global;
use text_writer::write_canon;

/// The most bytes of a record's line.
const GREATEST_LENGTH: usize = 8388608;

/// Whether this is the key of the list.
fn is_key(alloc: Global, text: &Text, list: &[u64]) -> Result<bool, Memory>
    ensures { IfOk result (λ b. IsTrue b ↔ (text.now ≡ key_of list.now)) }
{
    let key = key(alloc, list)?;
    Ok(*text == key)
}

/// The canonical form whose list this is.
fn form(alloc: Global, list: &[u64]) -> Result<Option<Canon>, Memory>
    ensures some { IfOk result (λ o. IfSome o (λ c. Shows list.now c × (list.now ≡ canon_list c))) }
    ensures none { IfOk result (λ o. IfNone o ((c : Canon) → Shows list.now c
        → list.now ≡ canon_list c → ⊥)) }
{
    obligations_differ();
    match read_canon(alloc, list) {
        Ok(canon) => {
            let written = write_canon(alloc, &canon)?;
            if written.as_slice() == list {
                return Ok(Some(canon));
            }
            Ok(None)
        }
        Err(TextFault::BadText(_)) => Ok(None),
        Err(TextFault::Memory) => Err(Memory),
    }
}

/// The proof whose list this is.
fn proof(alloc: Global, list: &[u64]) -> Result<Option<SeqProof>, Memory>
    ensures some { IfOk result (λ o. IfSome o (λ p. AreLists p × (written p ≡ list.now))) }
    ensures none { IfOk result (λ o. IfNone o (IsProofText list.now → ⊥)) }
{
    match read_proof(alloc, list) {
        Ok(proof) => Ok(Some(proof)),
        Err(TextFault::BadText(_)) => Ok(None),
        Err(TextFault::Memory) => Err(Memory),
    }
}

/// The record that the parts of a line keep: None exactly where they keep none.
fn record(alloc: Global, parts: &Line) -> Result<Option<Record>, Memory>
    ensures some { IfOk result (λ o. IfSome o (λ r. IsKept parts.now r)) }
    ensures none { IfOk result (λ o. IfNone o ((r : Record) → IsKept parts.now r → ⊥)) }
{
    if !is_key(alloc, &parts.key, parts.obligation.as_slice())? {
        return Ok(None);
    }
    let Some(proof) = proof(alloc, parts.proof.as_slice())? else {
        return Ok(None);
    };
    let Some(canon) = form(alloc, parts.obligation.as_slice())? else {
        return Ok(None);
    };
    Ok(Some(Record { canon, proof }))
}

/// The record of a line: None exactly where it is none.
pub fn read_record(alloc: Global, line: &[u8]) -> Result<Option<Record>, Memory>
    ensures { IsAnswered line.now result }
{
    if line.len() > GREATEST_LENGTH {
        return Ok(None);
    }
    match read_line(alloc, line)? {
        Some(parts) => record(alloc, &parts),
        None => Ok(None),
    }
}
