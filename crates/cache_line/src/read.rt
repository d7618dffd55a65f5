//! Lines as they are read.
ghost use Rattle.std.specs.Prelude.{◌≡◌, ◌↔◌, IsTrue, IfOk, IfSome, IfNone, option_map};
ghost use Rattle.serde_json.specs.View.{view, items_view, members_view};
ghost use Rattle.serde_json.specs.Errors.{IsMemory};
ghost use Rattle.cache_line.specs.declared.line.Line.{Line};
ghost use Rattle.cache_line.specs.Lines.{IsLine, line_of, list_of, numbers_of, parts_of};

use crate::line::Line;
use core_expr::{Memory, Text};
use serde_json::{Category, Error, Map, Value};
use sqlite_items::Items;
use std::alloc::Global;

/// The numbers of an array: None exactly where one is no whole number below 2^64.
fn numbers(alloc: Global, items: &[Value]) -> Result<Option<Items<u64>>, Memory>
    ensures { IfOk result (λ r. r ≡ numbers_of (items_view items.now)) }
{
    let mut found = Vec::with_capacity(alloc, items.len())?;
    for item in items {
        match item.as_u64() {
            Some(number) => found.push(number)?,
            None => return Ok(None),
        }
    }
    Ok(Some(Items::from_vec(found)))
}

/// A list of whole numbers.
fn list(alloc: Global, value: &Value) -> Result<Option<Items<u64>>, Memory>
    ensures { IfOk result (λ r. r ≡ list_of (view value.now)) }
{
    match value.as_array() {
        Some(items) => numbers(alloc, items.as_slice()),
        None => Ok(None),
    }
}

/// The values of an object with exactly the keys of a line.
fn parts<'a>(map: &'a Map<String, Value>) -> Option<(&'a Value, &'a Value, &'a Value)>
    ensures { option_map (λ t. (view t.0.now, view t.1.now, view t.2.now)) result
        ≡ parts_of (members_view map.entry.now.entries) }
{
    let mut entries = map.iter();
    let (first, key) = entries.next()?;
    let (second, obligation) = entries.next()?;
    let (third, proof) = entries.next()?;
    if entries.next().is_some() {
        return None;
    }
    if first.as_str() == "k" && second.as_str() == "o" && third.as_str() == "p" {
        Some((key, obligation, proof))
    } else {
        None
    }
}

/// The parts of a value.
fn value_line(alloc: Global, value: &Value) -> Result<Option<Line>, Memory>
    ensures { IfOk result (λ r. r ≡ line_of (view value.now)) }
{
    let Some(map) = value.as_object() else {
        return Ok(None);
    };
    let Some((key, obligation, proof)) = parts(map) else {
        return Ok(None);
    };
    let Some(key) = key.as_str() else {
        return Ok(None);
    };
    let Some(obligation) = list(alloc, obligation)? else {
        return Ok(None);
    };
    let Some(proof) = list(alloc, proof)? else {
        return Ok(None);
    };
    let key = Text::of(alloc, key.as_bytes())?;
    Ok(Some(Line {
        key,
        obligation,
        proof,
    }))
}

/// Whether there was no memory.
fn is_memory(error: &Error) -> bool
    ensures { IsTrue result ↔ IsMemory error.now }
{
    matches!(error.classify(), Category::Memory)
}

/// The parts of a line: None exactly where it has none. Want of memory is the only other answer.
pub fn read_line(alloc: Global, bytes: &[u8]) -> Result<Option<Line>, Memory>
    ensures some { IfOk result (λ r. IfSome r (λ l. IsLine bytes.now l)) }
    ensures none { IfOk result (λ r. IfNone r ((l : Line) → IsLine bytes.now l → ⊥)) }
{
    match Value::from_slice(alloc, bytes) {
        Ok(value) => value_line(alloc, &value),
        Err(error) => {
            if is_memory(&error) {
                return Err(Memory);
            }
            Ok(None)
        }
    }
}
