//! The values of symbols, as a report shows them.

ghost use Rattle.std.specs.Prelude.{◌≡◌, ◌++◌, map, codes, OnOk};
ghost use Rattle.symbol_table.specs.Scoped.{entry_of};
ghost use Rattle.leaf_jobs.specs.Values.{prime_text, symbol_text, value_text, more_values, valuation_text};

use core_expr::{Sym, SymKind};
use std::alloc::AllocError;
use symbol_table::Scoped;

/// The name of a number.
fn name_of(scoped: &Scoped, number: u64) -> &[u8]
    ensures { result.now ≡ (entry_of scoped.now.entries number).name }
{
    match scoped.entry(number) {
        Some(entry) => entry.name.bytes(),
        None => b"",
    }
}

/// What is printed behind the name of a symbol.
fn prime(kind: SymKind) -> &'static [u8]
    ensures { result.now ≡ prime_text kind }
{
    match kind {
        SymKind::Primed => b"'",
        SymKind::DefinedPrimed => b"'",
        _ => b"",
    }
}

/// Appends a symbol and its value.
fn push_value(
    out: &mut Vec<u8>,
    scoped: &Scoped,
    symbol: Sym,
    value: bool,
) -> Result<(), AllocError>
    ensures { OnOk result (out.new.items
        ≡ out.old.items ++ value_text (symbol_text scoped.now.entries symbol) value) }
{
    out.extend_from_slice(name_of(scoped, symbol.number))?;
    out.extend_from_slice(prime(symbol.kind))?;
    out.extend_from_slice(b" = ")?;
    let truth: &[u8] = if value { b"TRUE" } else { b"FALSE" };
    out.extend_from_slice(truth)
}

/// Appends a symbol and its value, after a comma and a blank.
fn push_next(out: &mut Vec<u8>, scoped: &Scoped, symbol: Sym, value: bool) -> Result<(), AllocError>
    ensures { OnOk result (out.new.items
        ≡ out.old.items ++ (codes ", " ++ value_text (symbol_text scoped.now.entries symbol) value)) }
{
    out.extend_from_slice(b", ")?;
    push_value(out, scoped, symbol, value)
}

/// Appends these symbols and their values, each after a comma and a blank.
fn push_more(
    out: &mut Vec<u8>,
    scoped: &Scoped,
    order: &[Sym],
    values: &[bool],
) -> Result<(), AllocError>
    ensures { OnOk result (out.new.items
        ≡ out.old.items ++ more_values (map (symbol_text scoped.now.entries) order.now) values.now) }
{
    for i in 0..order.len().min(values.len()) {
        push_next(out, scoped, order[i], values[i])?;
    }
    Ok(())
}

/// Appends these symbols and their values, with a comma and a blank between each two.
pub fn push_valuation(
    out: &mut Vec<u8>,
    scoped: &Scoped,
    order: &[Sym],
    values: &[bool],
) -> Result<(), AllocError>
    ensures { OnOk result (out.new.items
        ≡ out.old.items ++ valuation_text (map (symbol_text scoped.now.entries) order.now)
        values.now) }
{
    if order.is_empty() || values.is_empty() {
        return Ok(());
    }
    push_value(out, scoped, order[0], values[0])?;
    push_more(out, scoped, &order[1..], &values[1..])
}
