//! The parts of a theorem.
ghost use Rattle.std.specs.Prelude.{◌≡◌, ◌++◌, ◌<◌, codes, decimal, OnOk};
ghost use Rattle.demo_maker.specs.Demo.{symbol, implication, links, constants};

use itoa::Buffer;
use std::alloc::AllocError;

/// Appends a number in decimal digits.
pub fn push_number(out: &mut Vec<u8>, number: u64) -> Result<(), AllocError>
    ensures { OnOk result (out.new.items ≡ out.old.items ++ decimal number) }
{
    let mut buffer = Buffer::new();
    out.extend_from_slice(buffer.format(number).as_bytes())
}

/// Appends the constant with this number.
fn push_symbol(out: &mut Vec<u8>, number: u64) -> Result<(), AllocError>
    ensures { OnOk result (out.new.items ≡ out.old.items ++ symbol number) }
{
    out.extend_from_slice(b"A")?;
    push_number(out, number)
}

/// Appends an implication between two constants.
pub fn push_implication(out: &mut Vec<u8>, from: u64, to: u64) -> Result<(), AllocError>
    ensures { OnOk result (out.new.items ≡ out.old.items ++ implication from to) }
{
    out.extend_from_slice(b"(")?;
    push_symbol(out, from)?;
    out.extend_from_slice(b" => ")?;
    push_symbol(out, to)?;
    out.extend_from_slice(b")")
}

/// Appends a chain of one implication and so many more.
pub fn push_links(out: &mut Vec<u8>, more: u64) -> Result<(), AllocError>
    requires { more < 50 }
    ensures { OnOk result (out.new.items ≡ out.old.items ++ links more) }
{
    push_implication(out, 0, 1)?;
    for link in 0..more {
        out.extend_from_slice(b" /\\ ")?;
        push_implication(out, link + 1, link + 2)?;
    }
    Ok(())
}

/// Appends the constant 0 and so many more.
#[tactic(auto, unfolding(crate::specs::Demo::constants))]
pub fn push_constants(out: &mut Vec<u8>, more: u64) -> Result<(), AllocError>
    requires { more < 1000 }
    ensures { OnOk result (out.new.items ≡ out.old.items ++ constants more) }
{
    push_symbol(out, 0)?;
    for number in 0..more {
        out.extend_from_slice(b", ")?;
        push_symbol(out, number + 1)?;
    }
    Ok(())
}
