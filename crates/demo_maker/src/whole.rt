//! The whole text.
ghost use Rattle.std.specs.Prelude.{◌≡◌, ◌++◌, ◌≤◌, ◌<◌, codes, IfOk, OnOk};
ghost use Rattle.demo_maker.specs.Demo as spec;

use crate::parts::{push_constants, push_implication, push_links, push_number};
use core_expr::{Memory, Text};
use std::alloc::{AllocError, Global};

/// Appends what a theorem asks for: the chain's ends in order, or the other way round where 10 divides its number.
fn push_ends(out: &mut Vec<u8>, number: u64, last: u64) -> Result<(), AllocError>
    ensures { OnOk result (out.new.items ≡ out.old.items ++ spec.ends number last) }
{
    if number % 10 == 0 {
        push_implication(out, last, 0)
    } else {
        push_implication(out, 0, last)
    }
}

/// Appends the theorem with this number.
fn push_theorem(out: &mut Vec<u8>, number: u64) -> Result<(), AllocError>
    ensures { OnOk result (out.new.items ≡ out.old.items ++ spec.theorem_line number) }
{
    let more = number % 50;
    out.extend_from_slice(b"THEOREM T")?;
    push_number(out, number)?;
    out.extend_from_slice(b" == ")?;
    push_links(out, more)?;
    out.extend_from_slice(b" => ")?;
    push_ends(out, number, more + 1)?;
    out.extend_from_slice(b" OBVIOUS\n")
}

/// Appends so many theorems.
fn push_theorems(out: &mut Vec<u8>, count: u64) -> Result<(), AllocError>
    requires { count ≤ 1000 }
    ensures { OnOk result (out.new.items ≡ out.old.items ++ spec.theorems count) }
{
    for number in 0..count {
        push_theorem(out, number + 1)?;
    }
    Ok(())
}

/// The text of the demonstration module with this name and so many theorems, 1 to 1000.
pub fn demo(alloc: Global, name: &Text, count: u64) -> Result<Vec<u8>, Memory>
    requires { (1 ≤ count) × (count ≤ 1000) }
    ensures { IfOk result (λ v. v.items ≡ spec.demo_text name.now count) }
{
    let mut out = Vec::new(alloc);
    out.extend_from_slice(b"---- MODULE ")?;
    out.extend_from_slice(name.bytes())?;
    out.extend_from_slice(b" ----\nCONSTANTS ")?;
    push_constants(&mut out, 50)?;
    out.extend_from_slice(b"\n")?;
    push_theorems(&mut out, count)?;
    out.extend_from_slice(b"====\n")?;
    Ok(out)
}
