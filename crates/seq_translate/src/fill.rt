//! Proofs that stand where none does: the definition's filler.
ghost use Rattle.std.specs.Prelude.{◌≡◌, ◌≤◌, length, OnOk};
ghost use Rattle.proof_writer.specs.Written.{opens};
ghost use Rattle.proof_writer.specs.Shapes.{first_of, second_of, rest_of};

use core_expr::Memory;
use proof_writer::{Inference, Writer};
use std::alloc::Global;

/// At least one proof is open: TRUE on the right where none was.
pub fn fill_one(w: &mut Writer, alloc: Global) -> Result<(), Memory>
    ensures trees { w.new.trees ≡ w.old.trees }
    ensures some { OnOk result (1 ≤ length (opens w.new)) }
    ensures first { OnOk result (first_of (opens w.new) ≡ first_of (opens w.old)) }
    ensures rest { OnOk result (rest_of (opens w.new) ≡ rest_of (opens w.old)) }
{
    if w.depth() == 0 {
        w.infer(alloc, Inference::TrueRight)?;
    }
    Ok(())
}

/// At least two proofs are open likewise.
pub fn fill_two(w: &mut Writer, alloc: Global) -> Result<(), Memory>
    ensures trees { w.new.trees ≡ w.old.trees }
    ensures some { OnOk result (2 ≤ length (opens w.new)) }
    ensures first { OnOk result (first_of (opens w.new) ≡ first_of (opens w.old)) }
    ensures second { OnOk result (second_of (opens w.new) ≡ second_of (opens w.old)) }
    ensures rest { OnOk result (rest_of (rest_of (opens w.new)) ≡ rest_of (rest_of (opens w.old))) }
{
    fill_one(w, alloc)?;
    if w.depth() == 1 {
        w.infer(alloc, Inference::TrueRight)?;
        w.swap()?;
    }
    Ok(())
}
