//! The step names of a theorem's proof.

ghost use Rattle.std.specs.Prelude.{◌≡◌};
ghost use Rattle.plain_syntax.specs.Syntax.{proof_of};
ghost use Rattle.tla_ast.specs.Answers.{Answers};
ghost use Rattle.proof_outline.specs.Outline as spec;

use crate::meaning::Outline;
use crate::walk::{Stop, Walker, has_step};
use std::alloc::Global;
use tla_ast::{Kind, OutlineFault, Proof};

/// The kind of fault of a name that is not seen where it is cited.
fn unseen_kind(some_step: bool) -> Kind
    ensures { result ≡ spec.unseen_kind some_step }
{
    if some_step {
        Kind::StepOutOfScope
    } else {
        Kind::UnknownStep
    }
}

/// What the step names that the proof of a theorem cites mean, or the first fault of its step names in the order of the text. Takes
/// near linear time.
#[tactic(auto, unfolding(crate::specs::Outline::outline))]
pub fn outline(alloc: Global, proof: &Proof) -> Result<Outline, OutlineFault>
    ensures { Answers result (spec.outline (proof_of proof.now)) }
{
    let mut walker = Walker::new(alloc);
    match walker.proof(proof) {
        Ok(()) => Ok(Outline::new(walker.cites)),
        Err(Stop::Memory) => Err(OutlineFault::Memory),
        Err(Stop::Again(place)) => Err(OutlineFault::At {
            place,
            kind: Kind::DuplicateStep,
        }),
        Err(
            Stop::Unseen {
                level,
                label,
                place,
            },
        ) => Err(OutlineFault::At {
            place,
            kind: unseen_kind(has_step(level, label, proof)),
        }),
    }
}
