//! The key under which a proof is kept.
ghost use Rattle.std.specs.Prelude.{◌≡◌, IfOk};
ghost use Rattle.proof_text.specs.Key.{key_of};

use core_expr::{Memory, Text};
use sha2::{Digest, Sha256};
use std::alloc::Global;

/// The key of a list of numbers: the lower-case hexadecimal SHA-256 of the numbers, each as 8 bytes with the highest first.
pub fn key(alloc: Global, list: &[u64]) -> Result<Text, Memory>
    ensures { IfOk result (λ t. t ≡ key_of list.now) }
{
    let mut hasher = Sha256::new();
    for number in list {
        let bytes = number.to_be_bytes();
        hasher.update(bytes.as_slice());
    }
    let digest = hasher.finalize();
    let text = hex::encode(alloc, digest.as_slice())?;
    Text::of(alloc, text.as_bytes())
}
