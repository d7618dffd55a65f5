//! Records.
use core_expr::Canon;
use seq_calculus::SeqProof;

/// A canonical form, and what is said to prove it, which nobody has checked.
#[derive(Drop)]
pub struct Record {
    pub canon: Canon,
    pub proof: SeqProof,
}
