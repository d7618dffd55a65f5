//! The leaves of written proofs.
#![tactic(auto)]
