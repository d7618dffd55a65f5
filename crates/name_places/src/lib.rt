//! The places at which the names of a text stand: definitions alone.
#![tactic(auto)]
