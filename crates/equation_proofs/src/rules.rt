//! The writers of all rules.
use crate::by_rule::{write_one, write_two};
use core_expr::Memory;
use proof_writer::Writer;
use rule_proofs::close;
use search_definition::Clash;
use search_trace::{Added, Used};
use seq_translate::RuleProofs;
use std::alloc::Global;

/// Writes the proof tree of each rule of the search, and of each closing.
#[derive(Clone, Copy, Debug)]
pub struct Rules;

impl RuleProofs for Rules {
    fn close(
        &self,
        w: &mut Writer,
        alloc: Global,
        case: Clash,
        entries: &[u64],
    ) -> Result<(), Memory> {
        close(w, alloc, case, entries)
    }

    fn write_one(
        &self,
        w: &mut Writer,
        alloc: Global,
        used: &Used,
        added: &[Added],
    ) -> Result<(), Memory> {
        write_one(w, alloc, used, added)
    }

    fn write_two(
        &self,
        w: &mut Writer,
        alloc: Global,
        used: &Used,
        first: &[Added],
        second: &[Added],
    ) -> Result<(), Memory> {
        write_two(w, alloc, used, first, second)
    }
}
