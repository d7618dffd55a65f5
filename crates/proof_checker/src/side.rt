//! A side of a sequent, as numbers of a bank.
ghost use Rattle.std.specs.Prelude.{◌≡◌, ◌↔◌, ◌<◌, ◌≤◌, ◌++◌, [], length, reverse, IfOk, OnOk, IsTrue};
ghost use Rattle.core_expr.specs.Nodes.{AreBelow, picked, node_fits, node_make};
ghost use Rattle.term_bank.specs.Banks.{tree_at};
ghost use Rattle.seq_calculus.specs.Calculus.{Has, HasAll};
ghost use Rattle.proof_checker.specs.Sides.{seen, AreFormulas, AddsBelow, AddsClosed, IsEntered};
ghost use Rattle.proof_checker.specs.Runs.{part_of};

use crate::task::{Adds, Part};
use crate::trail::Trail;
use core_expr::Memory;
use std::alloc::Global;
use term_bank::Bank;

/// A side: what stands on the trail from the base on, the newest first.
#[derive(Drop)]
pub struct Side {
    pub trail: Trail,
    pub base: u64,
}

impl Side {
    /// A side without formulas.
    pub fn new(alloc: Global) -> Side
        ensures { result ≡ record { trail = []; base = 0 } }
    {
        Side {
            trail: Trail::new(alloc),
            base: 0,
        }
    }

    /// The side as it is, and what is to be added.
    pub fn with(&self, adds: Adds) -> Part
        ensures { result ≡ part_of self.now adds }
    {
        Part {
            base: self.base,
            count: self.trail.count(),
            adds,
        }
    }

    /// Whether the tree at `a` is on the side.
    pub fn has(&self, bank: &Bank, a: u64) -> bool
        requires within { a < length bank.now }
        requires formulas { AreFormulas bank.now self.now.trail }
        ensures { IsTrue result ↔ Has (seen bank.now self.now) (tree_at bank.now a) }
    {
        let _count = bank.count();
        self.trail.has(self.base, a)
    }

    /// Whether each of the trees is on the side.
    pub fn has_all(&self, bank: &Bank, items: &[u64]) -> bool
        requires below { AreBelow (length bank.now) items.now }
        requires formulas { AreFormulas bank.now self.now.trail }
        ensures { IsTrue result ↔ HasAll (seen bank.now self.now) (picked bank.now items.now) }
    {
        for item in items {
            if !self.has(bank, *item) {
                return false;
            }
        }
        true
    }

    /// Whether the formula with this head and these parts is on the side.
    pub fn holds(&self, bank: &Bank, head: u64, parts: &[u64]) -> bool
        requires form { IsTrue (node_fits head [] (length parts.now)) }
        requires below { AreBelow (length bank.now) parts.now }
        requires formulas { AreFormulas bank.now self.now.trail }
        ensures { IsTrue result
            ↔ Has (seen bank.now self.now) (node_make head [] (picked bank.now parts.now)) }
    {
        let _count = bank.count();
        match bank.seek(head, &[], parts) {
            Some(i) => self.trail.has(self.base, i),
            None => false,
        }
    }

    /// Takes the side back to what a part says. False where a formula that is added is open.
    pub fn enter(&mut self, bank: &Bank, part: Part) -> Result<bool, Memory>
        requires count { part.count ≤ length self.old.trail }
        requires below { AddsBelow (length bank.now) part.adds }
        ensures closed { IfOk result (λ b. IsTrue b ↔ AddsClosed bank.now part.adds) }
        ensures entered { IfOk result (λ b. IsTrue b → IsEntered part self.old.trail self.new) }
    {
        self.base = part.base;
        self.trail.cut(part.count);
        match part.adds {
            Adds::Nothing => Ok(true),
            Adds::One(a) => {
                self.trail.push(a)?;
                Ok(bank.is_closed(a))
            }
            Adds::Both(a, b) => {
                self.trail.push(b)?;
                self.trail.push(a)?;
                Ok(bank.is_closed(a) && bank.is_closed(b))
            }
        }
    }

    /// Begins anew with these alone, the first the newest.
    pub fn begin(&mut self, items: &[u64]) -> Result<(), Memory>
        ensures base { OnOk result (self.new.base ≡ length self.old.trail) }
        ensures trail { OnOk result (self.new.trail ≡ self.old.trail ++ reverse items.now) }
    {
        self.base = self.trail.count();
        for i in 0..items.len() {
            self.trail.push(items[items.len() - 1 - i])?;
        }
        Ok(())
    }
}
