//! The writer of flat proofs.
ghost use Rattle.std.specs.Prelude.{◌≡◌, ◌<◌, ◌≤◌, [], ◌∷◌, ℕ, length, OnOk, IfOk};
ghost use Rattle.core_expr.specs.Nodes.{AreBelow, picked};
ghost use Rattle.core_expr.specs.Put.{inst, IsScoped};
ghost use Rattle.term_patterns.specs.Abstracted.{abstracted};
ghost use Rattle.term_shapes.specs.Shapes.{tree_of, named_parts, IsWhole};
ghost use Rattle.seq_calculus.specs.Calculus.Rule.{Schema};
ghost use Rattle.seq_calculus.specs.Steps.{proof_of, table_of};
ghost use Rattle.proof_writer.specs.Written.{opens, count, tree_at, IsLast};
ghost use Rattle.proof_writer.specs.Shapes.{applied, over, first_of, second_of, rest_of};
ghost use Rattle.proof_writer.specs.Inferences.{rule_at, premises_of, IsUnder};

use crate::fields::{Fields, put, put_back, take, take_some};
use crate::inference::{Inference, none, one, three};
use crate::table::table;
use core_expr::Memory;
use seq_calculus::SeqProof;
use sqlite_items::Items;
use std::alloc::Global;
use std::marker::Model;
use term_bank::Bank;
use term_patterns::pattern;
use term_shapes::{Shape, make};

/// A proof that is being written. Contracts see its expressions by number and the proofs of the open steps, the latest
/// first: those that are no premise yet.
#[derive(Drop)]
pub struct Writer {
    fields: Fields,
}

impl Model for Writer {
    ghost use Rattle.proof_writer.specs.Written.{Written, IsWritten, written_code};
    ghost use Rattle.proof_writer.specs.Seen.{seen};

    ghost Value = { Written };

    ghost coded = { written_code };

    ghost view = { λ w. seen w.fields };

    ghost invariant = { λ w. IsWritten (seen w.fields) };
}

impl Writer {
    /// Nothing is written yet, over the expressions of the bank.
    pub fn new(alloc: Global, bank: Bank) -> Writer
        ensures trees { result.trees ≡ bank }
        ensures opens { opens result ≡ [] }
    {
        Writer {
            fields: Fields {
                bank,
                steps: Vec::new(alloc),
                unused: Vec::new(alloc),
            },
        }
    }

    /// The inference over as many of the latest open proofs as it has premises, the latest as its first.
    pub fn infer(&mut self, alloc: Global, rule: Inference) -> Result<(), Memory>
        requires below { IsUnder (count self.old) rule }
        requires some { premises_of rule ≤ length (opens self.old) }
        ensures trees { self.new.trees ≡ self.old.trees }
        ensures ok { OnOk result (opens self.new ≡ applied (rule_at self.old.trees rule) (premises_of rule) (opens self.old)) }
        ensures last { OnOk result (IsLast self.new) }
    {
        let premises = take_some(&mut self.fields, alloc, rule.premises())?;
        let exprs = rule.exprs(alloc)?;
        put(
            &mut self.fields,
            rule.number(),
            none(alloc),
            exprs,
            premises,
        )
    }

    /// The instance of a schema comes to the left of the latest open proof.
    pub fn schema(
        &mut self,
        alloc: Global,
        schema: u64,
        z: u64,
        params: Items<u64>,
    ) -> Result<(), Memory>
        requires below { AreBelow (count self.old) params }
        requires some { 1 ≤ length (opens self.old) }
        ensures trees { self.new.trees ≡ self.old.trees }
        ensures ok { OnOk result (opens self.new ≡ over (Schema schema z (picked self.old.trees params)) (first_of (opens self.old)) ∷ rest_of (opens self.old)) }
    {
        let premises = take_some(&mut self.fields, alloc, 1)?;
        let numbers = three(alloc, schema, z, params.len() as u64)?;
        put(&mut self.fields, 21, numbers, params, premises)
    }

    /// The two latest open proofs are exchanged.
    pub fn swap(&mut self) -> Result<(), Memory>
        requires { 2 ≤ length (opens self.old) }
        ensures trees { self.new.trees ≡ self.old.trees }
        ensures ok { OnOk result (opens self.new ≡ second_of (opens self.old) ∷ first_of (opens self.old) ∷ rest_of (rest_of (opens self.old))) }
    {
        let first = take(&mut self.fields);
        let second = take(&mut self.fields);
        put_back(&mut self.fields, first)?;
        put_back(&mut self.fields, second)
    }

    /// The latest open proof is left out: its steps stay without a use.
    pub fn discard(&mut self)
        requires { 1 ≤ length (opens self.old) }
        ensures trees { self.new.trees ≡ self.old.trees }
        ensures opens { opens self.new ≡ rest_of (opens self.old) }
    {
        let _step = take(&mut self.fields);
    }

    /// The open proof below the latest is left out.
    pub fn discard_below(&mut self) -> Result<(), Memory>
        requires { 2 ≤ length (opens self.old) }
        ensures trees { self.new.trees ≡ self.old.trees }
        ensures ok { OnOk result (opens self.new ≡ first_of (opens self.old) ∷ rest_of (rest_of (opens self.old))) }
    {
        self.swap()?;
        self.discard();
        Ok(())
    }

    /// How many proofs are open.
    pub fn depth(&self) -> u64
        ensures { result ≡ length (opens self.now) }
    {
        self.fields.unused.len() as u64
    }

    /// The expressions.
    pub fn bank(&self) -> &Bank
        ensures { result.now ≡ self.now.trees }
    {
        &self.fields.bank
    }

    /// The number of the tree of a form over the trees at its parts.
    pub fn make(&mut self, alloc: Global, shape: Shape) -> Result<u64, Memory>
        requires below { AreBelow (count self.old) (named_parts shape) }
        requires whole { IsWhole shape }
        ensures more { count self.old ≤ count self.new }
        ensures same { (i : ℕ) → i < count self.old → tree_at self.new i ≡ tree_at self.old i }
        ensures opens { opens self.new ≡ opens self.old }
        ensures ok { IfOk result (λ k.
            (k < count self.new) × (tree_at self.new k ≡ tree_of self.old.trees shape)) }
    {
        make(&mut self.fields.bank, alloc, shape)
    }

    /// The number of the formula at `f` with one loose variable for each occurrence of the term at `s`. The nodes that it needs come to
    /// the bank.
    pub fn pattern(&mut self, alloc: Global, s: u64, f: u64) -> Result<u64, Memory>
        requires term { s < count self.old }
        requires formula { f < count self.old }
        ensures more { count self.old ≤ count self.new }
        ensures same { (i : ℕ) → i < count self.old → tree_at self.new i ≡ tree_at self.old i }
        ensures opens { opens self.new ≡ opens self.old }
        ensures ok { IfOk result (λ k. (k < count self.new)
            × (tree_at self.new k ≡ abstracted (tree_at self.old s) 0 (tree_at self.old f))) }
    {
        pattern(&mut self.fields.bank, alloc, s, f)
    }

    /// The number of the tree at `body` with the tree at `t` for its one loose variable.
    pub fn inst(&mut self, alloc: Global, body: u64, t: u64) -> Result<u64, Memory>
        requires body { body < count self.old }
        requires below { t < count self.old }
        requires closed { IsScoped 0 (tree_at self.old t) }
        requires one { IsScoped 1 (tree_at self.old body) }
        ensures more { count self.old ≤ count self.new }
        ensures same { (i : ℕ) → i < count self.old → tree_at self.new i ≡ tree_at self.old i }
        ensures opens { opens self.new ≡ opens self.old }
        ensures ok { IfOk result (λ k. (k < count self.new)
            × (tree_at self.new k ≡ inst (tree_at self.old body) (tree_at self.old t))) }
    {
        self.fields.bank.inst(alloc, body, t)
    }

    /// The proof of the last step.
    pub fn finish(self, alloc: Global) -> Result<SeqProof, Memory>
        requires { IsLast self }
        ensures proof { IfOk result (λ p. proof_of p ≡ first_of (opens self)) }
        ensures table { IfOk result (λ p. table_of p ≡ self.trees) }
    {
        let nodes = table(alloc, &self.fields.bank)?;
        Ok(SeqProof::of(nodes, self.fields.steps))
    }
}
