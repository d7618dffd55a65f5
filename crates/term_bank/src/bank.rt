ghost use Rattle.std.specs.Prelude.{◌≡◌, ◌↔◌, ◌<◌, ◌≤◌, [], ℕ, length, IfOk, IfSome, IfNone, IsNone, IsTrue};
ghost use Rattle.core_expr.specs.Put.{inst, IsScoped};
ghost use Rattle.core_expr.specs.Nodes.{node_fits, node_make};
ghost use Rattle.core_expr.specs.Nodes.{AreBelow, picked};
ghost use Rattle.term_bank.specs.Banks.{IsDistinct, Extends, HasNode, HasTree, tree_at, node_over};
ghost use Rattle.core_expr.specs.Heads.{IsCanonical};
ghost use Rattle.term_bank.specs.Slots.{node_of, reach_count};
ghost use Rattle.core_expr.specs.Loose.{loose};

use crate::find::find;
use crate::grow::{add, make_room};
use crate::inst::inst;
use crate::intern::intern;
use crate::node::{BankNode, Slot, hash};
use crate::reach::Reach;
use core_expr::{Expr, Memory};
use std::alloc::Global;
use std::marker::Model;

/// Nodes that are kept once. A contract sees the tree of each index.
#[derive(Drop)]
pub struct Bank {
    slots: Vec<Slot>,
    buckets: Vec<u64>,
}

impl Model for Bank {
    ghost use Rattle.std.specs.Prelude.{List};
    ghost use Rattle.std.specs.Coded.{coded_list};
    ghost use Rattle.core_expr.specs.Tree.{Tree};
    ghost use Rattle.core_expr.specs.Coding.{tree_code};
    ghost use Rattle.term_bank.specs.Slots.{trees, IsHeld};

    ghost Value = { List Tree };

    ghost coded = { coded_list tree_code };

    ghost view = { λ b. trees b.slots.items };

    ghost invariant = { λ b. IsHeld b.slots.items b.buckets.items };
}

impl Bank {
    /// A bank without nodes.
    pub fn new(alloc: Global) -> Result<Bank, Memory>
        ensures { IfOk result (λ b. b ≡ []) }
    {
        let buckets: Vec<u64> = vec![in alloc; 0; 1]?;
        Ok(Bank {
            slots: Vec::new(alloc),
            buckets,
        })
    }

    /// Equal trees have one index.
    pub(crate) fn distinct(&self)
        ensures { IsDistinct self.now }
    {
        let _ = &self.slots;
    }

    /// The number of nodes.
    pub fn count(&self) -> u64
        ensures count { result ≡ length self.now }
        ensures distinct { IsDistinct self.now }
    {
        self.slots.len() as u64
    }

    /// The node at an index: None exactly past the last. Its parts have smaller indices.
    pub fn node(&self, i: u64) -> Option<&BankNode>
        ensures none { IsNone result ↔ (length self.entry.now ≤ i) }
        ensures some { IfSome result (λ n. HasNode self.entry.now i (node_of n.now)) }
        ensures below { IfSome result (λ n. AreBelow i n.now.parts.items) }
    {
        match self.slots.get(i as usize) {
            Some(slot) => Some(&slot.node),
            None => None,
        }
    }

    /// The index of the node with this head, these numbers and these parts: None exactly where no node has them. Takes no memory.
    pub fn seek(&self, head: u64, numbers: &[u64], parts: &[u64]) -> Option<u64>
        ensures some { IfSome result (λ i.
            HasNode self.now i (node_over head numbers.now parts.now)) }
        ensures none { IfNone result ((i : ℕ)
            → HasNode self.now i (node_over head numbers.now parts.now) → ⊥) }
    {
        find(
            &self.slots,
            &self.buckets,
            hash(head, numbers, parts),
            head,
            numbers,
            parts,
        )
    }

    /// The index of the node with this head number of the table of heads, these numbers (of a symbol's node its number and arity)
    /// and these parts. The node is new or was there.
    pub fn make(
        &mut self,
        alloc: Global,
        head: u64,
        numbers: &[u64],
        parts: &[u64],
    ) -> Result<u64, Memory>
        requires form { IsTrue (node_fits head numbers.now (length parts.now)) }
        requires below { AreBelow (length self.old) parts.now }
        ensures extends { Extends self.old self.new }
        ensures distinct { IsDistinct self.new }
        ensures ok { IfOk result (λ i.
            HasTree self.new i (node_make head numbers.now (picked self.old parts.now))) }
    {
        let hash = hash(head, numbers, parts);
        if let Some(i) = find(&self.slots, &self.buckets, hash, head, numbers, parts) {
            return Ok(i);
        }
        make_room(alloc, &mut self.slots, &mut self.buckets)?;
        add(
            alloc,
            &mut self.slots,
            &mut self.buckets,
            hash,
            head,
            numbers,
            parts,
        )
    }

    /// The index of an expression whose symbols are those of a canonical form.
    pub fn intern(&mut self, alloc: Global, e: &Expr) -> Result<u64, Memory>
        requires canonical { IsCanonical e.now }
        ensures extends { Extends self.old self.new }
        ensures distinct { IsDistinct self.new }
        ensures ok { IfOk result (λ k. HasTree self.new k e.now) }
    {
        intern(self, alloc, e)
    }

    /// The index of the tree at `body` with the tree at `t` for its one loose variable.
    pub fn inst(&mut self, alloc: Global, body: u64, t: u64) -> Result<u64, Memory>
        requires body { body < length self.old }
        requires below { t < length self.old }
        requires closed { IsScoped 0 (tree_at self.old t) }
        requires one { IsScoped 1 (tree_at self.old body) }
        ensures extends { Extends self.old self.new }
        ensures distinct { IsDistinct self.new }
        ensures ok { IfOk result (λ k.
            HasTree self.new k (inst (tree_at self.old body) (tree_at self.old t))) }
    {
        inst(self, alloc, body, t)
    }

    /// How far the loose variables go.
    pub(crate) fn reach(&self, i: u64) -> Reach
        requires { i < length self.now }
        ensures { reach_count result ≡ loose (tree_at self.now i) }
    {
        self.slots[i as usize].reach
    }

    /// Whether no variable is loose.
    pub fn is_closed(&self, i: u64) -> bool
        requires { i < length self.now }
        ensures { IsTrue result ↔ IsScoped 0 (tree_at self.now i) }
    {
        self.reach(i).is_closed()
    }
}
