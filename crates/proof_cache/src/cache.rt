//! The proofs that an earlier run kept.
ghost use Rattle.std.specs.Prelude.{◌≡◌, ◌<◌, ◌+◌, [], ◌∷◌, ◌++◌, List, length, min, slice_set, slice_index_or, vec_len, vec_capacity, if◌then◌else◌, OnOk};
ghost use Rattle.seq_calculus.specs.Lists.{Lists};
ghost use Rattle.proof_cache.specs.Records.{Record, Keeps, kept_for};

use core_expr::{Canon, Memory};
use indexmap::IndexSet;
use seq_calculus::SeqProof;
use sqlite_items::Items;
use std::alloc::{AllocError, Global};
use std::marker::Model;

/// For each different canonical form of the records the proofs of its records in order, and how many lines of the cache's file were no
/// record.
#[derive(Drop)]
pub struct Cache {
    canons: IndexSet<Canon>,
    proofs: Vec<Items<SeqProof>>,
    skipped: u64,
}

impl Model for Cache {
    ghost use Rattle.std.specs.Prelude.{◌≡◌, length};
    ghost use Rattle.proof_cache.specs.Records.{Kept, kept_code};

    ghost Value = { Kept };

    ghost coded = { kept_code };

    ghost view = { λ c. record { canons = c.canons.keys; proofs = c.proofs.items; skipped = c.skipped } };

    ghost invariant = { λ c. length c.canons.keys ≡ length c.proofs.items };
}

/// Makes a place behind the others where a canonical form is new. There is room for one.
fn widen(lists: &mut Vec<Items<SeqProof>>, alloc: Global, is_new: bool)
    requires { vec_len lists.old < vec_capacity lists.old }
    ensures { lists.new.items ≡ (if is_new then lists.old.items ++ [] ∷ [] else lists.old.items) }
{
    if is_new {
        lists.push_reserved(Items::new(alloc));
    }
}

/// Puts a proof behind those in this place.
fn put(lists: &mut Vec<Items<SeqProof>>, place: usize, proof: SeqProof) -> Result<(), AllocError>
    requires { place < length lists.old.items }
    ensures len { length lists.new.items ≡ length lists.old.items }
    ensures lists { OnOk result (lists.new.items
        ≡ slice_set lists.old.items place (slice_index_or lists.old.items place [] ++ proof ∷ [])) }
{
    lists[place].push(proof)
}

impl Cache {
    /// No record. It takes no memory.
    pub fn none(alloc: Global) -> Cache
        ensures keeps { Keeps result [] }
        ensures skipped { result.skipped ≡ 0 }
    {
        Cache {
            canons: IndexSet::new(alloc),
            proofs: Vec::new(alloc),
            skipped: 0,
        }
    }

    /// Keeps one more record. Where memory is wanted the cache may be another one. Expected time is linear in the form.
    pub fn keep(&mut self, canon: Canon, proof: SeqProof) -> Result<(), Memory>
        ensures keeps { OnOk result ((rs : List Record) → Keeps self.old rs
            → Keeps self.new (rs ++ record { canon = canon; proof = proof } ∷ [])) }
        ensures skipped { self.new.skipped ≡ self.old.skipped }
    {
        self.proofs.reserve(1)?;
        let alloc = *self.canons.allocator();
        let (place, is_new) = self.canons.insert_full(canon)?;
        widen(&mut self.proofs, alloc, is_new);
        put(&mut self.proofs, place, proof)?;
        Ok(())
    }

    /// Counts one more line that is no record.
    pub fn skip(&mut self)
        ensures keeps { (rs : List Record) → Keeps self.old rs → Keeps self.new rs }
        ensures skipped { self.new.skipped ≡ min (self.old.skipped + 1) 18446744073709551615 }
    {
        self.skipped = self.skipped.saturating_add(1);
    }

    /// How many lines were no record.
    pub fn skipped(&self) -> u64
        ensures { result ≡ self.now.skipped }
    {
        self.skipped
    }

    /// The proofs of the records of this canonical form, in order. Expected time is linear in the form.
    pub fn proofs(&self, canon: &Canon) -> &[SeqProof]
        ensures { result.now ≡ kept_for self.now canon.now }
    {
        match self.canons.get_index_of(canon) {
            Some(place) => self.proofs[place].as_slice(),
            None => &[],
        }
    }
}
