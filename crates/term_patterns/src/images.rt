//! Images of nodes at depths.
ghost use Rattle.std.specs.Prelude.{◌≡◌, [], OnOk};

use crate::spots::Spot;
use core_expr::Memory;
use indexmap::IndexMap;
use std::alloc::Global;
use std::marker::Model;

/// The images of nodes at depths. Contracts see them in the order in which they were kept. A call takes near constant time.
#[derive(Drop)]
pub struct Images {
    numbers: IndexMap<(u64, u64), u64>,
}

impl Model for Images {
    ghost use Rattle.std.specs.Prelude.{List, ℕ, map};
    ghost use Rattle.term_patterns.specs.declared.spots.Spot.{Spot};
    ghost use Rattle.term_patterns.specs.Depths.{placed};

    ghost Value = { List (Spot × ℕ) };

    ghost view = { λ s. map placed s.numbers.entries };
}

impl Images {
    ghost use Rattle.term_patterns.specs.Depths.{image_at, kept};

    /// None.
    pub fn new(alloc: Global) -> Images
        ensures { result ≡ [] }
    {
        Images {
            numbers: IndexMap::new(alloc),
        }
    }

    /// Keeps an image, where none is kept.
    pub fn keep(&mut self, spot: Spot, image: u64) -> Result<(), Memory>
        ensures { OnOk result (self.new ≡ kept spot image self.old) }
    {
        let key = (spot.node, spot.depth);
        if !self.numbers.contains_key(&key) {
            self.numbers.insert(key, image)?;
        }
        Ok(())
    }

    /// The image that is kept.
    pub fn at(&self, spot: Spot) -> Option<u64>
        ensures { result ≡ image_at self.now spot }
    {
        self.numbers.get(&(spot.node, spot.depth)).copied()
    }
}
