//! What the step names of a proof mean.

ghost use Rattle.std.specs.Prelude.{◌≡◌};
ghost use Rattle.symbol_table.specs.Symbols.{symbol_at};

use std::marker::Model;
use symbol_table::Symbols;
use tla_ast::Place;

/// The step that each cited step name of a theorem's proof means, by the place of the name.
#[derive(Drop)]
pub struct Outline {
    cites: Symbols,
}

impl Model for Outline {
    ghost use Rattle.std.specs.Prelude.{List, ℕ};
    ghost use Rattle.tla_ast.specs.declared.place.Place.{Place};

    ghost Value = { List (Place × ℕ) };

    ghost view = { λ o. o.cites };
}

impl Outline {
    /// The meanings of these cited names.
    pub(crate) fn new(cites: Symbols) -> Outline
        ensures { result ≡ cites }
    {
        Outline { cites }
    }

    /// The number of the step that the step name at a place means, where steps are numbered from 0 in the order of the text. None
    /// exactly where no step name stands there.
    pub fn cite(&self, place: Place) -> Option<u64>
        ensures { result ≡ symbol_at self.now place }
    {
        self.cites.at(place)
    }
}
