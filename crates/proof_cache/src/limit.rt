//! The limit of a search.
use std::marker::Model;

/// A number of turns from 1 to 1000000, which contracts see as that number.
#[derive(Clone, Copy, Debug)]
pub struct Limit {
    turns: u64,
}

impl Model for Limit {
    ghost use Rattle.std.specs.Prelude.{ℕ, ◌≤◌};
    ghost use Rattle.std.specs.Coded.{coded_ℕ};

    ghost Value = { ℕ };

    ghost coded = { coded_ℕ };

    ghost view = { λ l. l.turns };

    ghost inverse = { λ n. record { turns = n } };

    ghost invariant = { λ l. (1 ≤ l.turns) × (l.turns ≤ 1000000) };
}

impl Limit {
    ghost use Rattle.std.specs.Prelude.{◌≡◌, ◌≤◌, ◌<◌, ◌⊎◌, IfSome, IfNone};

    /// The limit of so many turns: None exactly where they are none or more than 1000000.
    pub fn new(turns: u64) -> Option<Limit>
        ensures some { IfSome result (λ l. (l ≡ turns) × (1 ≤ turns) × (turns ≤ 1000000)) }
        ensures none { IfNone result ((turns ≡ 0) ⊎ (1000000 < turns)) }
    {
        if turns == 0 || turns > 1000000 {
            return None;
        }
        Some(Limit { turns })
    }

    /// The limit where none is asked for: 100000 turns.
    pub fn standard() -> Limit
        ensures { result ≡ 100000 }
    {
        Limit { turns: 100000 }
    }

    /// How many turns it is.
    pub fn turns(self) -> u64
        ensures turns { result ≡ self }
        ensures within { (1 ≤ result) × (result ≤ 1000000) }
    {
        self.turns
    }
}
