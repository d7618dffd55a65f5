//! What has a position.
ghost use Rattle.std.specs.Prelude.{◌≡◌};
ghost use Rattle.rank_memo.specs.Looked.{number_of};

/// What has a position: closings, and the ranks whose rule is that of the oldest entry that it fits.
#[derive(Clone, Copy, Debug, PartialEq, Eq)]
pub enum Place {
    Closing,
    Plain,
    Rewrite,
    Choice,
    Split,
    TermSplit,
    Extension,
    TakeUp,
}

impl Place {
    /// The number of its position, 0 to 7.
    pub fn number(self) -> usize
        ensures { result ≡ number_of self }
    {
        match self {
            Place::Closing => 0,
            Place::Plain => 1,
            Place::Rewrite => 2,
            Place::Choice => 3,
            Place::Split => 4,
            Place::TermSplit => 5,
            Place::Extension => 6,
            Place::TakeUp => 7,
        }
    }
}
