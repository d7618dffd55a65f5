//! What the leaves of a theorem come to together, and its status.

ghost use Rattle.std.specs.Prelude.{◌≡◌, nat_eq};
ghost use Rattle.indexmap.specs.IndexSet.{contains};
ghost use Rattle.proof_contexts.specs.Statuses as contexts;
ghost use Rattle.status_report.specs.Statuses.{leaf_verdicts, verdict_of};
ghost use Rattle.status_report.specs.Report.{word_of};
ghost use Rattle.status_report.specs.Telling.{verdict_in, status_of, by_first, worse};

use crate::table::{LeafIn, Shown};
use indexmap::IndexSet;

/// What leaves come to.
#[derive(Clone, Copy, Debug)]
pub enum Verdict {
    Temporal,
    Memory,
    Unproved,
    Missing,
    Omitted,
    Proved,
}

/// A status: what a leaf comes to, or conditional on the theorem with a key.
#[derive(Clone, Copy, Debug)]
pub enum Status {
    Leaf(Verdict),
    Conditional(u64),
}

impl Verdict {
    /// The place in the order of verdicts, in which the first that a leaf has counts.
    fn rank(self) -> u8
        ensures { result ≡ contexts.code (verdict_in self) }
    {
        match self {
            Verdict::Temporal => 0,
            Verdict::Memory => 1,
            Verdict::Unproved => 2,
            Verdict::Missing => 3,
            Verdict::Omitted => 4,
            Verdict::Proved => 5,
        }
    }

    /// The one of two verdicts that counts.
    fn worse(self, other: Verdict) -> Verdict
        ensures { verdict_in result ≡ worse (verdict_in self) (verdict_in other) }
    {
        if self.rank() <= other.rank() {
            self
        } else {
            other
        }
    }

    /// The word for it.
    pub fn word(self) -> &'static [u8]
        ensures { result.now ≡ word_of (verdict_in self) }
    {
        match self {
            Verdict::Temporal => b"temporal",
            Verdict::Memory => b"memory",
            Verdict::Unproved => b"unproved",
            Verdict::Missing => b"missing",
            Verdict::Omitted => b"omitted",
            Verdict::Proved => b"proved",
        }
    }
}

impl Status {
    /// Whether a theorem with this status is proved.
    pub fn is_proved(self) -> bool
        ensures { result ≡ contexts.is_proved (status_of self) }
    {
        matches!(self, Status::Leaf(Verdict::Proved))
    }
}

/// What a leaf counts as.
fn verdict_of(shown: &Shown) -> Verdict
    ensures { verdict_in result ≡ verdict_of shown.now }
{
    match shown {
        Shown::Proved(_) => Verdict::Proved,
        Shown::Cached => Verdict::Proved,
        Shown::Saturated(_, _) => Verdict::Unproved,
        Shown::Spent(_) => Verdict::Unproved,
        Shown::Memory => Verdict::Memory,
        Shown::Temporal => Verdict::Temporal,
        Shown::Shape => Verdict::Unproved,
        Shown::Omitted => Verdict::Omitted,
        Shown::Missing => Verdict::Missing,
    }
}

/// The first verdict, in the order of verdicts, that a leaf has; proved where there is no leaf.
fn worst(leaves: &[LeafIn]) -> Verdict
    ensures { verdict_in result ≡ contexts.worst (leaf_verdicts leaves.now) }
{
    let mut found = Verdict::Proved;
    for leaf in leaves {
        found = found.worse(verdict_of(&leaf.verdict));
    }
    found
}

/// The first of the keys that is not among the others.
fn first_left(keys: &[u64], done: &IndexSet<u64>) -> Option<u64>
    ensures { contexts.by_cited (contains nat_eq done.now) keys.now ≡ by_first result }
{
    for key in keys {
        if !done.contains(key) {
            return Some(*key);
        }
    }
    None
}

/// The status of a theorem with these leaves that cites these keys, where the theorems with the keys in `done` are proved.
pub fn status_from(leaves: &[LeafIn], cited: &[u64], done: &IndexSet<u64>) -> Status
    ensures { status_of result
        ≡ contexts.status (contains nat_eq done.now) cited.now (contexts.worst (leaf_verdicts leaves.now)) }
{
    let worst = worst(leaves);
    if !matches!(worst, Verdict::Proved) {
        return Status::Leaf(worst);
    }
    match first_left(cited, done) {
        None => Status::Leaf(Verdict::Proved),
        Some(key) => Status::Conditional(key),
    }
}
