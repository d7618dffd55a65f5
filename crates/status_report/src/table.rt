//! What is reported.

use core_expr::Text;
use sqlite_items::Items;
use tla_ast::Place;

/// What a leaf comes to, as a report shows it.
#[derive(Debug, Drop)]
pub enum Shown {
    /// The search found a proof, after this many turns.
    Proved(u64),
    /// It was found proved before.
    Cached,
    /// The search ended without a proof, after this many turns; with the text of a valuation that falsifies, where there is one.
    Saturated(u64, Option<Text>),
    /// The turns were used up.
    Spent(u64),
    /// Memory was not found.
    Memory,
    /// A formula of its obligation is temporal.
    Temporal,
    /// The goal has not the form that the step asks for.
    Shape,
    /// The proof is omitted.
    Omitted,
    /// The proof is missing.
    Missing,
}

/// A leaf of a theorem's proof.
#[derive(Debug, Drop)]
pub struct LeafIn {
    pub place: Place,
    pub verdict: Shown,
}

/// A theorem, with what its leaves come to.
#[derive(Debug, Drop)]
pub struct TheoremIn {
    /// The number that stands for it.
    pub key: u64,
    pub name: Option<Text>,
    pub place: Place,
    /// The keys of the theorems that its proof cites, in the order of the text.
    pub cited: Items<u64>,
    pub leaves: Items<LeafIn>,
}

/// A module, with its theorems in order.
#[derive(Debug, Drop)]
pub struct ModuleIn {
    pub name: Text,
    pub theorems: Items<TheoremIn>,
}

/// How a report is written.
#[derive(Clone, Copy, Debug, PartialEq, Eq)]
pub enum Style {
    /// All lines.
    Plain,
    /// One compact JSON object (RFC 8259) and a line feed.
    Json,
    /// The last line alone.
    Brief,
    /// An object of the counts alone.
    BriefJson,
}

/// A report that is ready to be written.
#[derive(Debug, Drop)]
pub struct Report {
    pub text: Vec<u8>,
    /// How many theorems there are.
    pub theorems: usize,
    /// How many of them are proved.
    pub proved: usize,
    /// Whether some leaf wanted memory.
    pub memory_leaf: bool,
}
