//! An expression as its nodes, and what is read of it.
ghost use Rattle.std.specs.Prelude.{◌≡◌, ◌↔◌, ◌<◌, ◌++◌, length, slice_index_or, IsTrue, IfOk};
ghost use Rattle.core_expr.specs.Tree.{true_};
ghost use Rattle.core_expr.specs.Heads.{IsWellFormed, fits, kind_fits, make, make_kind, parts_of, front, back, are_well_formed, subtrees, kind_number, kind_symbol, HasBody};
ghost use Rattle.core_expr.specs.Flat.{rows_of, rows_at, tree_of, row_at};
ghost use Rattle.core_expr.specs.Spans.{spans_of, spans_in, rows_in, rows_under};
ghost use Rattle.core_expr.specs.Places.{subtree, kind_of, root_numbers, part_index, RootAt};
ghost use Rattle.core_expr.specs.Put.{shift, inst, IsScoped};

use crate::forest::Forest;
use crate::head::Sym;
use crate::kinds::{kind_for, kind_number, kind_symbol};
use crate::lifting::lift;
use crate::memory::Memory;
use crate::row::{Row, RowKind};
use crate::rows::{are_rows_scoped, copy_rows, replace_all, same_rows};
use crate::spans::{back_over, spans_of};
use sqlite_items::Items;
use std::alloc::Global;
use std::marker::Model;

/// An expression, kept as its nodes in order of completion from left to right, one for each occurrence, the root last.
/// Contracts see it as its tree.
#[derive(Debug, Drop)]
pub struct Expr {
    rows: Items<Row>,
    spans: Items<u64>,
}

impl Model for Expr {
    ghost use Rattle.std.specs.Prelude.{◌≡◌, IsTrue};
    ghost use Rattle.std.proofs.Common.{sym};
    ghost use Rattle.core_expr.specs.Tree.{Tree};
    ghost use Rattle.core_expr.specs.Heads.{IsWellFormed};
    ghost use Rattle.core_expr.specs.Flat.{rows_of, tree_of};
    ghost use Rattle.core_expr.specs.Spans.{spans_of};
    ghost use Rattle.core_expr.specs.Coding.{tree_code};

    ghost Value = { Tree };

    ghost coded = { tree_code };

    ghost view = { λ e. tree_of e.rows };

    ghost invariant = { λ e. (rows_of (tree_of e.rows) ≡ e.rows) × IsWellFormed (tree_of e.rows)
        × (e.spans ≡ spans_of (tree_of e.rows)) };

    ghost inverse = { λ t. record { rows = rows_of t; spans = spans_of t } };

    ghost inverse_ok = { λ a h i. record { rows = h.0 i; spans = sym h.2 i } };
}

/// The nodes of the parts, one after another.
fn joined(alloc: Global, parts: Vec<Expr>) -> Result<Forest, Memory>
    ensures rows { IfOk result (λ f. f.rows ≡ rows_in parts.items) }
    ensures spans { IfOk result (λ f. f.spans ≡ spans_in parts.items) }
    ensures formed { IfOk result (λ _. IsTrue (are_well_formed (parts_of parts.items))) }
{
    let mut forest = Forest::new(alloc);
    for part in parts {
        forest = forest.with(part.into_forest())?;
    }
    Ok(forest)
}

/// The nodes of the parts, one after another, the last under one binder.
fn joined_under(alloc: Global, parts: Vec<Expr>) -> Result<Forest, Memory>
    requires { 0 < length parts.items }
    ensures rows { IfOk result (λ f.
        f.rows ≡ rows_in (front parts.items) ++ rows_at 1 (back parts.items)) }
    ensures spans { IfOk result (λ f. f.spans ≡ spans_in parts.items) }
    ensures formed { IfOk result (λ _. IsTrue (are_well_formed (parts_of parts.items))) }
{
    let mut parts = parts;
    let body = parts.pop().unwrap();
    let forest = joined(alloc, parts)?;
    forest.with_body(alloc, body.into_forest())
}

/// The nodes of the parts under a node of this kind.
fn children(alloc: Global, kind: RowKind, parts: Vec<Expr>) -> Result<Forest, Memory>
    requires { HasBody kind (length parts.items) }
    ensures rows { IfOk result (λ f. f.rows ≡ rows_under kind parts.items) }
    ensures spans { IfOk result (λ f. f.spans ≡ spans_in parts.items) }
    ensures formed { IfOk result (λ _. IsTrue (are_well_formed (parts_of parts.items))) }
{
    match kind {
        RowKind::Binding(_) => joined_under(alloc, parts),
        _ => joined(alloc, parts),
    }
}

impl Expr {
    /// The node of this kind with these numbers and parts. Its cost is that of the nodes of all parts but the first, and
    /// of a binder's body.
    pub(crate) fn of_kind(
        alloc: Global,
        kind: RowKind,
        numbers: Items<u64>,
        parts: Vec<Expr>,
    ) -> Result<Expr, Memory>
        requires { IsTrue (kind_fits kind numbers (length parts.items)) }
        ensures { IfOk result (λ e. e ≡ make_kind kind numbers parts.items) }
    {
        let count = parts.len() as u64;
        let Forest {
            mut rows,
            mut spans,
        } = children(alloc, kind, parts)?;
        rows.push(Row {
            kind,
            numbers,
            parts: count,
            depth: 0,
        })?;
        spans.push(rows.len() as u64)?;
        Ok(Expr { rows, spans })
    }

    /// The node with this head number of the table of heads, this symbol, these numbers and these parts: for the flat
    /// lists, which name heads by their numbers.
    pub fn build(
        alloc: Global,
        head: u64,
        sym: Option<Sym>,
        numbers: &[u64],
        parts: Vec<Expr>,
    ) -> Result<Expr, Memory>
        requires { IsTrue (fits head sym numbers.now (length parts.items)) }
        ensures { IfOk result (λ e. e ≡ make head sym numbers.now parts.items) }
    {
        let numbers = Items::from_slice(alloc, numbers)?;
        Expr::of_kind(alloc, kind_for(head, sym), numbers, parts)
    }

    /// The expression of these nodes.
    pub(crate) fn of_rows(alloc: Global, rows: Items<Row>) -> Result<Expr, Memory>
        requires whole { rows_of (tree_of rows) ≡ rows }
        requires formed { IsWellFormed (tree_of rows) }
        ensures { IfOk result (λ e. e ≡ tree_of rows) }
    {
        let spans = spans_of(alloc, rows.as_slice())?;
        Ok(Expr { rows, spans })
    }

    /// The nodes and their spans.
    fn into_forest(self) -> Forest
        ensures rows { result.rows ≡ rows_of self }
        ensures spans { result.spans ≡ spans_of self }
        ensures formed { IsWellFormed self }
    {
        let Expr { rows, spans } = self;
        Forest { rows, spans }
    }

    /// The node `i`.
    fn row(&self, i: u64) -> &Row
        requires { i < length (rows_of self.now) }
        ensures row { result.now ≡ row_at self.now i }
        ensures root { RootAt self.now i }
    {
        &self.rows.as_slice()[i as usize]
    }

    /// The nodes.
    pub(crate) fn rows(&self) -> &[Row]
        ensures { result.now ≡ rows_of self.now }
    {
        self.rows.as_slice()
    }

    /// The number of nodes.
    pub fn length(&self) -> u64
        ensures value { result ≡ length (rows_of self.now) }
        ensures formed { IsWellFormed self.now }
    {
        self.rows.len() as u64
    }

    /// What the node `i` is.
    pub fn kind(&self, i: u64) -> RowKind
        requires { i < length (rows_of self.now) }
        ensures row { result ≡ (row_at self.now i).kind }
        ensures tree { result ≡ kind_of (subtree self.now i) }
    {
        self.row(i).kind
    }

    /// The head number of the node `i`.
    pub fn head(&self, i: u64) -> u64
        requires { i < length (rows_of self.now) }
        ensures row { result ≡ kind_number (row_at self.now i).kind }
        ensures tree { result ≡ kind_number (kind_of (subtree self.now i)) }
    {
        kind_number(self.kind(i))
    }

    /// The symbol of the node `i`: None exactly where its head number is not 6.
    pub fn sym(&self, i: u64) -> Option<Sym>
        requires { i < length (rows_of self.now) }
        ensures row { result ≡ kind_symbol (row_at self.now i).kind }
        ensures tree { result ≡ kind_symbol (kind_of (subtree self.now i)) }
    {
        kind_symbol(self.kind(i))
    }

    /// The numbers of the node `i`, as `build` takes them.
    pub fn numbers(&self, i: u64) -> &[u64]
        requires { i < length (rows_of self.now) }
        ensures row { result.now ≡ (row_at self.now i).numbers }
        ensures tree { result.now ≡ root_numbers (subtree self.now i) }
    {
        self.row(i).numbers.as_slice()
    }

    /// How many parts the node `i` has.
    pub fn parts(&self, i: u64) -> u64
        requires { i < length (rows_of self.now) }
        ensures row { result ≡ (row_at self.now i).parts }
        ensures tree { result ≡ length (subtrees (subtree self.now i)) }
    {
        self.row(i).parts
    }

    /// The place of the part `k` of the node `i`, from 0. Its cost is that of stepping over the later parts.
    pub fn part(&self, i: u64, k: u64) -> u64
        requires node { i < length (rows_of self.now) }
        requires part { k < (row_at self.now i).parts }
        ensures value { result ≡ part_index self.now i k }
        ensures before { result < i }
        ensures tree { subtree self.now result
            ≡ slice_index_or (subtrees (subtree self.now i)) k true_ }
    {
        let after = self.parts(i) - 1 - k;
        let end = back_over(self.spans.as_slice(), after, i as usize);
        end as u64 - 1
    }

    /// Whether the two are equal.
    pub fn same(&self, other: &Expr) -> bool
        ensures { IsTrue result ↔ (self.now ≡ other.now) }
    {
        same_rows(self.rows.as_slice(), other.rows.as_slice())
    }

    /// An equal expression.
    pub fn copy(&self, alloc: Global) -> Result<Expr, Memory>
        ensures { IfOk result (λ e. e ≡ self.now) }
    {
        let rows = copy_rows(alloc, self.rows.as_slice())?;
        let spans = Items::from_slice(alloc, self.spans.as_slice())?;
        Ok(Expr { rows, spans })
    }

    /// The expression with `t` for its one loose variable.
    pub fn inst(&self, alloc: Global, t: &Expr) -> Result<Expr, Memory>
        requires closed { IsScoped 0 t.now }
        requires one { IsScoped 1 self.now }
        ensures { IfOk result (λ e. e ≡ inst self.now t.now) }
    {
        let rows = replace_all(alloc, self.rows.as_slice(), t.rows.as_slice())?;
        Expr::of_rows(alloc, rows)
    }

    /// The expression with the index of each loose variable up by `by`.
    pub fn lift(&self, alloc: Global, by: u64) -> Result<Expr, Memory>
        ensures { IfOk result (λ e. e ≡ shift 0 by self.now) }
    {
        let _ = self.length();
        let mut rows = Vec::new(alloc);
        lift(alloc, &mut rows, self.rows(), 0, by, 0)?;
        Expr::of_rows(alloc, Items::from_vec(rows))
    }

    /// Whether no loose variable has an index from `n` on.
    pub fn is_scoped(&self, n: u64) -> bool
        ensures { IsTrue result ↔ IsScoped n self.now }
    {
        are_rows_scoped(self.rows.as_slice(), n)
    }

    /// Whether there is no loose variable.
    pub fn is_closed(&self) -> bool
        ensures { IsTrue result ↔ IsScoped 0 self.now }
    {
        self.is_scoped(0)
    }
}
