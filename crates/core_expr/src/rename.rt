//! Substitutes expressions for symbols, on the nodes of an expression.
ghost use Rattle.std.specs.Prelude.{◌≡◌, ◌<◌, ◌∷◌, ◌++◌, Some, None, IfOk, OnOk, MatchOption, length, drop, [], true};
ghost use Rattle.core_expr.specs.Heads.{is_empty, is_only};
ghost use Rattle.core_expr.specs.Flat.{row};
ghost use Rattle.core_expr.specs.Put.{sub};
ghost use Rattle.core_expr.specs.Index.{named_at, Indexes};
ghost use Rattle.core_expr.specs.Rename.{named, all_formed, body_for, lifted, begin, between, argument_rows, filled_row, filled, is_variable, root_symbol, applied_symbol, put_nodes, next_nodes, next_starts, renamed};

use crate::expr::Expr;
use crate::head::{Head, Sym};
use crate::lifting::lift;
use crate::memory::Memory;
use crate::row::{Row, RowKind};
use crate::rows::{copy_row, first_number, is_loose};
use sqlite_items::Items;
use std::alloc::Global;
use std::collections::HashMap;

/// Where the last `count` completed subtrees begin, `end` where there are none.
fn begin(starts: &[usize], count: u64, end: usize) -> usize
    ensures { result ≡ begin count starts.now end }
{
    match starts.get(starts.len().saturating_sub(count as usize)) {
        Some(start) => *start,
        None => end,
    }
}

/// The nodes from one place to another.
fn between(rows: &[Row], from: usize, to: usize) -> &[Row]
    ensures { result.now ≡ between from to rows.now }
{
    let rest = &rows[from.min(rows.len())..];
    &rest[..to.saturating_sub(from).min(rest.len())]
}

/// Puts the nodes of the argument for the variable `index` of the node `row`, under `by` more binders, at the end of
/// `out`: the last argument is for 0. Past the first argument stands TRUE.
fn put_argument(
    alloc: Global,
    out: &mut Vec<Row>,
    rows: &[Row],
    starts: &[usize],
    row: &Row,
    index: u64,
    by: u64,
) -> Result<(), Memory>
    ensures { OnOk result (out.new.items ≡ out.old.items
        ++ lifted by by row.now.depth (argument_rows rows.now starts.now row.now index)) }
{
    if index < row.parts {
        let from = begin(starts, index + 1, rows.len());
        let to = begin(starts, index, rows.len());
        return lift(alloc, out, between(rows, from, to), by, by, row.depth);
    }
    let Some(deeper) = row.depth.checked_add(by) else {
        return Err(Memory);
    };
    out.push(Row {
        kind: RowKind::Plain(Head::True),
        numbers: Items::new(alloc),
        parts: 0,
        depth: deeper,
    })?;
    Ok(())
}

/// Puts the node `node` of what is put for the node `row` at the end of `out`, or an argument where it is a loose
/// variable.
fn fill_one(
    alloc: Global,
    out: &mut Vec<Row>,
    rows: &[Row],
    starts: &[usize],
    row: &Row,
    node: &Row,
) -> Result<(), Memory>
    ensures { OnOk result (out.new.items ≡ out.old.items
        ++ filled_row rows.now starts.now row.now node.now) }
{
    if is_loose(node) {
        let index = first_number(node.numbers.as_slice()).saturating_sub(node.depth);
        return put_argument(alloc, out, rows, starts, row, index, node.depth);
    }
    let Some(deeper) = node.depth.checked_add(row.depth) else {
        return Err(Memory);
    };
    out.push(copy_row(alloc, node, deeper)?)?;
    Ok(())
}

/// The nodes of what is put for the node `row`, with the arguments for the loose variables.
fn fill(
    alloc: Global,
    rows: &[Row],
    starts: &[usize],
    row: &Row,
    body: &[Row],
) -> Result<Vec<Row>, Memory>
    ensures { IfOk result (λ v. v.items ≡ filled rows.now starts.now row.now body.now) }
{
    let mut out = Vec::new(alloc);
    for node in body {
        fill_one(alloc, &mut out, rows, starts, row, node)?;
    }
    Ok(out)
}

/// Whether the numbers are this one alone.
fn is_only(number: u64, numbers: &[u64]) -> bool
    ensures { result ≡ is_only number numbers.now }
{
    numbers.len() == 1 && numbers[0] == number
}

/// Whether the node is this bound variable, under no binder.
fn is_variable(index: u64, row: &Row) -> bool
    ensures { result ≡ is_variable index row.now.kind row.now }
{
    match row.kind {
        RowKind::Bound => {
            is_only(index, row.numbers.as_slice()) && (row.parts == 0 && row.depth == 0)
        }
        _ => false,
    }
}

/// The symbol of a node with so many parts under no binder.
fn root_symbol(parts: u64, row: &Row) -> Option<Sym>
    ensures { result ≡ root_symbol parts row.now.kind row.now }
{
    match row.kind {
        RowKind::Symbol(sym) => {
            if row.numbers.is_empty() && (row.parts == parts && row.depth == 0) {
                Some(sym)
            } else {
                None
            }
        }
        _ => None,
    }
}

/// The symbol of the node at the place, if it is the last.
fn last_symbol(rows: &[Row], at: usize, parts: u64) -> Option<Sym>
    requires { at < length rows.now }
    ensures { result ≡ applied_symbol parts 0 (drop at rows.now) }
{
    if at + 1 == rows.len() {
        root_symbol(parts, &rows[at])
    } else {
        None
    }
}

/// The symbol of nodes that are a symbol applied to `parts` variables in order.
fn applied_symbol(rows: &[Row], parts: u64) -> Option<Sym>
    ensures { result ≡ applied_symbol parts parts rows.now }
{
    let mut left = parts;
    for at in 0..rows.len() {
        if left == 0 {
            return last_symbol(rows, at, parts);
        }
        left -= 1;
        if !is_variable(left, &rows[at]) {
            return None;
        }
    }
    None
}

/// Puts the nodes of `body`, with the arguments for the loose variables, for the node `row`, whose parts are completed.
fn put_body(
    alloc: Global,
    out: &mut Vec<Row>,
    starts: &[usize],
    row: &Row,
    body: &[Row],
) -> Result<(), Memory>
    ensures { OnOk result (out.new.items ≡ put_nodes body.now row.now out.old.items starts.now) }
{
    if let Some(sym) = applied_symbol(body, row.parts) {
        let numbers = Items::new(alloc);
        let applied = Row {
            kind: RowKind::Symbol(sym),
            numbers,
            parts: row.parts,
            depth: row.depth,
        };
        out.push(applied)?;
        return Ok(());
    }
    let mut filled = fill(alloc, out.as_slice(), starts, row, body)?;
    out.truncate(begin(starts, row.parts, out.len()));
    out.append(&mut filled)?;
    Ok(())
}

/// For each symbol the place of its first pair.
fn index(alloc: Global, by: &[(Sym, Expr)]) -> Result<HashMap<Sym, usize>, Memory>
    ensures { IfOk result (λ m. Indexes by.now by.now m) }
{
    let mut places = HashMap::new(alloc);
    for done in 0..by.len() {
        let at = by.len() - 1 - done;
        match places.insert(by[at].0, at) {
            Ok(_) => {}
            Err(_) => return Err(Memory),
        }
    }
    Ok(places)
}

/// The expression of the pair at the place.
fn nth(by: &[(Sym, Expr)], at: usize) -> Option<&Expr>
    ensures { MatchOption result (named_at by.now (Some at) ≡ None) (λ e.
        named_at by.now (Some at) ≡ Some e.now) }
{
    match by.get(at) {
        Some(pair) => Some(&pair.1),
        None => None,
    }
}

/// What is put for a symbol: the expression of the first pair with it.
fn find<'a>(by: &'a [(Sym, Expr)], places: &HashMap<Sym, usize>, sym: Sym) -> Option<&'a Expr>
    requires { Indexes by.now by.now places.now }
    ensures { MatchOption result (named by.now sym ≡ None) (λ e. named by.now sym ≡ Some e.now) }
{
    match places.get(&sym) {
        Some(at) => nth(by, *at),
        None => None,
    }
}

/// What is put for a node of this kind.
fn body_for<'a>(
    by: &'a [(Sym, Expr)],
    places: &HashMap<Sym, usize>,
    kind: RowKind,
) -> Option<&'a Expr>
    requires { Indexes by.now by.now places.now }
    ensures { MatchOption result (body_for (named by.now) kind ≡ None) (λ e.
        body_for (named by.now) kind ≡ Some e.now) }
{
    match kind {
        RowKind::Symbol(sym) => find(by, places, sym),
        _ => None,
    }
}

/// Completes the node `row`: puts it at the end of `out`, or what its symbol is renamed to for it and its parts.
fn complete(
    alloc: Global,
    out: &mut Vec<Row>,
    starts: &[usize],
    row: &Row,
    by: &[(Sym, Expr)],
    places: &HashMap<Sym, usize>,
) -> Result<(), Memory>
    requires { Indexes by.now by.now places.now }
    ensures { OnOk result (out.new.items ≡ next_nodes (named by.now) row.now out.old.items starts.now) }
{
    match body_for(by, places, row.kind) {
        Some(body) => put_body(alloc, out, starts, row, body.rows()),
        None => {
            out.push(copy_row(alloc, row, row.depth)?)?;
            Ok(())
        }
    }
}

/// Puts where the subtree of the node `row` begins for where its parts begin.
fn restart(starts: &mut Vec<usize>, row: &Row, end: usize) -> Result<(), Memory>
    ensures { OnOk result (starts.new.items ≡ next_starts row.now starts.old.items end) }
{
    let start = begin(starts.as_slice(), row.parts, end);
    starts.truncate(starts.len().saturating_sub(row.parts as usize));
    starts.push(start)?;
    Ok(())
}

/// The nodes once each symbol is replaced.
fn rename_rows(alloc: Global, rows: &[Row], by: &[(Sym, Expr)]) -> Result<Vec<Row>, Memory>
    ensures { IfOk result (λ v. v.items ≡ renamed (named by.now) rows.now [] []) }
{
    let places = index(alloc, by)?;
    let mut out = Vec::new(alloc);
    let mut starts = Vec::new(alloc);
    for row in rows {
        let end = out.len();
        complete(alloc, &mut out, starts.as_slice(), row, by, &places)?;
        restart(&mut starts, row, end)?;
    }
    Ok(out)
}

/// Learns that each expression is well formed.
fn all_formed(by: &[(Sym, Expr)])
    ensures { all_formed by.now ≡ true }
{
    for pair in by {
        let _ = pair.1.length();
    }
}

impl Expr {
    /// The expression with the expression of each pair for its symbol: the arguments of the symbol stand for the loose
    /// variables of that expression, the last for 0. What is put is not renamed again. Of two pairs with one symbol the
    /// first counts.
    pub fn rename(&self, alloc: Global, by: &[(Sym, Expr)]) -> Result<Expr, Memory>
        ensures { IfOk result (λ e. e ≡ sub (named by.now) self.now) }
    {
        all_formed(by);
        let _ = self.length();
        let rows = rename_rows(alloc, self.rows(), by)?;
        Expr::of_rows(alloc, Items::from_vec(rows))
    }
}
