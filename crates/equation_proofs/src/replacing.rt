//! Replacing by an equation: the ranks rewrite and replace.
ghost use Rattle.std.specs.Prelude.{◌≡◌, ◌<◌, ◌≤◌, [], ◌∷◌, ℕ, length, OnOk, IfOk};
ghost use Rattle.core_expr.specs.Tree.{apply_, tuple_, num_};
ghost use Rattle.core_expr.specs.Heads.{subtrees, parts_of};
ghost use Rattle.term_bank.specs.Banks.{tree_at as bank_tree};
ghost use Rattle.search_definition.specs.Plain.{rewrite_of};
ghost use Rattle.proof_writer.specs.Written.{opens, count, tree_at};
ghost use Rattle.proof_writer.specs.Shapes.{first_of, rest_of};
ghost use Rattle.proof_trees.specs.Abstracted.{put_for, replace_by};
ghost use Rattle.proof_trees.specs.By.{rewritten_by};
ghost use Rattle.equation_proofs.specs.Rewritings.{IsRewriting, AreUnder, IsOther, equation_of};

use core_expr::Memory;
use proof_writer::{Inference, Writer};
use rule_proofs::{equal, mirror};
use sqlite_items::Items;
use std::alloc::Global;
use term_bank::Bank;
use term_shapes::{Shape, parts_at, shape_at};

/// s = t is on the left; the proof that is left has `f` there with t for s.
pub fn put_for(w: &mut Writer, alloc: Global, s: u64, t: u64, f: u64) -> Result<(), Memory>
    requires first { s < count w.old }
    requires second { t < count w.old }
    requires formula { f < count w.old }
    requires some { 1 ≤ length (opens w.old) }
    ensures more { count w.old ≤ count w.new }
    ensures same { (i : ℕ) → i < count w.old → tree_at w.new i ≡ tree_at w.old i }
    ensures ok { OnOk result (opens w.new
        ≡ put_for (tree_at w.old s) (tree_at w.old t) (tree_at w.old f) (first_of (opens w.old))
        ∷ rest_of (opens w.old)) }
{
    let pattern = w.pattern(alloc, s, f)?;
    w.infer(alloc, Inference::Replacement(pattern, s, t))
}

/// The equation `q` stands, which says s = t or t = s; the proof that is left has `f` with t for s.
pub fn replace(w: &mut Writer, alloc: Global, q: u64, s: u64, t: u64, f: u64) -> Result<(), Memory>
    requires equation { q < count w.old }
    requires first { s < count w.old }
    requires second { t < count w.old }
    requires formula { f < count w.old }
    requires some { 1 ≤ length (opens w.old) }
    ensures more { count w.old ≤ count w.new }
    ensures same { (i : ℕ) → i < count w.old → tree_at w.new i ≡ tree_at w.old i }
    ensures ok { OnOk result (opens w.new ≡ replace_by (tree_at w.old q) (tree_at w.old s)
        (tree_at w.old t) (tree_at w.old f) (first_of (opens w.old)) ∷ rest_of (opens w.old)) }
{
    let equation = w.make(alloc, Shape::Eq(s, t))?;
    let stands = equal(w.bank(), q, equation);
    put_for(w, alloc, s, t, f)?;
    if stands {
        return Ok(());
    }
    mirror(w, alloc, t, s)
}

/// The equation of a schema that rewrites a term: the schema's number, its z and the numbers of its parameters.
#[derive(Debug, Drop)]
pub struct Rewriting {
    pub schema: u64,
    pub z: u64,
    pub params: Items<u64>,
}

/// The equation of this schema with these parameters.
fn equation(alloc: Global, schema: u64, z: u64, params: &[u64]) -> Result<Option<Rewriting>, Memory>
    ensures { IfOk result (λ o. o ≡ equation_of schema z params.now) }
{
    Ok(Some(Rewriting {
        schema,
        z,
        params: Items::from_slice(alloc, params)?,
    }))
}

/// The equation of the entry k of the tuple at `g`, which is counted from 1.
fn entry(bank: &Bank, alloc: Global, t: u64, g: u64, k: u64) -> Result<Option<Rewriting>, Memory>
    requires term { t < length bank.now }
    requires tuple { g < length bank.now }
    requires is { bank_tree bank.now t
        ≡ apply_ (tuple_ (parts_of (subtrees (bank_tree bank.now g)))) (num_ 0 k) }
    ensures is { IfOk result (λ o. IsRewriting bank.now o (rewrite_of (bank_tree bank.now t))) }
    ensures under { IfOk result (λ o. AreUnder (length bank.now) o) }
{
    let parts = parts_at(bank, g);
    if k == 0 {
        return Ok(None);
    }
    if (parts.len() as u64) < k {
        return Ok(None);
    }
    equation(alloc, 21, k, parts)
}

/// The equation of the tuple at `g` at the term `n`.
fn entry_at(bank: &Bank, alloc: Global, t: u64, g: u64, n: u64) -> Result<Option<Rewriting>, Memory>
    requires term { t < length bank.now }
    requires tuple { g < length bank.now }
    requires argument { n < length bank.now }
    requires is { bank_tree bank.now t
        ≡ apply_ (tuple_ (parts_of (subtrees (bank_tree bank.now g)))) (bank_tree bank.now n) }
    ensures is { IfOk result (λ o. IsRewriting bank.now o (rewrite_of (bank_tree bank.now t))) }
    ensures under { IfOk result (λ o. AreUnder (length bank.now) o) }
{
    match shape_at(bank, n) {
        Shape::Num(0, k) => entry(bank, alloc, t, g, k),
        _ => Ok(None),
    }
}

/// The equation that rewrites the term `t`, as far as the proof needs it: None exactly where there is none.
fn rewriting_of(bank: &Bank, alloc: Global, t: u64) -> Result<Option<Rewriting>, Memory>
    requires { t < length bank.now }
    ensures is { IfOk result (λ o. IsRewriting bank.now o (rewrite_of (bank_tree bank.now t))) }
    ensures under { IfOk result (λ o. AreUnder (length bank.now) o) }
{
    match shape_at(bank, t) {
        Shape::Dom(g) => match shape_at(bank, g) {
            Shape::Fun(s, e) => equation(alloc, 15, 0, &[s, e]),
            _ => Ok(None),
        },
        Shape::Except(g, a, b) => equation(alloc, 19, 0, &[g, a, b]),
        Shape::Apply(g, n) => match shape_at(bank, g) {
            Shape::Tuple => entry_at(bank, alloc, t, g, n),
            _ => Ok(None),
        },
        _ => Ok(None),
    }
}

/// The formula `f` is rewritten by the equation of the term `from`, whose other side is `to`.
#[tactic(auto, using(crate::proofs::RewritingLaws::over_some, crate::proofs::RewritingLaws::over_none, rule_proofs::proofs::Lefts::picked_same, rule_proofs::proofs::Lefts::below_wider))]
pub fn rewrite(w: &mut Writer, alloc: Global, f: u64, from: u64, to: u64) -> Result<(), Memory>
    requires formula { f < count w.old }
    requires first { from < count w.old }
    requires second { to < count w.old }
    requires is { IsOther (rewrite_of (tree_at w.old from))
        (tree_at w.old from) (tree_at w.old to) }
    requires some { 1 ≤ length (opens w.old) }
    ensures more { count w.old ≤ count w.new }
    ensures same { (i : ℕ) → i < count w.old → tree_at w.new i ≡ tree_at w.old i }
    ensures ok { OnOk result (opens w.new ≡ rewritten_by (rewrite_of (tree_at w.old from))
        (tree_at w.old f) (first_of (opens w.old)) ∷ rest_of (opens w.old)) }
{
    match rewriting_of(w.bank(), alloc, from)? {
        Some(r) => {
            put_for(w, alloc, from, to, f)?;
            w.schema(alloc, r.schema, r.z, r.params)
        }
        None => Ok(()),
    }
}
