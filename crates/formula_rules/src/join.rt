//! Formulas joined into one.
ghost use Rattle.std.specs.Prelude.{◌≡◌, ◌<◌, length, IfOk};
ghost use Rattle.core_expr.specs.Nodes.{AreBelow, picked};
ghost use Rattle.seq_calculus.specs.Schemas.{join, join_from, equals_each, equal_pairs};
ghost use Rattle.term_bank.specs.Banks.{IsDistinct, Extends, HasTree, tree_at};
ghost use Rattle.term_shapes.specs.Forms.{ArePlaced};
ghost use Rattle.formula_rules.specs.Answers.{joined, join_none};

use core_expr::Memory;
use std::alloc::Global;
use term_bank::Bank;
use term_shapes::{Shape, make};

/// The connective that joins.
#[derive(Clone, Copy, Debug)]
pub enum Join {
    And,
    Or,
}

/// Two formulas joined.
fn join_two(bank: &mut Bank, alloc: Global, op: Join, a: u64, b: u64) -> Result<u64, Memory>
    requires left { a < length bank.old }
    requires right { b < length bank.old }
    ensures extends { Extends bank.old bank.new }
    ensures distinct { IsDistinct bank.new }
    ensures ok { IfOk result (λ k. HasTree bank.new k
        (joined op (tree_at bank.old a) (tree_at bank.old b))) }
{
    match op {
        Join::And => make(bank, alloc, Shape::And(a, b)),
        Join::Or => make(bank, alloc, Shape::Or(a, b)),
    }
}

/// What joins no formula.
fn join_nothing(bank: &mut Bank, alloc: Global, op: Join) -> Result<u64, Memory>
    ensures extends { Extends bank.old bank.new }
    ensures distinct { IsDistinct bank.new }
    ensures ok { IfOk result (λ k. HasTree bank.new k (join_none op)) }
{
    match op {
        Join::And => make(bank, alloc, Shape::True),
        Join::Or => make(bank, alloc, Shape::False),
    }
}

/// A formula joined from the left with the rest.
fn join_rest(
    bank: &mut Bank,
    alloc: Global,
    op: Join,
    first: u64,
    rest: &[u64],
) -> Result<u64, Memory>
    requires first { first < length bank.old }
    requires rest { AreBelow (length bank.old) rest.now }
    ensures extends { Extends bank.old bank.new }
    ensures distinct { IsDistinct bank.new }
    ensures ok { IfOk result (λ k. HasTree bank.new k
        (join_from (joined op) (tree_at bank.old first) (picked bank.old rest.now))) }
{
    let _count = bank.count();
    let mut whole = first;
    for item in rest {
        whole = join_two(bank, alloc, op, whole, *item)?;
    }
    Ok(whole)
}

/// Formulas joined from the left.
pub fn join_all(bank: &mut Bank, alloc: Global, op: Join, items: &[u64]) -> Result<u64, Memory>
    requires { AreBelow (length bank.old) items.now }
    ensures extends { Extends bank.old bank.new }
    ensures distinct { IsDistinct bank.new }
    ensures ok { IfOk result (λ k. HasTree bank.new k
        (join (joined op) (join_none op) (picked bank.old items.now))) }
{
    if items.len() == 0 {
        return join_nothing(bank, alloc, op);
    }
    join_rest(bank, alloc, op, items[0], &items[1..])
}

/// The equations of a term with each of the entries.
pub fn equals_each(
    bank: &mut Bank,
    alloc: Global,
    t: u64,
    entries: &[u64],
) -> Result<Vec<u64>, Memory>
    requires term { t < length bank.old }
    requires entries { AreBelow (length bank.old) entries.now }
    ensures extends { Extends bank.old bank.new }
    ensures distinct { IsDistinct bank.new }
    ensures ok { IfOk result (λ v. ArePlaced bank.new
        (equals_each (tree_at bank.old t) (picked bank.old entries.now)) v.items) }
{
    let _count = bank.count();
    let mut equations = Vec::new(alloc);
    for entry in entries {
        let equation = make(bank, alloc, Shape::Eq(t, *entry))?;
        equations.push(equation)?;
    }
    Ok(equations)
}

/// The equations of the entries of two tuples of one length.
pub fn equal_pairs(
    bank: &mut Bank,
    alloc: Global,
    left: &[u64],
    right: &[u64],
) -> Result<Vec<u64>, Memory>
    requires left { AreBelow (length bank.old) left.now }
    requires right { AreBelow (length bank.old) right.now }
    requires length { length left.now ≡ length right.now }
    ensures extends { Extends bank.old bank.new }
    ensures distinct { IsDistinct bank.new }
    ensures ok { IfOk result (λ v. ArePlaced bank.new
        (equal_pairs (picked bank.old left.now) (picked bank.old right.now)) v.items) }
{
    let _count = bank.count();
    let mut equations = Vec::new(alloc);
    for i in 0..left.len() {
        let equation = make(bank, alloc, Shape::Eq(left[i], right[i]))?;
        equations.push(equation)?;
    }
    Ok(equations)
}
