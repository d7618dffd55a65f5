//! The premises of a step over two sides.
ghost use Rattle.std.specs.Prelude.{◌≡◌, ◌↔◌, ◌⊎◌, ◌<◌, [], ◌∷◌, length, cond, List, Some, None, IfOk, IsTrue};
ghost use Rattle.core_expr.specs.Put.{IsScoped};
ghost use Rattle.core_expr.specs.Tree.{Tree, not_, choose_};
ghost use Rattle.core_expr.specs.Nodes.{AreBelow, picked, node_make};
ghost use Rattle.term_bank.specs.Banks.{Extends, HasTree, tree_at};
ghost use Rattle.seq_calculus.specs.Calculus.{Has};
ghost use Rattle.seq_calculus.specs.Calculus.Rule.{AllL, ExR, AllR, ExL, Repl};
ghost use Rattle.proof_checker.specs.Sides.{seen, AreFormulas};
ghost use Rattle.proof_checker.specs.Rules.{connective_rule, unary_rule, plain_reading, count_of, head_of, is_left};
ghost use Rattle.proof_checker.specs.Plans.{AreSides, Plans, Opens, Replaces, left_plan, right_plan};

use crate::rule::{Connective, Plain, Unary, adding, head_of, is_left, plan_of};
use crate::side::Side;
use crate::task::{Adds, Plan};
use core_expr::Memory;
use std::alloc::Global;
use term_bank::Bank;

/// The plan, where a test holds.
fn when(held: bool, plan: Plan) -> Option<Plan>
    ensures { result ≡ cond held (Some plan) None }
{
    if held {
        return Some(plan);
    }
    None
}

/// A premise that adds a formula on the left, where one was found.
pub fn left_plan(found: Option<u64>) -> Option<Plan>
    ensures { result ≡ left_plan found }
{
    match found {
        Some(j) => Some(Plan::Single(adding(Adds::One(j), Adds::Nothing))),
        None => None,
    }
}

/// A premise that adds a formula on the right, where one was found.
fn right_plan(found: Option<u64>) -> Option<Plan>
    ensures { result ≡ right_plan found }
{
    match found {
        Some(j) => Some(Plan::Single(adding(Adds::Nothing, Adds::One(j)))),
        None => None,
    }
}

/// Whether the formula that the rule takes apart is there.
fn has_whole(bank: &Bank, left: &Side, right: &Side, rule: Connective, a: u64, b: u64) -> bool
    requires sides { AreSides bank.now left.now right.now }
    requires below { AreBelow (length bank.now) (a ∷ b ∷ []) }
    ensures { IsTrue result
        ↔ Has (cond (is_left rule) (seen bank.now left.now) (seen bank.now right.now))
        (node_make (head_of rule) [] (tree_at bank.now a ∷ tree_at bank.now b ∷ [])) }
{
    if is_left(rule) {
        return left.holds(bank, head_of(rule), &[a, b]);
    }
    right.holds(bank, head_of(rule), &[a, b])
}

/// The premises of a rule of a connective.
fn connective(
    bank: &Bank,
    left: &Side,
    right: &Side,
    rule: Connective,
    a: u64,
    b: u64,
) -> Option<Plan>
    requires sides { AreSides bank.now left.now right.now }
    requires below { AreBelow (length bank.now) (a ∷ b ∷ []) }
    ensures { Plans bank.now (connective_rule rule (tree_at bank.now a) (tree_at bank.now b))
        (seen bank.now left.now) (seen bank.now right.now) result }
{
    when(
        has_whole(bank, left, right, rule, a, b),
        plan_of(rule, a, b),
    )
}

/// `P[t]`, where the quantified P is on the side and t is closed.
fn opened(
    bank: &mut Bank,
    alloc: Global,
    side: &Side,
    head: u64,
    p: u64,
    t: u64,
) -> Result<Option<u64>, Memory>
    requires head { (head ≡ 12) ⊎ (head ≡ 13) }
    requires below { AreBelow (length bank.old) (p ∷ t ∷ []) }
    requires formulas { AreFormulas bank.old side.now.trail }
    ensures extends { Extends bank.old bank.new }
    ensures ok { IfOk result (λ o. Opens bank.new (seen bank.old side.now) head
        (tree_at bank.old p) (tree_at bank.old t) o) }
{
    let _count = bank.count();
    if !side.holds(bank, head, &[p]) {
        return Ok(None);
    }
    if !bank.is_closed(t) {
        return Ok(None);
    }
    Ok(Some(bank.inst(alloc, p, t)?))
}

/// `CHOOSE x : P`.
#[tactic(auto, unfolding(core_expr::specs::Heads::kind_at, core_expr::specs::Heads::kind_table))]
pub fn chosen(bank: &mut Bank, alloc: Global, p: u64) -> Result<u64, Memory>
    requires { p < length bank.old }
    ensures extends { Extends bank.old bank.new }
    ensures ok { IfOk result (λ c. HasTree bank.new c (choose_ (tree_at bank.old p))) }
{
    bank.make(alloc, 32, &[], &[p])
}

/// `CHOOSE x : ~P`.
#[tactic(auto, unfolding(core_expr::specs::Heads::kind_at, core_expr::specs::Heads::kind_table))]
fn chosen_against(bank: &mut Bank, alloc: Global, p: u64) -> Result<u64, Memory>
    requires { p < length bank.old }
    ensures extends { Extends bank.old bank.new }
    ensures ok { IfOk result (λ c. HasTree bank.new c (choose_ (not_ (tree_at bank.old p)))) }
{
    let not = bank.make(alloc, 7, &[], &[p])?;
    chosen(bank, alloc, not)
}

/// Whether the tree has at most one loose variable.
#[tactic(auto, unfolding(core_expr::specs::Heads::kind_at, core_expr::specs::Heads::kind_table))]
pub fn is_body(bank: &mut Bank, alloc: Global, h: u64) -> Result<bool, Memory>
    requires { h < length bank.old }
    ensures extends { Extends bank.old bank.new }
    ensures ok { IfOk result (λ b. IsTrue b ↔ IsScoped 1 (tree_at bank.old h)) }
{
    let all = bank.make(alloc, 12, &[], &[h])?;
    Ok(bank.is_closed(all))
}

/// `H[t]`, where `s = t` and `H[s]` are on the left.
#[tactic(auto, unfolding(core_expr::specs::Heads::kind_at, core_expr::specs::Heads::kind_table))]
fn replaced(
    bank: &mut Bank,
    alloc: Global,
    left: &Side,
    h: u64,
    s: u64,
    t: u64,
) -> Result<Option<u64>, Memory>
    requires below { AreBelow (length bank.old) (h ∷ s ∷ t ∷ []) }
    requires formulas { AreFormulas bank.old left.now.trail }
    ensures extends { Extends bank.old bank.new }
    ensures ok { IfOk result (λ o. Replaces bank.new (seen bank.old left.now)
        (tree_at bank.old h) (tree_at bank.old s) (tree_at bank.old t) o) }
{
    let _count = bank.count();
    if !left.holds(bank, 14, &[s, t]) {
        return Ok(None);
    }
    if !is_body(bank, alloc, h)? {
        return Ok(None);
    }
    let before = bank.inst(alloc, h, s)?;
    if !left.has(bank, before) {
        return Ok(None);
    }
    Ok(Some(bank.inst(alloc, h, t)?))
}

/// The premise of a universal on the left.
#[tactic(auto, unfolding(core_expr::specs::Heads::kind_at, core_expr::specs::Heads::kind_table))]
fn all_left(
    bank: &mut Bank,
    alloc: Global,
    left: &Side,
    p: u64,
    t: u64,
) -> Result<Option<Plan>, Memory>
    requires below { AreBelow (length bank.old) (p ∷ t ∷ []) }
    requires formulas { AreFormulas bank.old left.now.trail }
    ensures extends { Extends bank.old bank.new }
    ensures ok { IfOk result (λ o. (g : List Tree) → Plans bank.new (AllL (tree_at bank.old p) (tree_at bank.old t))
        (seen bank.old left.now) g o) }
{
    Ok(left_plan(opened(bank, alloc, left, 12, p, t)?))
}

/// The premise of an existential on the right.
#[tactic(auto, unfolding(core_expr::specs::Heads::kind_at, core_expr::specs::Heads::kind_table))]
fn some_right(
    bank: &mut Bank,
    alloc: Global,
    right: &Side,
    p: u64,
    t: u64,
) -> Result<Option<Plan>, Memory>
    requires below { AreBelow (length bank.old) (p ∷ t ∷ []) }
    requires formulas { AreFormulas bank.old right.now.trail }
    ensures extends { Extends bank.old bank.new }
    ensures ok { IfOk result (λ o. (g : List Tree) → Plans bank.new (ExR (tree_at bank.old p) (tree_at bank.old t))
        g (seen bank.old right.now) o) }
{
    Ok(right_plan(opened(bank, alloc, right, 13, p, t)?))
}

/// The premise of a universal on the right.
fn all_right(bank: &mut Bank, alloc: Global, right: &Side, p: u64) -> Result<Option<Plan>, Memory>
    requires below { AreBelow (length bank.old) (p ∷ []) }
    requires formulas { AreFormulas bank.old right.now.trail }
    ensures extends { Extends bank.old bank.new }
    ensures ok { IfOk result (λ o. (g : List Tree) → Plans bank.new (AllR (tree_at bank.old p))
        g (seen bank.old right.now) o) }
{
    let t = chosen_against(bank, alloc, p)?;
    Ok(right_plan(opened(bank, alloc, right, 12, p, t)?))
}

/// The premise of an existential on the left.
fn some_left(bank: &mut Bank, alloc: Global, left: &Side, p: u64) -> Result<Option<Plan>, Memory>
    requires below { AreBelow (length bank.old) (p ∷ []) }
    requires formulas { AreFormulas bank.old left.now.trail }
    ensures extends { Extends bank.old bank.new }
    ensures ok { IfOk result (λ o. (g : List Tree) → Plans bank.new (ExL (tree_at bank.old p))
        (seen bank.old left.now) g o) }
{
    let t = chosen(bank, alloc, p)?;
    Ok(left_plan(opened(bank, alloc, left, 13, p, t)?))
}

/// The premise of a replacement.
fn replacement(
    bank: &mut Bank,
    alloc: Global,
    left: &Side,
    h: u64,
    s: u64,
    t: u64,
) -> Result<Option<Plan>, Memory>
    requires below { AreBelow (length bank.old) (h ∷ s ∷ t ∷ []) }
    requires formulas { AreFormulas bank.old left.now.trail }
    ensures extends { Extends bank.old bank.new }
    ensures ok { IfOk result (λ o. (g : List Tree) → Plans bank.new (Repl (tree_at bank.old h) (tree_at bank.old s) (tree_at bank.old t))
        (seen bank.old left.now) g o) }
{
    Ok(left_plan(replaced(bank, alloc, left, h, s, t)?))
}

/// The premises of a rule with one expression.
#[tactic(auto, unfolding(core_expr::specs::Heads::kind_at, core_expr::specs::Heads::kind_table))]
fn unary(
    bank: &mut Bank,
    alloc: Global,
    left: &Side,
    right: &Side,
    rule: Unary,
    a: u64,
) -> Result<Option<Plan>, Memory>
    requires sides { AreSides bank.old left.now right.now }
    requires below { a < length bank.old }
    ensures extends { Extends bank.old bank.new }
    ensures ok { IfOk result (λ o. Plans bank.new (unary_rule rule (tree_at bank.old a))
        (seen bank.old left.now) (seen bank.old right.now) o) }
{
    let on_left = adding(Adds::One(a), Adds::Nothing);
    let on_right = adding(Adds::Nothing, Adds::One(a));
    match rule {
        Unary::Ax => Ok(when(left.has(bank, a) && right.has(bank, a), Plan::Closed)),
        Unary::Cut => Ok(Some(Plan::Pair(on_right, on_left))),
        Unary::NotL => Ok(when(left.holds(bank, 7, &[a]), Plan::Single(on_right))),
        Unary::NotR => Ok(when(right.holds(bank, 7, &[a]), Plan::Single(on_left))),
        Unary::AllR => all_right(bank, alloc, right, a),
        Unary::ExL => some_left(bank, alloc, left, a),
        Unary::Refl => Ok(when(right.holds(bank, 14, &[a, a]), Plan::Closed)),
    }
}

/// The premises of a step over two sides: None where it does not fit.
#[tactic(auto, unfolding(core_expr::specs::Heads::kind_at, core_expr::specs::Heads::kind_table))]
pub fn plan(
    bank: &mut Bank,
    alloc: Global,
    left: &Side,
    right: &Side,
    rule: Plain,
    operands: &[u64],
) -> Result<Option<Plan>, Memory>
    requires sides { AreSides bank.old left.now right.now }
    requires below { AreBelow (length bank.old) operands.now }
    requires count { length operands.now ≡ count_of rule }
    ensures extends { Extends bank.old bank.new }
    ensures ok { IfOk result (λ o. Plans bank.new
        (plain_reading rule [] (picked bank.old operands.now))
        (seen bank.old left.now) (seen bank.old right.now) o) }
{
    match rule {
        Plain::TrueR => Ok(when(right.holds(bank, 0, &[]), Plan::Closed)),
        Plain::FalseL => Ok(when(left.holds(bank, 1, &[]), Plan::Closed)),
        Plain::One(rule) => unary(bank, alloc, left, right, rule, operands[0]),
        Plain::Two(rule) => Ok(connective(bank, left, right, rule, operands[0], operands[1])),
        Plain::AllL => all_left(bank, alloc, left, operands[0], operands[1]),
        Plain::ExR => some_right(bank, alloc, right, operands[0], operands[1]),
        Plain::Repl => replacement(bank, alloc, left, operands[0], operands[1], operands[2]),
    }
}
