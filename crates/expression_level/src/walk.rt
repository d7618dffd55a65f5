//! The weight of an expression.

ghost use Rattle.std.specs.Prelude.{◌≡◌, [], ◌∷◌, map, get_or, false, IfOk, OnOk};
ghost use Rattle.tla_ast.specs.declared.tree.Node.{out-Node};
ghost use Rattle.tla_ast.specs.declared.tree.Def.{out-Def};
ghost use Rattle.tla_ast.specs.declared.tree.Group.{out-Group};
ghost use Rattle.tla_ast.specs.declared.tree.Path.{out-Path};
ghost use Rattle.plain_syntax.specs.Syntax.{term_of, terms_of, each_group, each_key, each_def};
ghost use Rattle.expression_level.specs.Scope as spec;
ghost use Rattle.expression_level.specs.Weights as weights;

use crate::form::{act, apply, operate};
use crate::known::{Known, at_name, defined, total};
use crate::names::Names;
use crate::weight::Weight;
use core_expr::Memory;
use plain_syntax::{is_operator, operator_order};
use tla_ast::{Def, Form, Group, Key, Node, Path};

/// The weight of an expression among so many parameters, where `@` stands for what is known. Operators are met in a loop.
#[cycle(weigh)]
pub fn weigh(names: &mut Names, depth: usize, at: &Known, node: &Node) -> Result<Weight, Memory>
    ensures same { OnOk result (names.new ≡ names.old) }
    ensures weight { IfOk result (λ weight. weight ≡ spec.weight_of names.old depth at.now (term_of node.now)) }
{
    let mut stack = Vec::new(names.alloc());
    let nodes = operator_order(names.alloc(), node)?;
    for next in nodes.as_slice() {
        let weight = if is_operator(&next.form) {
            operate(names.alloc(), &mut stack, *next)?
        } else {
            leaf(names, depth, at, *next)?
        };
        stack.push(weight)?;
    }
    match stack.pop() {
        Some(weight) => Ok(weight),
        None => Ok(Weight::nothing(names.alloc())),
    }
}

/// The weight of an expression that is no operator over others.
#[cycle(weigh)]
fn leaf(names: &mut Names, depth: usize, at: &Known, node: &Node) -> Result<Weight, Memory>
    ensures same { OnOk result (names.new ≡ names.old) }
    ensures weight { IfOk result (λ weight. weight ≡ spec.weight_of names.old depth at.now (term_of node.now)) }
{
    match &node.form {
        Form::Name(_) | Form::Call(_) => {
            let flags = names.flags(node.place);
            let args = each(names, depth, at, flags, node.parts.as_slice())?;
            at_name(names.alloc(), names.at(node.place), args, node.place)
        }
        Form::BoxAct | Form::AngleAct => action(names, depth, at, node),
        Form::At => {
            let none = Vec::new(names.alloc());
            at_name(names.alloc(), Some(at), none, node.place)
        }
        Form::Except(_) => except(names, depth, at, node),
        Form::Quant { all: _, groups } => {
            let before = sets(names, depth, at, groups.as_slice())?;
            behind(names, depth, at, before, node)
        }
        Form::Choose(group) => {
            let before = domain(names, depth, at, group)?;
            behind(names, depth, at, before, node)
        }
        Form::Let(defs) => {
            let mark = names.mark();
            let before = definitions(names, depth, at, defs.as_slice())?;
            let all = behind(names, depth, at, before, node)?;
            names.leave(mark);
            Ok(all)
        }
        _ => {
            let parts = each(names, depth, at, &[], node.parts.as_slice())?;
            let mut all = total(names.alloc(), parts)?;
            apply(&node.form, node.place, &mut all)?;
            Ok(all)
        }
    }
}

/// Whether there is a flag at a position.
fn is_flagged(flags: &[bool], position: usize) -> bool
    ensures { result ≡ get_or flags.now position false }
{
    match flags.get(position) {
        None => false,
        Some(flag) => *flag,
    }
}

/// Several expressions, one after another, of which those with a flag are primed.
#[cycle(weigh)]
fn each(
    names: &mut Names,
    depth: usize,
    at: &Known,
    flags: &[bool],
    nodes: &[Node],
) -> Result<Vec<Weight>, Memory>
    ensures same { OnOk result (names.new ≡ names.old) }
    ensures weights { IfOk result (λ each. each.items
        ≡ spec.weights_of names.old depth at.now flags.now (terms_of (map term_of nodes.now))) }
{
    let mut found = Vec::new(names.alloc());
    for (index, node) in nodes.iter().enumerate() {
        let mut weight = weigh(names, depth, at, node)?;
        weight.prime(is_flagged(flags, index));
        found.push(weight)?;
    }
    Ok(found)
}

/// An action with its subscript.
#[cycle(weigh)]
fn action(names: &mut Names, depth: usize, at: &Known, node: &Node) -> Result<Weight, Memory>
    ensures same { OnOk result (names.new ≡ names.old) }
    ensures weight { IfOk result (λ weight. weight ≡ weights.acted (out-Node node.now).place
        (spec.weights_of names.old depth at.now [] (terms_of (map term_of (out-Node node.now).parts)))) }
{
    let Some((first, rest)) = node.parts.as_slice().split_first() else {
        let mut none = Weight::nothing(names.alloc());
        none.fix(2);
        return Ok(none);
    };
    let taken = weigh(names, depth, at, first)?;
    let others = each(names, depth, at, &[], rest)?;
    let subscript = total(names.alloc(), others)?;
    act(taken, subscript, node.place)
}

/// The set of a group of bounds.
#[cycle(weigh)]
fn domain(names: &mut Names, depth: usize, at: &Known, group: &Group) -> Result<Weight, Memory>
    ensures same { OnOk result (names.new ≡ names.old) }
    ensures weight { IfOk result (λ weight. weight
        ≡ spec.domain_weight names.old depth at.now (out-Group group.now).domain) }
{
    match &group.domain {
        None => Ok(Weight::nothing(names.alloc())),
        Some(set) => weigh(names, depth, at, set.get()),
    }
}

/// The sets of bounds.
#[cycle(weigh)]
fn sets(names: &mut Names, depth: usize, at: &Known, groups: &[Group]) -> Result<Weight, Memory>
    ensures same { OnOk result (names.new ≡ names.old) }
    ensures weight { IfOk result (λ weight. weight ≡ spec.sets_of names.old depth at.now (each_group groups.now)) }
{
    let mut all = Weight::nothing(names.alloc());
    for group in groups {
        let weight = domain(names, depth, at, group)?;
        all.join(weight)?;
    }
    Ok(all)
}

/// The parts of a node, behind what stands before them.
#[cycle(weigh)]
fn behind(
    names: &mut Names,
    depth: usize,
    at: &Known,
    before: Weight,
    node: &Node,
) -> Result<Weight, Memory>
    ensures same { OnOk result (names.new ≡ names.old) }
    ensures weight { IfOk result (λ weight. weight ≡ weights.join before
        (weights.total (spec.weights_of names.old depth at.now [] (terms_of (map term_of (out-Node node.now).parts))))) }
{
    let parts = each(names, depth, at, &[], node.parts.as_slice())?;
    let mut all = before;
    all.join(total(names.alloc(), parts)?)?;
    Ok(all)
}

/// A key of an update.
#[cycle(weigh)]
fn key(names: &mut Names, depth: usize, at: &Known, key: &Key) -> Result<Weight, Memory>
    ensures same { OnOk result (names.new ≡ names.old) }
    ensures weight { IfOk result (λ weight. weight ≡ spec.keys_on names.old depth at.now (each_key (key.now ∷ []))) }
{
    match key {
        Key::At(node) => weigh(names, depth, at, node),
        Key::Field(_) => {
            let none = Weight::nothing(names.alloc());
            Ok(none)
        }
    }
}

/// The keys of an update.
#[cycle(weigh)]
fn keys(names: &mut Names, depth: usize, at: &Known, path: &Path) -> Result<Weight, Memory>
    ensures same { OnOk result (names.new ≡ names.old) }
    ensures weight { IfOk result (λ weight. weight
        ≡ spec.keys_on names.old depth at.now (each_key (out-Path path.now).keys)) }
{
    let mut all = Weight::nothing(names.alloc());
    for part in path.keys.as_slice() {
        let weight = key(names, depth, at, part)?;
        all.join(weight)?;
    }
    Ok(all)
}

/// An EXCEPT: the function and the updates.
#[cycle(weigh)]
fn except(names: &mut Names, depth: usize, at: &Known, node: &Node) -> Result<Weight, Memory>
    ensures same { OnOk result (names.new ≡ names.old) }
    ensures weight { spec.IsExcept node.now → IfOk result (λ weight. weight
        ≡ spec.weight_of names.old depth at.now (term_of node.now)) }
{
    let Form::Except(paths) = &node.form else {
        return Ok(Weight::nothing(names.alloc()));
    };
    let Some((function, values)) = node.parts.as_slice().split_first() else {
        let empty = Weight::nothing(names.alloc());
        return Ok(empty);
    };
    let mut all = weigh(names, depth, at, function)?;
    let paths = paths.as_slice();
    for (index, value) in values.iter().enumerate() {
        if index >= paths.len() {
            return Ok(all);
        }
        let found = keys(names, depth, at, &paths[index])?;
        all.join(found)?;
        let now = Known::result_so_far(names.alloc(), depth, &all)?;
        let weight = weigh(names, depth, &now, value)?;
        all.join(weight)?;
    }
    Ok(all)
}

/// A definition of a LET, which is known from then on. Answers what its body asks of the parameters round it.
#[cycle(weigh)]
fn definition(names: &mut Names, depth: usize, at: &Known, def: &Def) -> Result<Weight, Memory>
    ensures known { OnOk result (names.new ≡ spec.with_definition depth at.now (out-Def def.now).params
        (term_of (out-Def def.now).body) (out-Def def.now).place names.old) }
    ensures weight { IfOk result (λ weight. weight ≡ weights.asked_round depth
        (spec.body_weight names.old depth at.now (out-Def def.now).params (term_of (out-Def def.now).body))) }
{
    let mark = names.mark();
    let inner = names.bind_parameters(depth, def.params.as_slice())?;
    let body = weigh(names, inner, at, def.body.get())?;
    names.leave(mark);
    let (known, asked) = defined(names.alloc(), depth, inner, body)?;
    names.bind(def.place, known)?;
    Ok(asked)
}

/// The definitions of a LET.
#[cycle(weigh)]
fn definitions(names: &mut Names, depth: usize, at: &Known, defs: &[Def]) -> Result<Weight, Memory>
    ensures known { OnOk result (names.new ≡ spec.with_all depth at.now (each_def defs.now) names.old) }
    ensures weight { IfOk result (λ weight. weight ≡ spec.bodies_of names.old depth at.now (each_def defs.now)) }
{
    let mut all = Weight::nothing(names.alloc());
    for def in defs {
        let asked = definition(names, depth, at, def)?;
        all.join(asked)?;
    }
    Ok(all)
}
