//! Nodes over the cores of their parts.

ghost use Rattle.std.specs.Prelude.{◌≡◌, IfOk};
ghost use Rattle.tla_ast.specs.declared.tree.Node.{out-Node};
ghost use Rattle.prime_expand.specs.Env as spec;

use crate::both::Both;
use crate::env::Names;
use crate::forms::{angled, boxed};
use crate::parts::{first, first_two, joined, many, three, two};
use crate::symbols::{by_infix, by_prefix};
use core_expr::{Expr, Head, Memory, Text};
use std::alloc::Global;
use tla_ast::{Form, Node};

/// The field of a record.
fn field(alloc: Global, name: &Text, parts: Vec<Both>) -> Result<Both, Memory>
    ensures { IfOk result (λ b. b ≡ spec.field_of name.now parts.items) }
{
    let record = first(alloc, parts)?;
    let name = Both::string(alloc, name.bytes())?;
    Both::binary(alloc, Head::Apply, record, name)
}

/// `e'`.
fn primed(alloc: Global, parts: Vec<Both>) -> Result<Both, Memory>
    ensures { IfOk result (λ b. b ≡ spec.primed_of parts.items) }
{
    let part = first(alloc, parts)?;
    Both::same(alloc, part.primed)
}

/// A number, which is its own prime.
fn numeral(alloc: Global, value: u128) -> Result<Both, Memory>
    ensures { IfOk result (λ b. b ≡ spec.numeral value) }
{
    let number = Expr::number(alloc, value)?;
    Both::same(alloc, number)
}

/// `[A]_v` or `<<A>>_v`.
fn action(alloc: Global, angle: bool, parts: Vec<Both>) -> Result<Both, Memory>
    ensures { IfOk result (λ b. b ≡ spec.action angle parts.items) }
{
    let (action, v) = first_two(alloc, parts)?;
    if angle {
        angled(alloc, action, v)
    } else {
        boxed(alloc, action, v)
    }
}

/// A junction list.
fn junction(alloc: Global, all: bool, parts: Vec<Both>) -> Result<Both, Memory>
    ensures { IfOk result (λ b. b ≡ spec.junction all parts.items) }
{
    if all {
        joined(alloc, Head::And, Head::True, parts)
    } else {
        joined(alloc, Head::Or, Head::True, parts)
    }
}

/// A node that binds nothing over the cores of its parts; the temporal mark where it is no such node.
pub fn flat(alloc: Global, form: &Form, parts: Vec<Both>) -> Result<Both, Memory>
    ensures { IfOk result (λ b. b ≡ spec.flat form.now parts.items) }
{
    match form {
        Form::Number(value) => numeral(alloc, *value),
        Form::Str(text) => Both::string(alloc, text.bytes()),
        Form::Enum => many(alloc, Head::Enum, parts),
        Form::Tuple => many(alloc, Head::Tuple, parts),
        Form::FunctionSet => two(alloc, Head::FunSet, parts),
        Form::BoxAct => action(alloc, false, parts),
        Form::AngleAct => action(alloc, true, parts),
        Form::Junction(all) => junction(alloc, *all, parts),
        Form::If => three(alloc, Head::If, parts),
        _ => Both::leaf(alloc, Head::Temporal),
    }
}

impl Names<'_> {
    /// An operator over the cores of its operands.
    pub fn operator(&self, node: &Node, parts: Vec<Both>) -> Result<Both, Memory>
        ensures { IfOk result (λ b. b ≡ spec.operator self.now (out-Node node.now).form (out-Node node.now).place parts.items) }
    {
        let alloc = self.alloc;
        match &node.form {
            Form::Prefix(sign) => by_prefix(alloc, sign.bytes(), self.symbol(node.place), parts),
            Form::Infix(sign) => by_infix(alloc, sign.bytes(), self.symbol(node.place), parts),
            Form::Prime => primed(alloc, parts),
            Form::Index => two(alloc, Head::Apply, parts),
            Form::Field(name) => field(alloc, name, parts),
            _ => Both::leaf(alloc, Head::Temporal),
        }
    }
}
