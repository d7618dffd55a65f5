//! The order in which a walk meets the operators of an expression.

ghost use Rattle.std.specs.Prelude.{◌≡◌, ◌≤◌, ◌++◌, map, All, IfOk, OnOk};
ghost use Rattle.tla_ast.specs.declared.tree.Node.{size-Node};
ghost use Rattle.plain_syntax.specs.Syntax.{term_of};
ghost use Rattle.plain_syntax.specs.Order as spec;

use core_expr::Memory;
use std::alloc::Global;
use tla_ast::{Form, Node};

/// Whether a form is an operator over its operands: prefix, infix or postfix, an application `f[e]` or a field `r.h`.
pub fn is_operator(form: &Form) -> bool
    ensures { result ≡ spec.joins form.now }
{
    match form {
        Form::Prefix(_) => true,
        Form::Infix(_) => true,
        Form::Prime => true,
        Form::Index => true,
        Form::Field(_) => true,
        _ => false,
    }
}

/// Puts the operands of an operator on a stack, the last uppermost; any other node has none.
fn add_operands<'a>(stack: &mut Vec<&'a Node>, node: &'a Node) -> Result<(), Memory>
    ensures { OnOk result (map (λ n. n.now) stack.new.items
        ≡ map (λ n. n.now) stack.old.items ++ spec.operands node.now) }
{
    if is_operator(&node.form) {
        for part in node.parts.as_slice() {
            stack.push(part)?;
        }
    }
    Ok(())
}

/// The operands that the operators of an expression join, from left to right, and each operator behind its operands. The
/// expression itself comes last. Takes time and memory linear in their number, and no stack.
pub fn operator_order<'a>(alloc: Global, root: &'a Node) -> Result<Vec<&'a Node>, Memory>
    ensures ordered { IfOk result (λ found.
        map (λ n. term_of n.now) found.items ≡ spec.order (term_of root.now)) }
    ensures no_deeper { IfOk result (λ found.
        All (λ n. size-Node n.now ≤ size-Node root.now) found.items) }
{
    let mut stack = Vec::new(alloc);
    let mut found = Vec::new(alloc);
    stack.push(root)?;
    while let Some(node) = stack.pop() {
        found.push(node)?;
        add_operands(&mut stack, node)?;
    }
    found.reverse();
    Ok(found)
}
