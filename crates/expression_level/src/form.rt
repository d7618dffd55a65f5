//! What forms make of the levels of their parts.

ghost use Rattle.std.specs.Prelude.{◌≡◌, ◌-◌, ◌||◌, [], ◌∷◌, length, take, drop, codes, IfOk, OnOk};
ghost use Rattle.tla_ast.specs.declared.tree.Node.{out-Node};
ghost use Rattle.expression_level.specs.Scope as spec;
ghost use Rattle.expression_level.specs.Weights as weights;

use crate::known::total;
use crate::weight::Weight;
use core_expr::Memory;
use std::alloc::Global;
use tla_ast::{Form, Node, Place};

/// The prefix operator that primes what it is applied to.
const UNCHANGED: &[u8] = b"UNCHANGED";

/// The other prefix operators that change a level.
const ENABLED: &[u8] = b"ENABLED";

const ALWAYS: &[u8] = b"[]";

const EVENTUALLY: &[u8] = b"<>";

/// The infix operator that does.
const LEADS_TO: &[u8] = b"~>";

/// A prefix operator.
fn prefix(operator: &[u8], place: Place, weight: &mut Weight) -> Result<(), Memory>
    ensures { OnOk result (weight.new ≡ weights.prefix_weight operator.now place weight.old) }
{
    if operator == UNCHANGED {
        weight.prime(true);
        weight.limit(1, place)?;
        weight.fix(2);
    } else if operator == ENABLED {
        weight.limit(2, place)?;
        weight.fix(1);
    } else if operator == ALWAYS || operator == EVENTUALLY {
        weight.fix(3);
    }
    Ok(())
}

/// An infix operator.
fn infix(operator: &[u8], weight: &mut Weight)
    ensures { weight.new ≡ weights.infix_weight operator.now weight.old }
{
    if operator == LEADS_TO {
        weight.fix(3);
    }
}

/// What a form makes of the weight of its parts, where they stand under no names of its own.
pub fn apply(form: &Form, place: Place, weight: &mut Weight) -> Result<(), Memory>
    ensures { OnOk result (weight.new ≡ spec.by_form form.now place weight.old) }
{
    match form {
        Form::Prefix(operator) => prefix(operator.bytes(), place, weight),
        Form::Infix(operator) => {
            infix(operator.bytes(), weight);
            Ok(())
        }
        Form::Prime => {
            weight.prime(true);
            weight.limit(1, place)?;
            weight.lift();
            Ok(())
        }
        Form::Fair { strong: _ } => {
            weight.fix(3);
            Ok(())
        }
        _ => Ok(()),
    }
}

/// An action and its subscript.
pub fn act(mut action: Weight, mut subscript: Weight, place: Place) -> Result<Weight, Memory>
    ensures { IfOk result (λ weight. weight ≡ weights.action_weight place action (weights.all_primed subscript)) }
{
    let is_fault = 2 < action.least || 1 < subscript.least;
    action.cap(2);
    subscript.prime(true);
    subscript.cap(1);
    action.join(subscript)?;
    action.note(is_fault, place)?;
    action.fix(2);
    Ok(action)
}

/// An operator over the last of the weights on a stack, which it takes.
pub fn operate(alloc: Global, stack: &mut Vec<Weight>, node: &Node) -> Result<Weight, Memory>
    ensures taken { OnOk result (stack.new.items
        ≡ take (length stack.old.items - length (out-Node node.now).parts) stack.old.items) }
    ensures weight { IfOk result (λ weight. weight ≡ spec.by_form (out-Node node.now).form (out-Node node.now).place
        (weights.total (drop (length stack.old.items - length (out-Node node.now).parts) stack.old.items))) }
{
    let taken = stack.split_off(stack.len().saturating_sub(node.parts.len()))?;
    let mut all = total(alloc, taken)?;
    apply(&node.form, node.place, &mut all)?;
    Ok(all)
}
