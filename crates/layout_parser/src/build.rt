//! Nodes.

ghost use Rattle.std.specs.Prelude.{◌≡◌, ◌∷◌, [], ◌&&◌, ◌||◌, IfOk};
ghost use Rattle.layout_parser.specs.Reading as spec;

use sqlite_items::{Boxed, Items};
use std::alloc::{AllocError, Global};
use tla_ast::{Decl, Form, Group, Node, Parts, Place};

/// Whether both hold.
pub fn both(a: bool, b: bool) -> bool
    ensures { result ≡ (a && b) }
{
    a && b
}

/// Whether one holds at least.
pub fn either(a: bool, b: bool) -> bool
    ensures { result ≡ (a || b) }
{
    a || b
}

/// A node with these parts.
pub fn whole(form: Form, parts: Parts<Node>, place: Place) -> Node
    ensures { result ≡ spec.node form parts place }
{
    Node { form, parts, place }
}

/// A node without parts.
pub fn leaf(alloc: Global, form: Form, place: Place) -> Node
    ensures { result ≡ spec.node form [] place }
{
    whole(form, Parts::new(alloc), place)
}

/// One item.
pub fn one<T: Drop>(alloc: Global, item: T) -> Result<Items<T>, AllocError>
    ensures { IfOk result (λ all. all ≡ item ∷ []) }
{
    let mut all = Items::new(alloc);
    all.push(item)?;
    Ok(all)
}

/// One part.
pub fn one_part(alloc: Global, part: Node) -> Result<Parts<Node>, AllocError>
    ensures { IfOk result (λ all. all ≡ part ∷ []) }
{
    let mut all = Parts::new(alloc);
    all.push(part)?;
    Ok(all)
}

/// A node with one part.
pub fn unary(alloc: Global, form: Form, part: Node, place: Place) -> Result<Node, AllocError>
    ensures { IfOk result (λ n. n ≡ spec.node form (part ∷ []) place) }
{
    let parts = one_part(alloc, part)?;
    Ok(whole(form, parts, place))
}

/// A node with two parts.
pub fn binary(
    alloc: Global,
    form: Form,
    left: Node,
    right: Node,
    place: Place,
) -> Result<Node, AllocError>
    ensures { IfOk result (λ n. n ≡ spec.node form (left ∷ right ∷ []) place) }
{
    let mut parts = one_part(alloc, left)?;
    parts.push(right)?;
    Ok(whole(form, parts, place))
}

/// A node with three parts.
pub fn ternary(
    alloc: Global,
    form: Form,
    first: Node,
    second: Node,
    third: Node,
    place: Place,
) -> Result<Node, AllocError>
    ensures { IfOk result (λ n. n ≡ spec.node form (first ∷ second ∷ third ∷ []) place) }
{
    let mut parts = one_part(alloc, first)?;
    parts.push(second)?;
    parts.push(third)?;
    Ok(whole(form, parts, place))
}

/// Bound names with their set, if they have one.
pub fn group(alloc: Global, names: Items<Decl>, domain: Option<Node>) -> Result<Group, AllocError>
    ensures { IfOk result (λ g. g ≡ spec.group names domain) }
{
    match domain {
        None => Ok(Group {
            names,
            domain: None,
        }),
        Some(set) => {
            let set = Boxed::new(alloc, set)?;
            Ok(Group {
                names,
                domain: Some(set),
            })
        }
    }
}
