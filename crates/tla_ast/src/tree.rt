//! The syntax tree of expressions.

ghost use Rattle.std.specs.Prelude.{◌≡◌};
ghost use Rattle.tla_ast.specs.declared.tree.Node.{out-Node};
ghost use Rattle.tla_ast.specs.Tree.{Follows};

use crate::parts::{Parts, lose};
use crate::place::Place;
use core_expr::Text;
use sqlite_items::{Boxed, Items};

/// A name that is declared or that stands where one is, with the number of its parameters.
#[derive(Debug, Drop)]
pub struct Decl {
    pub name: Text,
    pub arity: u64,
    pub place: Place,
}

/// An expression of the source. The place is that of the operator, or of the first token where there is none.
///
/// A node is dropped by a loop over the nodes that it leads to by parts, which takes no memory: so a tree may be as deep as
/// its operators nest. Only the nodes in forms, which are as deep as the readers let brackets nest, are dropped by recursion.
#[cycle(ast)]
#[derive(Debug)]
pub struct Node {
    pub form: Form,
    pub parts: Parts<Node>,
    pub place: Place,
}

impl Node {
    /// The form, the parts and the place.
    pub fn taken_apart(self) -> (Form, Parts<Node>, Place)
        ensures { result ≡ ((out-Node self).form, (out-Node self).parts, (out-Node self).place) }
    {
        let Node { form, parts, place } = self;
        (form, parts, place)
    }
}

/// Of the nodes that are left and the parts of the node before, one to go on with, and all others. Where there are both, the
/// first part is next, and a plain node over those that are left goes into its place: so nothing is moved to new memory, and
/// a plain node comes last of its list, where it is opened without a further one.
fn next(rest: Parts<Node>, mut parts: Parts<Node>, place: Place) -> Option<(Node, Parts<Node>)>
    ensures { Follows rest parts place result }
{
    if parts.is_empty() {
        parts.end();
        return rest.split_last();
    }
    if rest.is_empty() {
        rest.end();
        return parts.split_last();
    }
    let node = parts.replace_first(Node {
        form: Form::Tuple,
        parts: rest,
        place,
    });
    Some((node, parts))
}

impl Drop for Node {
    /// Takes one node in hand after the other.
    #[cycle(ast)]
    fn drop(self) {
        let Node {
            form,
            parts,
            place: _,
        } = self;
        drop(form);
        let (mut hand, mut rest) = match parts.split_last() {
            Some(found) => found,
            None => return,
        };
        for _ in 0..u64::MAX {
            let (form, parts, place) = hand.taken_apart();
            drop(form);
            match next(rest, parts, place) {
                Some((node, left)) => {
                    hand = node;
                    rest = left;
                }
                None => return,
            }
        }
        // No memory holds so many nodes that the loop ends here.
        lose((hand, rest));
    }
}

/// The form of an expression. The node's parts are its operands, in the order of the text.
#[cycle(ast)]
#[derive(Debug, Drop)]
pub enum Form {
    /// A name alone; TRUE, FALSE, BOOLEAN and STRING are names.
    Name(Text),
    /// A name with arguments.
    Call(Text),
    Number(u128),
    Str(Text),
    Prefix(Text),
    Infix(Text),
    /// The postfix `'`.
    Prime,
    /// `f[e]`.
    Index,
    /// `r.h`.
    Field(Text),
    /// `{e, .., e}`.
    Enum,
    /// `{x \in S : P}`.
    Filter(Text),
    /// `{e : x \in S}`.
    Image(Text),
    Tuple,
    /// `[x \in S |-> e]`.
    Function(Text),
    /// `[S -> T]`.
    FunctionSet,
    /// `[f EXCEPT !p = e, ..]`: a path for each update.
    Except(Items<Path>),
    /// `[h |-> e, ..]`.
    Record(Items<Text>),
    /// `[h : S, ..]`.
    RecordSet(Items<Text>),
    /// `[A]_v`.
    BoxAct,
    /// `<<A>>_v`.
    AngleAct,
    /// A junction list; true for `/\`.
    Junction(bool),
    /// A quantifier; `all` for `\A`.
    Quant { all: bool, groups: Items<Group> },
    Choose(Group),
    If,
    /// CASE; `other` where its last arm is OTHER.
    Case { other: bool },
    Let(Items<Def>),
    /// `@`.
    At,
    /// WF or SF; `strong` for SF.
    Fair { strong: bool },
}

/// What an update of an EXCEPT changes: the keys after its `!`.
#[cycle(ast)]
#[derive(Debug, Drop)]
pub struct Path {
    pub keys: Items<Key>,
}

/// One key of a path: `[e]` or `.h`.
#[cycle(ast)]
#[derive(Debug, Drop)]
pub enum Key {
    At(Node),
    Field(Text),
}

/// Bound names with one set, or without.
#[cycle(ast)]
#[derive(Debug, Drop)]
pub struct Group {
    pub names: Items<Decl>,
    pub domain: Option<Boxed<Node>>,
}

/// A definition `Name(params) == body`.
#[cycle(ast)]
#[derive(Debug, Drop)]
pub struct Def {
    pub name: Text,
    pub params: Items<Decl>,
    pub body: Boxed<Node>,
    pub place: Place,
}
