//! Expressions of a table of nodes.
ghost use Rattle.std.specs.Prelude.{◌≡◌, ◌<◌, length, map, IfOk, IsTrue};
ghost use Rattle.core_expr.specs.Nodes.{node_fits, node_make, AreNodes};
ghost use Rattle.seq_calculus.specs.Lists.{node_of};
ghost use Rattle.proof_text.specs.Texts.{tree_in};
ghost use Rattle.proof_text.specs.Frames.{AreWaiting, IsFrame, goal_of, IsTurn};

use core_expr::{Expr, Memory, Sym, SymKind};
use seq_calculus::ProofNode;
use std::alloc::Global;

/// A node of the table, and the expressions of the first of its parts.
#[derive(Drop)]
pub struct Frame {
    pub node: u64,
    pub parts: Vec<Expr>,
}

/// What is to be done next.
#[derive(Drop)]
pub enum Turn {
    /// The parts of this node.
    Next(Frame),
    /// Nothing: this is the expression of the root.
    Done(Expr),
}

/// The expression of a node over these parts.
fn made(alloc: Global, node: &ProofNode, parts: Vec<Expr>) -> Result<Expr, Memory>
    requires { IsTrue (node_fits node.now.head node.now.numbers (length parts.items)) }
    ensures { IfOk result (λ e. e ≡ node_make node.now.head node.now.numbers parts.items) }
{
    let numbers = node.numbers.as_slice();
    if node.head == 6 {
        let sym = Sym {
            kind: SymKind::Canon,
            number: numbers[0],
            arity: numbers[1],
        };
        return Expr::symbol(alloc, sym, parts);
    }
    Expr::build(alloc, node.head, None, numbers, parts)
}

/// Gives the expression to the node that waits for it.
fn ascend(nodes: &[ProofNode], root: u64, frames: &mut Vec<Frame>, e: Expr) -> Result<Turn, Memory>
    requires waiting { AreWaiting nodes.now root frames.old.items }
    requires goal { e ≡ tree_in nodes.now (goal_of nodes.now root frames.old.items) }
    ensures { IfOk result (IsTurn nodes.now root frames.new.items) }
{
    let Some(frame) = frames.pop() else {
        return Ok(Turn::Done(e));
    };
    let Frame { node, mut parts } = frame;
    parts.push(e)?;
    Ok(Turn::Next(Frame { node, parts }))
}

/// Goes on to the next part of a node, or makes its expression where it has all.
fn go_on(
    alloc: Global,
    nodes: &[ProofNode],
    root: u64,
    frames: &mut Vec<Frame>,
    frame: Frame,
) -> Result<Turn, Memory>
    requires nodes { AreNodes 0 (map node_of nodes.now) }
    requires waiting { AreWaiting nodes.now root frames.old.items }
    requires frame { IsFrame nodes.now (goal_of nodes.now root frames.old.items) frame }
    ensures { IfOk result (IsTurn nodes.now root frames.new.items) }
{
    let node = &nodes[frame.node as usize];
    if frame.parts.len() < node.parts.len() {
        let child = node.parts.as_slice()[frame.parts.len()];
        frames.push(frame)?;
        return Ok(Turn::Next(Frame {
            node: child,
            parts: Vec::new(alloc),
        }));
    }
    let Frame { parts, .. } = frame;
    let e = made(alloc, node, parts)?;
    ascend(nodes, root, frames, e)
}

/// The expression of the node `root` of the table. Its cost is that of its own nodes, one for each occurrence.
pub fn expr_at(alloc: Global, nodes: &[ProofNode], root: u64) -> Result<Expr, Memory>
    requires nodes { AreNodes 0 (map node_of nodes.now) }
    requires root { root < length nodes.now }
    ensures { IfOk result (λ e. e ≡ tree_in nodes.now root) }
{
    let mut frames = Vec::new(alloc);
    let mut frame = Frame {
        node: root,
        parts: Vec::new(alloc),
    };
    for _ in 0..u64::MAX {
        match go_on(alloc, nodes, root, &mut frames, frame)? {
            Turn::Done(e) => return Ok(e),
            Turn::Next(next) => frame = next,
        }
    }
    Err(Memory)
}
