//! Expressions of TLA+ after names and forms are resolved: trees with numbered bound variables.
//!
//! `Expr` keeps a tree flat, as its nodes in order of completion, and contracts see it as that tree. To the layers above
//! this crate promises: each constructor gives exactly the node that it names, and `build` that of the table of heads
//! (`specs/Heads.antt`); the readers show the nodes and the subtrees that they are roots of (`specs/Places.antt`); `inst`
//! puts a closed expression in for the one loose variable with no capture, `rename` puts expressions for symbols, and
//! `lift` moves the loose variables; `same`, `==` and hashes go by trees; and every `Expr` is well formed: each node has
//! the numbers and parts that the table asks (`Expr::length` says so). No call recurses on depth, and each is linear in
//! the nodes that it reads and writes. The laws of putting in, moving, substituting, scopes and of what a tree shows are
//! the contracts of `theorems`. `specs/Nodes.antt` has the trees of tables of shared nodes for the crates above.
//! A `Text` is a list of bytes, and a key of maps.
#![tactic(auto)]

mod canon;
mod compare;
mod construct;
mod expr;
mod forest;
mod head;
mod kinds;
mod lifting;
mod memory;
mod rename;
mod row;
mod rows;
mod spans;
mod text;
pub mod theorems;

pub use canon::Canon;
pub use expr::Expr;
pub use head::{Binder, Head, Sym, SymKind};
pub use kinds::{kind_for, kind_number};
pub use memory::Memory;
pub use row::{Row, RowKind};
pub use text::Text;
