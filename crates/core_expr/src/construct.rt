//! Makes expressions by the shapes of their trees.
ghost use Rattle.std.specs.Prelude.{◌≡◌, ◌+◌, ◌<◌, ◌∷◌, [], length, IsTrue, IfOk};
ghost use Rattle.core_expr.specs.Tree.{num_, str_};
ghost use Rattle.core_expr.specs.Tree.Tree.{bound, app, node, bind};
ghost use Rattle.core_expr.specs.Tree.Parts.{end, part};
ghost use Rattle.core_expr.specs.Heads.{takes, counts, are_bytes, binder_arity, parts_of};
ghost use Rattle.core_expr.specs.Terms.{numeral_of};

use crate::expr::Expr;
use crate::head::{Binder, Head, Sym};
use crate::memory::Memory;
use crate::row::RowKind;
use sqlite_items::Items;
use std::alloc::Global;

/// The numbers of a node with this head and so many parts that has no others: the count of an Enum or a Tuple.
fn counts(alloc: Global, head: Head, parts: u64) -> Result<Items<u64>, Memory>
    ensures { IfOk result (λ numbers. numbers ≡ counts head parts) }
{
    match head {
        Head::Enum | Head::Tuple => Ok(Items::from_slice(alloc, &[parts])?),
        _ => Ok(Items::new(alloc)),
    }
}

/// The length of the bytes, and the bytes.
fn text_numbers(alloc: Global, bytes: &[u8]) -> Result<Items<u64>, Memory>
    ensures value { IfOk result (λ numbers. numbers ≡ length bytes.now ∷ bytes.now) }
    ensures bytes { IfOk result (λ _. IsTrue (are_bytes bytes.now)) }
{
    let mut numbers = Items::from_slice(alloc, &[bytes.len() as u64])?;
    for byte in bytes {
        numbers.push(u64::from(*byte))?;
    }
    Ok(numbers)
}

impl Expr {
    /// The node with this head over these parts. An Enum and a Tuple have any number of parts, and keep their count.
    pub fn plain(alloc: Global, head: Head, parts: Vec<Expr>) -> Result<Expr, Memory>
        requires { IsTrue (takes head (length parts.items)) }
        ensures { IfOk result (λ e. e ≡ node head [] (parts_of parts.items)) }
    {
        let numbers = counts(alloc, head, parts.len() as u64)?;
        Expr::of_kind(alloc, RowKind::Plain(head), numbers, parts)
    }

    /// The node with this head and no parts.
    pub fn leaf(alloc: Global, head: Head) -> Result<Expr, Memory>
        requires { IsTrue (takes head 0) }
        ensures { IfOk result (λ e. e ≡ node head [] end) }
    {
        Expr::plain(alloc, head, Vec::new(alloc))
    }

    /// The node with this head over one part.
    pub fn unary(alloc: Global, head: Head, a: Expr) -> Result<Expr, Memory>
        requires { IsTrue (takes head 1) }
        ensures { IfOk result (λ e. e ≡ node head [] (part a end)) }
    {
        let parts = vec![in alloc; a]?;
        Expr::plain(alloc, head, parts)
    }

    /// The node with this head over two parts.
    pub fn binary(alloc: Global, head: Head, a: Expr, b: Expr) -> Result<Expr, Memory>
        requires { IsTrue (takes head 2) }
        ensures { IfOk result (λ e. e ≡ node head [] (part a (part b end))) }
    {
        let parts = vec![in alloc; a, b]?;
        Expr::plain(alloc, head, parts)
    }

    /// The node with this head over three parts.
    pub fn ternary(alloc: Global, head: Head, a: Expr, b: Expr, c: Expr) -> Result<Expr, Memory>
        requires { IsTrue (takes head 3) }
        ensures { IfOk result (λ e. e ≡ node head [] (part a (part b (part c end)))) }
    {
        let parts = vec![in alloc; a, b, c]?;
        Expr::plain(alloc, head, parts)
    }

    /// The binder over these parts and this body, which stands under one binder.
    pub fn binding(
        alloc: Global,
        binder: Binder,
        parts: Vec<Expr>,
        body: Expr,
    ) -> Result<Expr, Memory>
        requires { length parts.items + 1 ≡ binder_arity binder }
        ensures { IfOk result (λ e. e ≡ bind binder (parts_of parts.items) body) }
    {
        let mut parts = parts;
        parts.push(body)?;
        Expr::of_kind(alloc, RowKind::Binding(binder), Items::new(alloc), parts)
    }

    /// The binder over this body: for All, Ex and Choose.
    pub fn quantified(alloc: Global, binder: Binder, body: Expr) -> Result<Expr, Memory>
        requires { binder_arity binder ≡ 1 }
        ensures { IfOk result (λ e. e ≡ bind binder end body) }
    {
        Expr::binding(alloc, binder, Vec::new(alloc), body)
    }

    /// The binder over this set and this body: for Filter, Image and Fun.
    pub fn ranged(alloc: Global, binder: Binder, set: Expr, body: Expr) -> Result<Expr, Memory>
        requires { binder_arity binder ≡ 2 }
        ensures { IfOk result (λ e. e ≡ bind binder (part set end) body) }
    {
        let parts = vec![in alloc; set]?;
        Expr::binding(alloc, binder, parts, body)
    }

    /// The symbol applied to these parts.
    pub fn symbol(alloc: Global, sym: Sym, parts: Vec<Expr>) -> Result<Expr, Memory>
        requires { length parts.items ≡ sym.arity }
        ensures { IfOk result (λ e. e ≡ app sym (parts_of parts.items)) }
    {
        Expr::of_kind(alloc, RowKind::Symbol(sym), Items::new(alloc), parts)
    }

    /// The bound variable with this index.
    pub fn bound(alloc: Global, index: u64) -> Result<Expr, Memory>
        ensures { IfOk result (λ e. e ≡ bound index) }
    {
        let numbers = Items::from_slice(alloc, &[index])?;
        Expr::of_kind(alloc, RowKind::Bound, numbers, Vec::new(alloc))
    }

    /// The numeral of these two halves.
    pub fn numeral(alloc: Global, high: u64, low: u64) -> Result<Expr, Memory>
        ensures { IfOk result (λ e. e ≡ num_ high low) }
    {
        let numbers = Items::from_slice(alloc, &[high, low])?;
        Expr::of_kind(alloc, RowKind::Plain(Head::Num), numbers, Vec::new(alloc))
    }

    /// The numeral of this value.
    pub fn number(alloc: Global, value: u128) -> Result<Expr, Memory>
        ensures { IfOk result (λ e. e ≡ numeral_of value) }
    {
        let half = 1 << 64;
        Expr::numeral(alloc, (value / half) as u64, (value % half) as u64)
    }

    /// The string of these bytes.
    pub fn text(alloc: Global, bytes: &[u8]) -> Result<Expr, Memory>
        ensures { IfOk result (λ e. e ≡ str_ bytes.now) }
    {
        let numbers = text_numbers(alloc, bytes)?;
        Expr::of_kind(alloc, RowKind::Plain(Head::Str), numbers, Vec::new(alloc))
    }
}
