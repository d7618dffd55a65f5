//! The core of an expression and of its prime.

ghost use Rattle.std.specs.Prelude.{◌≡◌, [], IsTrue, IfOk};
ghost use Rattle.core_expr.specs.Tree.{in_, str_};
ghost use Rattle.core_expr.specs.Tree.Tree.{bound};
ghost use Rattle.core_expr.specs.Heads.{takes, binder_arity};
ghost use Rattle.prime_expand.specs.Both as spec;

use core_expr::{Binder, Expr, Head, Memory};
use std::alloc::Global;

/// The core of an expression, and that of the expression primed.
#[derive(Debug, Drop)]
pub struct Both {
    /// The core.
    pub plain: Expr,
    /// The core of the expression primed.
    pub primed: Expr,
}

impl Both {
    /// An expression that is its own prime.
    pub fn same(alloc: Global, plain: Expr) -> Result<Both, Memory>
        ensures { IfOk result (λ b. b ≡ spec.same plain) }
    {
        let primed = plain.copy(alloc)?;
        Ok(Both { plain, primed })
    }

    /// An equal pair.
    pub fn copy(&self, alloc: Global) -> Result<Both, Memory>
        ensures { IfOk result (λ b. b ≡ self.now) }
    {
        let plain = self.plain.copy(alloc)?;
        let primed = self.primed.copy(alloc)?;
        Ok(Both { plain, primed })
    }

    /// What stood at the depth `from`, at the depth `to`.
    pub fn lifted(&self, alloc: Global, to: u64, from: u64) -> Result<Both, Memory>
        ensures { IfOk result (λ b. b ≡ spec.lifted to from self.now) }
    {
        let by = to.saturating_sub(from);
        let plain = self.plain.lift(alloc, by)?;
        let primed = self.primed.lift(alloc, by)?;
        Ok(Both { plain, primed })
    }

    /// The node with this head and no parts.
    pub fn leaf(alloc: Global, head: Head) -> Result<Both, Memory>
        requires { IsTrue (takes head 0) }
        ensures { IfOk result (λ b. b ≡ spec.leaf head) }
    {
        let plain = Expr::leaf(alloc, head)?;
        Both::same(alloc, plain)
    }

    /// TRUE, which stands for a part that is not there.
    pub fn truth(alloc: Global) -> Result<Both, Memory>
        ensures { IfOk result (λ b. b ≡ spec.part_at 0 []) }
    {
        Both::leaf(alloc, Head::True)
    }

    /// The node with this head over one part.
    pub fn unary(alloc: Global, head: Head, a: Both) -> Result<Both, Memory>
        requires { IsTrue (takes head 1) }
        ensures { IfOk result (λ b. b ≡ spec.unary head a) }
    {
        let plain = Expr::unary(alloc, head, a.plain)?;
        let primed = Expr::unary(alloc, head, a.primed)?;
        Ok(Both { plain, primed })
    }

    /// The node with this head over two parts.
    pub fn binary(alloc: Global, head: Head, a: Both, b: Both) -> Result<Both, Memory>
        requires { IsTrue (takes head 2) }
        ensures { IfOk result (λ made. made ≡ spec.binary head a b) }
    {
        let plain = Expr::binary(alloc, head, a.plain, b.plain)?;
        let primed = Expr::binary(alloc, head, a.primed, b.primed)?;
        Ok(Both { plain, primed })
    }

    /// The node with this head over three parts.
    pub fn ternary(alloc: Global, head: Head, a: Both, b: Both, c: Both) -> Result<Both, Memory>
        requires { IsTrue (takes head 3) }
        ensures { IfOk result (λ made. made ≡ spec.ternary head a b c) }
    {
        let plain = Expr::ternary(alloc, head, a.plain, b.plain, c.plain)?;
        let primed = Expr::ternary(alloc, head, a.primed, b.primed, c.primed)?;
        Ok(Both { plain, primed })
    }

    /// All, Ex or Choose over a body.
    pub fn quantified(alloc: Global, binder: Binder, body: Both) -> Result<Both, Memory>
        requires { binder_arity binder ≡ 1 }
        ensures { IfOk result (λ b. b ≡ spec.quantified binder body) }
    {
        let plain = Expr::quantified(alloc, binder, body.plain)?;
        let primed = Expr::quantified(alloc, binder, body.primed)?;
        Ok(Both { plain, primed })
    }

    /// Filter, Image or Fun over a set and a body.
    pub fn ranged(alloc: Global, binder: Binder, set: Both, body: Both) -> Result<Both, Memory>
        requires { binder_arity binder ≡ 2 }
        ensures { IfOk result (λ b. b ≡ spec.ranged binder set body) }
    {
        let plain = Expr::ranged(alloc, binder, set.plain, body.plain)?;
        let primed = Expr::ranged(alloc, binder, set.primed, body.primed)?;
        Ok(Both { plain, primed })
    }

    /// The variable of the innermost binder, which is its own prime.
    pub fn variable(alloc: Global, index: u64) -> Result<Both, Memory>
        ensures { IfOk result (λ b. b ≡ spec.same (bound index)) }
    {
        let plain = Expr::bound(alloc, index)?;
        Both::same(alloc, plain)
    }

    /// A string, which is its own prime.
    pub fn string(alloc: Global, bytes: &[u8]) -> Result<Both, Memory>
        ensures { IfOk result (λ b. b ≡ spec.same (str_ bytes.now)) }
    {
        let plain = Expr::text(alloc, bytes)?;
        Both::same(alloc, plain)
    }

    /// `x \in S`, where x is the variable of the innermost binder.
    fn member(alloc: Global, set: Both) -> Result<Both, Memory>
        ensures { IfOk result (λ b. b ≡ spec.on_both (in_ (bound 0)) set) }
    {
        let variable = Both::variable(alloc, 0)?;
        Both::binary(alloc, Head::In, variable, set)
    }

    /// All, Ex or Choose over a body, of a bound name with a set. Both stand under the binder.
    pub fn bounded(alloc: Global, binder: Binder, set: Both, body: Both) -> Result<Both, Memory>
        requires { binder_arity binder ≡ 1 }
        ensures { IfOk result (λ b. b ≡ spec.bounded binder set body) }
    {
        let member = Both::member(alloc, set)?;
        let head = match binder {
            Binder::All => Head::Imp,
            _ => Head::And,
        };
        let restricted = Both::binary(alloc, head, member, body)?;
        Both::quantified(alloc, binder, restricted)
    }
}
