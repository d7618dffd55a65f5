//! The order of terms.
ghost use Rattle.std.specs.Prelude.{◌≡◌, ◌<◌, length, IfOk};
ghost use Rattle.core_expr.specs.Terms.{less};
ghost use Rattle.term_bank.specs.Banks.{tree_at};
ghost use Rattle.term_order.specs.Sizes.{AreSizes};

use crate::codes::code_less;
use crate::sizes::Sizes;
use core_expr::Memory;
use term_bank::Bank;

/// Whether the term at `s` is less than the one at `t`: it has fewer nodes, or as many and the lesser prefix code.
pub fn less(sizes: &mut Sizes, bank: &Bank, s: u64, t: u64) -> Result<bool, Memory>
    requires sizes { AreSizes bank.now sizes.old }
    requires left { s < length bank.now }
    requires right { t < length bank.now }
    ensures sizes { AreSizes bank.now sizes.new }
    ensures ok { IfOk result (λ b. b ≡ less (tree_at bank.now s) (tree_at bank.now t)) }
{
    sizes.grow(bank)?;
    if s == t {
        return Ok(false);
    }
    let size = sizes.size(s);
    let other = sizes.size(t);
    if size != other {
        return Ok(size < other);
    }
    Ok(code_less(bank, s, t))
}
