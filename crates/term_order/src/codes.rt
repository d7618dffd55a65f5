//! Which of two prefix codes is less.
ghost use Rattle.std.specs.Prelude.{◌≡◌, ◌<◌, [], length};
ghost use Rattle.core_expr.specs.Terms.{code, list_less};
ghost use Rattle.term_bank.specs.Banks.{tree_at};
ghost use Rattle.term_order.specs.Codes.{IsCodeStep};

use term_bank::Bank;
use term_walks::first_apart;

/// Whether the first code is less is known, or it is as for the codes of two parts.
#[derive(Clone, Copy, Debug)]
pub enum CodeStep {
    Less(bool),
    Below(u64, u64),
}

/// The first difference of the codes of two nodes, or the parts whose codes have it.
fn code_step(bank: &Bank, i: u64, j: u64) -> CodeStep
    requires left { i < length bank.now }
    requires right { j < length bank.now }
    requires apart { i ≡ j → ⊥ }
    ensures { IsCodeStep bank.now i j result }
{
    bank.count();
    let a = bank.node(i).unwrap();
    let b = bank.node(j).unwrap();
    if a.head != b.head {
        return CodeStep::Less(a.head < b.head);
    }
    if let Some(k) = first_apart(a.numbers.as_slice(), b.numbers.as_slice()) {
        return CodeStep::Less(a.numbers[k] < b.numbers[k]);
    }
    let k = first_apart(a.parts.as_slice(), b.parts.as_slice()).unwrap();
    CodeStep::Below(a.parts[k], b.parts[k])
}

/// Whether the code of the term at `s` is less than that of another one at `t`.
pub fn code_less(bank: &Bank, s: u64, t: u64) -> bool
    requires left { s < length bank.now }
    requires right { t < length bank.now }
    requires apart { s ≡ t → ⊥ }
    ensures { result ≡ list_less (code (tree_at bank.now s) []) (code (tree_at bank.now t) []) }
{
    let mut left = s;
    let mut right = t;
    loop {
        match code_step(bank, left, right) {
            CodeStep::Less(is_less) => return is_less,
            CodeStep::Below(i, j) => {
                left = i;
                right = j;
            }
        }
    }
}
