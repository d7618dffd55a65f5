//! The formulas that a turn newly added.
ghost use Rattle.std.specs.Prelude.{◌≡◌, IfOk};
ghost use Rattle.seq_translate.specs.News.{news_of, second_at};

use core_expr::Memory;
use search_trace::{Added, Turn};
use std::alloc::Global;

/// The numbers of those that are new.
pub fn new_ones(alloc: Global, added: &[Added]) -> Result<Vec<u64>, Memory>
    ensures { IfOk result (λ v. v.items ≡ news_of added.now) }
{
    let mut news = Vec::new(alloc);
    for formula in added {
        if formula.is_new {
            news.push(formula.formula)?;
        }
    }
    Ok(news)
}

/// Those of the second side of the turn with a number, from 1.
pub fn second_news(alloc: Global, turns: &[Turn], number: u64) -> Result<Vec<u64>, Memory>
    ensures { IfOk result (λ v. v.items ≡ second_at turns.now number) }
{
    match turns.get(number.saturating_sub(1) as usize) {
        Some(Turn::Split(_, _, second)) => new_ones(alloc, second.as_slice()),
        _ => Ok(Vec::new(alloc)),
    }
}
