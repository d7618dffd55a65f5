//! What a rule adds, with classes.
ghost use Rattle.std.specs.Prelude.{◌<◌, length, IfOk};
ghost use Rattle.core_expr.specs.Nodes.{AreBelow};
ghost use Rattle.formula_rules.specs.Answers.{GivenBelow};
ghost use Rattle.branch_values.specs.News.{AreNews, IsFoundAt};

use branch_state::New;
use core_expr::Memory;
use formula_rules::{Given, Sides, class};
use search_trace::Used;
use std::alloc::Global;
use tableau_search::Found;
use term_bank::Bank;

/// These formulas, to be added, with their classes.
pub fn with_classes(bank: &Bank, alloc: Global, list: &[u64]) -> Result<Vec<New>, Memory>
    requires { AreBelow (length bank.now) list.now }
    ensures { IfOk result (λ v. AreNews bank.now list.now v.items) }
{
    let mut news = Vec::new(alloc);
    for i in 0..list.len() {
        let formula = list[i];
        let class = class(bank, formula);
        news.push(New { formula, class })?;
    }
    Ok(news)
}

/// What a rule gives at the entry with this index.
pub fn found_at(bank: &Bank, alloc: Global, entry: u64, given: Given) -> Result<Found, Memory>
    requires { GivenBelow (length bank.now) given }
    ensures { IfOk result (λ f. IsFoundAt bank.now entry given f) }
{
    let Given {
        rule,
        named,
        terms,
        added,
    } = given;
    let used = Used {
        entry,
        rule,
        named,
        terms,
    };
    match added {
        Sides::Alone(list) => {
            let added = with_classes(bank, alloc, list.as_slice())?;
            Ok(Found::Alone(used, added))
        }
        Sides::Both(left, right) => {
            let first = with_classes(bank, alloc, left.as_slice())?;
            let second = with_classes(bank, alloc, right.as_slice())?;
            Ok(Found::Splits(used, first, second))
        }
    }
}
