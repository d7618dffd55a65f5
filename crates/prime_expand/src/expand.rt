//! Cores of expressions, and bodies of definitions.

ghost use Rattle.std.specs.Prelude.{◌≡◌, ◌+◌, ◌∷◌, [], length, IfOk};
ghost use Rattle.tla_ast.specs.declared.tree.Def.{out-Def};
ghost use Rattle.plain_syntax.specs.Syntax.{term_of};
ghost use Rattle.symbol_table.specs.Scoped as table;
ghost use Rattle.prime_expand.specs.Core as spec;
ghost use Rattle.prime_expand.specs.Bodies.{symbol_in, body_in};
ghost use Rattle.prime_expand.specs.Env.{means, entries, arguing};
ghost use Rattle.prime_expand.specs.Walk.{point};

use crate::both::Both;
use crate::env::{Env, Frame, Names, Standing, deeper};
use crate::symbols::second_kind;
use crate::task::Spot;
use core_expr::{Expr, Memory, Sym, SymKind, Text};
use sqlite_items::Items;
use std::alloc::Global;
use std::rc::Rc;
use symbol_table::{Entry, EntrySort, Scoped};
use tla_ast::{Decl, Def, Node};

impl Both {
    /// One of the two.
    fn half(self, primed: bool) -> Expr
        ensures { result ≡ spec.half primed self }
    {
        if primed { self.primed } else { self.plain }
    }
}

impl Names<'_> {
    /// The spot of an expression that stands by itself.
    fn outermost<'a>(&self) -> Result<Spot<'a>, Memory>
        ensures { IfOk result (λ s. point self.now s ≡ record {
          env = [];
          at = spec.nothing (means self.now) (entries self.now);
          depth = 0;
        }) }
    {
        let env = Rc::new(self.alloc, Env::Empty)?;
        let value = Both::truth(self.alloc)?;
        let at = Rc::new(self.alloc, Standing { depth: 0, value })?;
        Ok(Spot { env, at, depth: 0 })
    }

    /// The core of an expression that stands by itself, and of its prime.
    #[tactic(auto, unfolding(crate::specs::Core::core_of))]
    fn both_of(&self, node: &Node) -> Result<Both, Memory>
        ensures { IfOk result (λ b. b ≡ spec.core_of (means self.now) (entries self.now) (term_of node.now)) }
    {
        let spot = self.outermost()?;
        let both = self.core(spot, node)?;
        Ok(both)
    }
}

/// The core of an expression of a module, or of the expression primed, where each name means what the table says.
///
/// `home` counts the loaded modules from 0. Where the text was not resolved without a fault, a name that means nothing is TRUE.
/// Takes time and memory linear in the text and in the cores that it makes on the way, where a part counts once more for each
/// binder that is put round it, and an argument and a definition of a LET once for each use, also where they are dropped in the
/// end: so a chain of definitions each of which uses the one before twice costs what it stands for. Nothing recurses on the depth of
/// the text.
pub fn to_core(
    alloc: Global,
    scoped: &Scoped,
    home: u64,
    node: &Node,
    primed: bool,
) -> Result<Expr, Memory>
    ensures { IfOk result (λ e. e ≡ spec.core_in scoped.now home primed (term_of node.now)) }
{
    let names = Names {
        alloc,
        scoped,
        home,
    };
    Ok(names.both_of(node)?.half(primed))
}

impl Names<'_> {
    /// How many flags are set.
    fn count_flags(&self, flags: &[bool]) -> Result<u64, Memory>
        ensures { IfOk result (λ n. n ≡ spec.flags_in (means self.now) (entries self.now) flags.now) }
    {
        let mut count = 0;
        for flag in flags {
            if *flag {
                count = deeper(count, 1)?;
            }
        }
        Ok(count)
    }

    /// The parameters of a definition as loose variables, and those that it primes once more behind them.
    fn loose(&self, left: u64, more: u64, flags: &[bool]) -> Result<Vec<Both>, Memory>
        ensures { IfOk result (λ v. v.items
            ≡ spec.loose (means self.now) (entries self.now) left more flags.now) }
    {
        let mut left = left;
        let mut more = more;
        let mut found = Vec::new(self.alloc);
        for flag in flags {
            left = left.saturating_sub(1);
            if *flag {
                more = more.saturating_sub(1);
                let plain = Expr::bound(self.alloc, left)?;
                let primed = Expr::bound(self.alloc, more)?;
                found.push(Both { plain, primed })?;
            } else {
                found.push(Both::variable(self.alloc, left)?)?;
            }
        }
        Ok(found)
    }

    /// A spot where the parameters of a definition are these, and nothing else is bound.
    fn among<'a>(&self, params: &[Decl], args: Vec<Both>) -> Result<Spot<'a>, Memory>
        ensures { IfOk result (λ s. point self.now s ≡ record {
          env = arguing self.now 0 params.now args.items [];
          at = spec.nothing (means self.now) (entries self.now);
          depth = 0;
        }) }
    {
        let outermost = self.outermost()?;
        let mut frame = Frame {
            known: Vec::new(self.alloc),
            outer: outermost.env.clone()?,
        };
        self.note_arguments(&mut frame, 0, params, args)?;
        let env = Rc::new(self.alloc, frame.into_env())?;
        let at = outermost.at.clone()?;
        Ok(Spot { env, at, depth: 0 })
    }

    /// The body of a definition with this entry, and that of its second symbol.
    #[tactic(auto, unfolding(crate::specs::Core::bodies))]
    fn bodies(&self, entry: &Entry, def: &Def) -> Result<Both, Memory>
        ensures { IfOk result (λ b. b ≡ spec.bodies (means self.now) (entries self.now) entry.now
            (out-Def def.now).params (term_of (out-Def def.now).body)) }
    {
        let params = def.params.as_slice();
        let flags = entry.primed.as_slice();
        let more = self.count_flags(flags)?;
        let left = deeper(params.len() as u64, more)?;
        let args = self.loose(left, more, flags)?;
        let spot = self.among(params, args)?;
        let both = self.core(spot, def.body.get())?;
        Ok(both)
    }

    /// The symbol of a definition with this entry, its second one where primed.
    fn symbol_of(&self, entry: &Entry, number: u64, def: &Def, primed: bool) -> Result<Sym, Memory>
        ensures { IfOk result (λ s. s ≡ record {
          kind = spec.kind_of (means self.now) (entries self.now) entry.now primed;
          number = number;
          arity = length (out-Def def.now).params
              + spec.flags_in (means self.now) (entries self.now) entry.now.primed;
        }) }
    {
        let more = self.count_flags(entry.primed.as_slice())?;
        let arity = deeper(def.params.len() as u64, more)?;
        let kind = if primed {
            second_kind(entry.level)
        } else {
            SymKind::Defined
        };
        Ok(Sym {
            kind,
            number,
            arity,
        })
    }
}

impl Names<'_> {
    /// The symbol and the body of a definition with this entry and this number, its second ones where primed.
    fn defined(
        &self,
        entry: &Entry,
        number: u64,
        def: &Def,
        primed: bool,
    ) -> Result<(Sym, Expr), Memory>
        ensures symbol { IfOk result (λ p. p.0 ≡ record {
          kind = spec.kind_of (means self.now) (entries self.now) entry.now primed;
          number = number;
          arity = length (out-Def def.now).params
              + spec.flags_in (means self.now) (entries self.now) entry.now.primed;
        }) }
        ensures body { IfOk result (λ p. p.1 ≡ spec.half primed (spec.bodies (means self.now) (entries self.now)
            entry.now (out-Def def.now).params (term_of (out-Def def.now).body))) }
    {
        let symbol = self.symbol_of(entry, number, def, primed)?;
        let body = self.bodies(entry, def)?.half(primed);
        Ok((symbol, body))
    }
}

/// The symbol of a definition of a module and its body; where primed, those of the definition primed.
///
/// The body has as many loose variables as the symbol has arguments: the parameters, the first outermost, and after them the
/// parameters that the definition primes, once more. `home` counts the loaded modules from 0. A definition of a text that was not
/// resolved has the number 0.
pub fn body_of(
    alloc: Global,
    scoped: &Scoped,
    home: u64,
    def: &Def,
    primed: bool,
) -> Result<(Sym, Expr), Memory>
    ensures symbol { IfOk result (λ p. p.0 ≡ symbol_in scoped.now home primed def.now) }
    ensures body { IfOk result (λ p. p.1 ≡ body_in scoped.now home primed def.now) }
{
    let names = Names {
        alloc,
        scoped,
        home,
    };
    let number = names.symbol(def.place).unwrap_or(0);
    match scoped.entry(number) {
        Some(entry) => names.defined(entry, number, def, primed),
        None => {
            let entry = unlisted(alloc)?;
            let found = names.defined(&entry, number, def, primed)?;
            Ok(found)
        }
    }
}

/// What stands for a declaration that is not there.
fn unlisted(alloc: Global) -> Result<Entry, Memory>
    ensures { IfOk result (λ e. e ≡ table.unlisted) }
{
    Ok(Entry {
        name: Text::of(alloc, b"")?,
        sort: EntrySort::Bound,
        arity: 0,
        level: 0,
        primed: Items::new(alloc),
    })
}
