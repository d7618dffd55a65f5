//! Names and operators over the cores of their arguments.

ghost use Rattle.std.specs.Prelude.{◌≡◌, map, IsTrue, IfOk, IfSome};
ghost use Rattle.core_expr.specs.Heads.{takes};
ghost use Rattle.symbol_table.specs.declared.entry.EntrySort.TheVariants.{Definition};
ghost use Rattle.symbol_table.specs.Scoped.{entry_of};
ghost use Rattle.prime_expand.specs.Both.{plains, primeds};
ghost use Rattle.prime_expand.specs.Symbols as spec;

use crate::both::Both;
use crate::forms::unchanged;
use crate::parts::{first, one, split, two};
use core_expr::{Expr, Head, Memory, Sym, SymKind};
use std::alloc::Global;
use symbol_table::{Entry, EntrySort, Scoped};

/// The names without a declaration.
const VALUES: [(&[u8], Head); 3] = [
    (b"TRUE", Head::True),
    (b"FALSE", Head::False),
    (b"BOOLEAN", Head::Boolean),
];

/// The prefix operators that are heads.
const PREFIX: [(&[u8], Head); 4] = [
    (b"~", Head::Not),
    (b"SUBSET", Head::Power),
    (b"UNION", Head::Union),
    (b"DOMAIN", Head::Dom),
];

/// The infix operators that are heads.
const INFIX: [(&[u8], Head); 10] = [
    (b"/\\", Head::And),
    (b"\\/", Head::Or),
    (b"=>", Head::Imp),
    (b"<=>", Head::Iff),
    (b"=", Head::Eq),
    (b"\\in", Head::In),
    (b"\\subseteq", Head::Subseteq),
    (b"\\cup", Head::Cup),
    (b"\\cap", Head::Cap),
    (b"\\", Head::Diff),
];

/// The infix operators that deny a head.
const DENIED: [(&[u8], Head); 2] = [(b"#", Head::Eq), (b"\\notin", Head::In)];

/// The infix operators that libraries declare.
const LIBRARY: [&[u8]; 8] = [b"+", b"-", b"*", b"<", b">", b"<=", b">=", b".."];

/// The head in the first row with this sign.
fn head_in(rows: &[(&[u8], Head)], sign: &[u8]) -> Option<Head>
    ensures { result ≡ spec.head_in (map (λ r. (r.0.now, r.1)) rows.now) sign.now }
{
    for row in rows {
        if row.0 == sign {
            return Some(row.1);
        }
    }
    None
}

/// Whether a sign is in the list.
fn is_listed(signs: &[&[u8]], sign: &[u8]) -> bool
    ensures { result ≡ spec.is_listed sign.now (map (λ s. s.now) signs.now) }
{
    for listed in signs {
        if *listed == sign {
            return true;
        }
    }
    false
}

/// The head of TRUE, FALSE or BOOLEAN.
pub fn value(word: &[u8]) -> Option<Head>
    ensures head { result ≡ spec.head_in spec.values word.now }
    ensures takes { IfSome result (λ h. IsTrue (takes h 0)) }
{
    head_in(&VALUES, word)
}

/// The head of a prefix operator.
fn prefix_head(sign: &[u8]) -> Option<Head>
    ensures head { result ≡ spec.head_in spec.prefix_heads sign.now }
    ensures takes { IfSome result (λ h. IsTrue (takes h 1)) }
{
    head_in(&PREFIX, sign)
}

/// The head of an infix operator.
fn infix_head(sign: &[u8]) -> Option<Head>
    ensures head { result ≡ spec.head_in spec.infix_heads sign.now }
    ensures takes { IfSome result (λ h. IsTrue (takes h 2)) }
{
    head_in(&INFIX, sign)
}

/// The head that an infix operator denies.
fn denied_head(sign: &[u8]) -> Option<Head>
    ensures head { result ≡ spec.head_in spec.denied_heads sign.now }
    ensures takes { IfSome result (λ h. IsTrue (takes h 2)) }
{
    head_in(&DENIED, sign)
}

/// A symbol over arguments.
fn applied(alloc: Global, kind: SymKind, number: u64, args: Vec<Expr>) -> Result<Expr, Memory>
    ensures { IfOk result (λ e. e ≡ spec.applied kind number args.items) }
{
    let arity = args.len() as u64;
    let sym = Sym {
        kind,
        number,
        arity,
    };
    Expr::symbol(alloc, sym, args)
}

/// A symbol over arguments, and another of its number over the primed arguments.
fn over_arguments(
    alloc: Global,
    kind: SymKind,
    primed: SymKind,
    number: u64,
    args: Vec<Both>,
) -> Result<Both, Memory>
    ensures { IfOk result (λ b. b ≡ record {
      plain = spec.applied kind number (plains args.items);
      primed = spec.applied primed number (primeds args.items);
    }) }
{
    let (plains, primeds) = split(alloc, args)?;
    let plain = applied(alloc, kind, number, plains)?;
    let primed = applied(alloc, primed, number, primeds)?;
    Ok(Both { plain, primed })
}

/// A constant symbol over arguments.
fn constant(alloc: Global, number: u64, args: Vec<Both>) -> Result<Both, Memory>
    ensures { IfOk result (λ b. b ≡ spec.constant number args.items) }
{
    over_arguments(alloc, SymKind::Constant, SymKind::Constant, number, args)
}

/// The primed arguments of the parameters that a definition primes.
fn flagged(alloc: Global, flags: &[bool], args: &[Both]) -> Result<Vec<Expr>, Memory>
    ensures { IfOk result (λ v. v.items ≡ spec.flagged flags.now args.now) }
{
    let mut found = Vec::new(alloc);
    for (i, flag) in flags.iter().enumerate() {
        let Some(arg) = args.get(i) else {
            return Ok(found);
        };
        if *flag {
            found.push(arg.primed.copy(alloc)?)?;
        }
    }
    Ok(found)
}

/// The kind of the symbol for the prime of a definition of this level.
pub fn second_kind(level: u64) -> SymKind
    ensures { result ≡ spec.second_kind level }
{
    if level == 0 {
        SymKind::Defined
    } else {
        SymKind::DefinedPrimed
    }
}

/// A definition over arguments: the parameters that it primes have their arguments primed as further ones.
fn defined(alloc: Global, entry: &Entry, number: u64, args: Vec<Both>) -> Result<Both, Memory>
    ensures { IfOk result (λ b. b ≡ spec.by_sort Definition entry.now number args.items) }
{
    let mut more = flagged(alloc, entry.primed.as_slice(), args.as_slice())?;
    let mut further = flagged(alloc, entry.primed.as_slice(), args.as_slice())?;
    let (mut plains, mut primeds) = split(alloc, args)?;
    plains.append(&mut more)?;
    primeds.append(&mut further)?;
    let plain = applied(alloc, SymKind::Defined, number, plains)?;
    let primed = applied(alloc, second_kind(entry.level), number, primeds)?;
    Ok(Both { plain, primed })
}

/// What is declared, over arguments.
fn by_sort(alloc: Global, entry: &Entry, number: u64, args: Vec<Both>) -> Result<Both, Memory>
    ensures { IfOk result (λ b. b ≡ spec.by_sort entry.now.sort entry.now number args.items) }
{
    match entry.sort {
        EntrySort::State => { over_arguments(alloc, SymKind::State, SymKind::Primed, number, args) }
        EntrySort::Definition => defined(alloc, entry, number, args),
        EntrySort::Constant => constant(alloc, number, args),
        EntrySort::Library => constant(alloc, number, args),
        EntrySort::Bound => constant(alloc, number, args),
        EntrySort::Assume => constant(alloc, number, args),
        EntrySort::Theorem => constant(alloc, number, args),
        EntrySort::Pragma => constant(alloc, number, args),
    }
}

/// The entry of a number, over arguments.
pub fn declared(
    alloc: Global,
    scoped: &Scoped,
    number: u64,
    args: Vec<Both>,
) -> Result<Both, Memory>
    ensures { IfOk result (λ b. b ≡ spec.by_sort (entry_of scoped.now.entries number).sort
        (entry_of scoped.now.entries number) number args.items) }
{
    match scoped.entry(number) {
        Some(entry) => by_sort(alloc, entry, number, args),
        None => constant(alloc, number, args),
    }
}

/// A library's operator; TRUE where the text was not resolved.
fn of_library(alloc: Global, number: Option<u64>, parts: Vec<Both>) -> Result<Both, Memory>
    ensures { IfOk result (λ b. b ≡ spec.of_library number parts.items) }
{
    match number {
        None => Both::truth(alloc),
        Some(number) => constant(alloc, number, parts),
    }
}

/// A prefix operator that is no head: UNCHANGED, a library's, or a temporal one.
fn other_prefix(
    alloc: Global,
    sign: &[u8],
    number: Option<u64>,
    parts: Vec<Both>,
) -> Result<Both, Memory>
    ensures { IfOk result (λ b. b ≡ spec.other_prefix sign.now number parts.items) }
{
    if sign == b"UNCHANGED".as_slice() {
        let part = first(alloc, parts)?;
        return unchanged(alloc, part);
    }
    if sign == b"-".as_slice() {
        return of_library(alloc, number, parts);
    }
    Both::leaf(alloc, Head::Temporal)
}

/// A prefix operator over its operand; the number is that of its declaration, if it has one.
pub fn by_prefix(
    alloc: Global,
    sign: &[u8],
    number: Option<u64>,
    parts: Vec<Both>,
) -> Result<Both, Memory>
    ensures { IfOk result (λ b. b ≡ spec.by_prefix sign.now number parts.items) }
{
    match prefix_head(sign) {
        Some(head) => one(alloc, head, parts),
        None => other_prefix(alloc, sign, number, parts),
    }
}

/// An infix operator that is no head and denies none: a library's, or a temporal one.
fn other_infix(
    alloc: Global,
    sign: &[u8],
    number: Option<u64>,
    parts: Vec<Both>,
) -> Result<Both, Memory>
    ensures { IfOk result (λ b. b ≡ spec.other_infix sign.now number parts.items) }
{
    if is_listed(&LIBRARY, sign) {
        return of_library(alloc, number, parts);
    }
    Both::leaf(alloc, Head::Temporal)
}

/// An infix operator that is no head.
fn by_denied(
    alloc: Global,
    sign: &[u8],
    number: Option<u64>,
    parts: Vec<Both>,
) -> Result<Both, Memory>
    ensures { IfOk result (λ b. b ≡ spec.by_denied_head (spec.head_in spec.denied_heads sign.now)
        sign.now number parts.items) }
{
    match denied_head(sign) {
        Some(head) => {
            let denied = two(alloc, head, parts)?;
            Both::unary(alloc, Head::Not, denied)
        }
        None => other_infix(alloc, sign, number, parts),
    }
}

/// An infix operator over its operands; the number is that of its declaration, if it has one.
pub fn by_infix(
    alloc: Global,
    sign: &[u8],
    number: Option<u64>,
    parts: Vec<Both>,
) -> Result<Both, Memory>
    ensures { IfOk result (λ b. b ≡ spec.by_infix sign.now number parts.items) }
{
    match infix_head(sign) {
        Some(head) => two(alloc, head, parts),
        None => by_denied(alloc, sign, number, parts),
    }
}
