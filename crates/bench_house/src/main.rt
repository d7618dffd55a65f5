//! Times the lexer, the reader of expressions and the whole run, as LLVM builds them. Each text is tried at a tenth of its
//! size ten times as often, and then at its size: where the time is linear, both lines tell about the same time.
#![tactic(auto)]

mod cases;

use cases::{Case, expressions, lexer, theorems};
use core_expr::{Memory, Text};
use itoa::Buffer;
use layout_parser::read_expr;
use proof_manager::{Through, run};
use std::alloc::Global;
use std::io;
use std::thread::Threads;
use std::time::{Clock, Instant};
use tla_io::{MemCache, MemShelf, MemSink, command_words};
use tla_lexer::lex;

/// What is timed.
#[derive(Clone, Copy, Debug, PartialEq, Eq)]
enum Layer {
    Lexer,
    Expressions,
    Theorems,
}

/// Puts a unit behind a text as often as that, each with its number in the place of `#`.
fn repeat(text: &mut Vec<u8>, unit: &[u8], count: u32) -> Result<(), Memory> {
    for number in 0..count {
        for byte in unit {
            if *byte == b'#' {
                let mut digits = Buffer::new();
                text.extend_from_slice(digits.format(number).as_bytes())?;
            } else {
                text.push(*byte)?;
            }
        }
    }
    Ok(())
}

/// The text of a case at a size.
fn text_of(alloc: Global, case: &Case, count: u32) -> Result<Vec<u8>, Memory> {
    let mut text = Vec::from_slice(alloc, case.before)?;
    repeat(&mut text, case.open, count)?;
    text.extend_from_slice(case.middle)?;
    repeat(&mut text, case.close, count)?;
    text.extend_from_slice(case.after)?;
    Ok(text)
}

/// Whether the expression at the front of a text is read.
fn is_read(alloc: Global, text: &[u8]) -> bool {
    match lex(alloc, text) {
        Ok(tokens) => !tokens.list.is_empty() && read_expr(alloc, &tokens, 0, 0, 0).is_ok(),
        Err(_) => false,
    }
}

/// Whether the run on a text wrote its report.
fn is_answered<R: Threads + Sync>(rt: &R, alloc: Global, text: &[u8]) -> Result<bool, Memory> {
    let mut words = Vec::new(alloc);
    words.push(String::from_str(alloc, "tla_prove")?)?;
    words.push(String::from_str(alloc, "M")?)?;
    let mut entries = Vec::new(alloc);
    entries.push((Text::of(alloc, b"M")?, Vec::from_slice(alloc, text)?))?;
    let mut shelf = MemShelf::new(entries, Vec::new(alloc));
    let mut cache = MemCache::new(Text::of(alloc, b"f")?, Vec::new(alloc), Vec::new(alloc));
    let room = 1 << 30;
    let mut sink = MemSink::new(alloc, room, room, Vec::new(alloc))?;
    let status = run(
        rt, alloc, &words, &mut shelf, &mut cache, &mut sink, &Through,
    );
    Ok(status.code() < 2)
}

/// Does once what is timed, and answers whether that went well.
fn once<R: Threads + Sync>(
    rt: &R,
    alloc: Global,
    layer: Layer,
    text: &[u8],
) -> Result<bool, Memory> {
    match layer {
        Layer::Lexer => Ok(lex(alloc, text).is_ok()),
        Layer::Expressions => Ok(is_read(alloc, text)),
        Layer::Theorems => is_answered(rt, alloc, text),
    }
}

/// Times a case at a size.
fn time<R: Clock + Print + AllocGlobal + Threads + Sync>(
    rt: &R,
    layer: Layer,
    case: &Case,
    count: u32,
    rounds: u32,
) -> io::Result<()> {
    let Ok(text) = text_of(rt.alloc(), case, count) else {
        return Ok(());
    };
    let start = Instant::now(rt)?;
    let mut is_well = false;
    for _ in 0..rounds {
        is_well = once(rt, rt.alloc(), layer, &text).unwrap_or(false);
    }
    let micros = start.elapsed(rt)?.as_micros();
    let (name, bytes) = (case.name, text.len());
    println!(rt; "{name}: {bytes} bytes, {rounds} rounds, {micros} us, read: {is_well}")
}

/// Times each case of a layer.
fn time_all<R: Clock + Print + AllocGlobal + Threads + Sync>(
    rt: &R,
    layer: Layer,
    cases: &[Case],
) -> io::Result<()> {
    for case in cases {
        time(
            rt,
            layer,
            case,
            case.count / 10,
            case.rounds.saturating_mul(10),
        )?;
        time(rt, layer, case, case.count, case.rounds)?;
    }
    Ok(())
}

fn main(rt: HostRuntime) -> io::Result<()> {
    let words = command_words(&rt).unwrap_or_else(|_| Vec::new(rt.alloc()));
    match words.get(1).map(|word| word.as_str()) {
        Some("lexer") => time_all(&rt, Layer::Lexer, &lexer()),
        Some("expressions") => time_all(&rt, Layer::Expressions, &expressions()),
        Some("theorems") => time_all(&rt, Layer::Theorems, &theorems()),
        _ => println!(rt; "times one of: lexer, expressions, theorems"),
    }
}
