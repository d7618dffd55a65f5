//! What the words ask for.
ghost use Rattle.std.specs.Prelude.{◌≡◌, ℕ, List, Option, map, option_map, IfOk, IfErr, IfSome, IfNone, string_bytes};
ghost use Rattle.command_words.specs.Words.{IsTaken, rows};
ghost use Rattle.command_words.specs.Requests.{Asked, Gives, GivesAsked, IsAsked, IsRoot, IsDemo, Unlawful, asked_by, flag_of, without_ending};

use crate::fault::WordsFault;
use crate::matched::matches_for;
use crate::number::number;
use std::alloc::Global;
use tla_ast::is_identifier;

/// The texts that the words give.
#[derive(Clone, Copy)]
pub struct Given<'a> {
    pub root: Option<&'a str>,
    pub turns: Option<&'a str>,
    pub workers: Option<&'a str>,
    pub demo: Option<&'a str>,
    pub stop: Option<&'a str>,
    pub json: Option<&'a str>,
    pub cache: Option<&'a str>,
}

/// What the words ask for.
#[derive(Clone, Copy)]
pub struct Request<'a> {
    /// The name of the root module, without the ending `.tla`.
    pub root: &'a str,
    /// The limit of each search, in turns: 1 to 1000000, 100000 where the words say nothing.
    pub turns: u64,
    /// How many workers prove jobs: 1 to 64, 4 where the words say nothing.
    pub workers: u64,
    /// How many theorems a demonstration has, where one is asked for: 1 to 1000.
    pub demo: Option<u64>,
    /// Whether the first failed leaf ends the run.
    pub stop: bool,
    /// Whether the report is a JSON object.
    pub json: bool,
    /// The file of the cache, where one is asked for.
    pub cache: Option<&'a str>,
}

/// The texts that the words give.
fn read<'a>(alloc: Global, words: &'a [String]) -> Result<Given<'a>, WordsFault>
    ensures taken { IfOk result (λ g. IsTaken (map string_bytes words.entry.now)) }
    ensures refused { IfErr result (λ e. e ≡ WordsFault.Words
        → IsTaken (map string_bytes words.entry.now) → ⊥) }
    ensures given { IfOk result (λ g. Gives (rows (map string_bytes words.entry.now)) g) }
{
    let matches = matches_for(alloc, words)?;
    Ok(Given {
        root: matches.get_str("module"),
        turns: matches.get_str("turns"),
        workers: matches.get_str("workers"),
        demo: matches.get_str("demo"),
        stop: matches.get_str("stop"),
        json: matches.get_str("json"),
        cache: matches.get_str("cache"),
    })
}

/// The word without one ending `.tla`.
fn without_ending(word: &str) -> &str
    ensures { result.now ≡ without_ending word.now }
{
    match word.strip_suffix(".tla") {
        Some(name) => name,
        None => word,
    }
}

/// The root module's name, by the word for it.
fn root(word: Option<&str>) -> Option<&str>
    ensures some { IfSome result (λ s. IsRoot (option_map (λ w. w.now) word.entry) s.now) }
    ensures none { IfNone result ((name : List ℕ)
        → IsRoot (option_map (λ w. w.now) word.entry) name → ⊥) }
{
    let name = without_ending(word?);
    if is_identifier(name.as_bytes()) {
        Some(name)
    } else {
        None
    }
}

/// The number of theorems of a demonstration, by the text for it.
fn demo(text: Option<&str>) -> Option<Option<u64>>
    ensures some { IfSome result (IsDemo (option_map (λ s. s.now) text.entry)) }
    ensures none { IfNone result ((o : Option ℕ) → IsDemo (option_map (λ s. s.now) text.entry) o → ⊥) }
{
    match text {
        None => Some(None),
        Some(text) => match number(Some(text), 1, 1000) {
            None => None,
            Some(count) => Some(Some(count)),
        },
    }
}

/// Whether a flag is set, by the text for it.
fn flag(text: Option<&str>) -> bool
    ensures { result ≡ flag_of (option_map (λ s. s.now) text.entry) }
{
    match text {
        None => false,
        Some(text) => text == "true",
    }
}

/// What texts ask for: None exactly where they ask for nothing.
fn asked_for<'a>(given: Given<'a>) -> Option<Request<'a>>
    ensures some { IfSome result (λ r. GivesAsked given.entry (asked_by r)) }
    ensures none { IfNone result ((a : Asked) → GivesAsked given.entry a → ⊥) }
{
    Some(Request {
        root: root(given.root)?,
        turns: number(given.turns, 100000, 1000000)?,
        workers: number(given.workers, 4, 64)?,
        demo: demo(given.demo)?,
        stop: flag(given.stop),
        json: flag(given.json),
        cache: given.cache,
    })
}

/// What the words ask for. They are refused as unlawful exactly where they ask for nothing.
pub fn asked<'a>(alloc: Global, words: &'a [String]) -> Result<Request<'a>, WordsFault>
    ensures asked { IfOk result (λ r. IsAsked (map string_bytes words.entry.now) (asked_by r)) }
    ensures unlawful { IfErr result (λ e.
        e ≡ WordsFault.Words → Unlawful (map string_bytes words.entry.now)) }
{
    let given = read(alloc, words)?;
    match asked_for(given) {
        Some(request) => Ok(request),
        None => Err(WordsFault::Words),
    }
}
