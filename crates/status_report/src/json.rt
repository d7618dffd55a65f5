//! The report as a JSON object.

ghost use Rattle.std.specs.Prelude.{◌≡◌, ◌++◌, Bool, true, codes, decimal, OnOk};
ghost use Rattle.status_report.specs.Json.{quoted, key, next_key, comma, turns_json, valuation_json, word_json, verdict_json, leaf_json, leaves_json, front_json, middle_json, theorem_json, stopped_json, opening_json, tell_json, tell_all_json, tell_module_json, tell_modules_json, counts_json};
ghost use Rattle.status_report.specs.Styles.{head_json};
ghost use Rattle.status_report.specs.Statuses.{status_in};
ghost use Rattle.status_report.specs.Report.{status_text};
ghost use Rattle.status_report.specs.Telling.{seen_of, status_of, told_of, with_text};

use crate::judge::Status;
use crate::seen::Seen;
use crate::table::{LeafIn, ModuleIn, Shown, TheoremIn};
use crate::tell::Told;
use crate::text::{name_of, push_number};
use core_expr::{Memory, Text};
use std::alloc::AllocError;

/// Appends a text in quotation marks.
fn push_quoted(out: &mut Vec<u8>, text: &[u8]) -> Result<(), AllocError>
    ensures { OnOk result (out.new.items ≡ out.old.items ++ quoted text.now) }
{
    out.extend_from_slice(b"\"")?;
    out.extend_from_slice(text)?;
    out.extend_from_slice(b"\"")
}

/// Appends a key before its value.
fn push_key(out: &mut Vec<u8>, name: &[u8]) -> Result<(), AllocError>
    ensures { OnOk result (out.new.items ≡ out.old.items ++ key name.now) }
{
    push_quoted(out, name)?;
    out.extend_from_slice(b":")
}

/// Appends a key behind another value.
fn push_next_key(out: &mut Vec<u8>, name: &[u8]) -> Result<(), AllocError>
    ensures { OnOk result (out.new.items ≡ out.old.items ++ next_key name.now) }
{
    out.extend_from_slice(b",")?;
    push_key(out, name)
}

/// Appends what stands before an item of an array.
fn push_comma(out: &mut Vec<u8>, first: bool) -> Result<(), AllocError>
    ensures { OnOk result (out.new.items ≡ out.old.items ++ comma first) }
{
    if first {
        return Ok(());
    }
    out.extend_from_slice(b",")
}

/// Appends a number of turns.
fn push_turns(out: &mut Vec<u8>, turns: u64) -> Result<(), AllocError>
    ensures { OnOk result (out.new.items ≡ out.old.items ++ turns_json turns) }
{
    push_next_key(out, b"turns")?;
    push_number(out, turns)
}

/// Appends the text of a valuation, where there is one.
fn push_valuation(out: &mut Vec<u8>, valuation: &Option<Text>) -> Result<(), AllocError>
    ensures { OnOk result (out.new.items ≡ out.old.items ++ valuation_json valuation.now) }
{
    match valuation {
        None => Ok(()),
        Some(text) => {
            push_next_key(out, b"valuation")?;
            push_quoted(out, text.bytes())
        }
    }
}

/// Appends the verdict of a leaf.
fn push_word(out: &mut Vec<u8>, word: &[u8]) -> Result<(), AllocError>
    ensures { OnOk result (out.new.items ≡ out.old.items ++ word_json word.now) }
{
    push_next_key(out, b"verdict")?;
    push_quoted(out, word)
}

/// Appends turns and a verdict.
fn push_after(out: &mut Vec<u8>, turns: u64, word: &[u8]) -> Result<(), AllocError>
    ensures { OnOk result (out.new.items ≡ out.old.items ++ (turns_json turns ++ word_json word.now)) }
{
    push_turns(out, turns)?;
    push_word(out, word)
}

/// Appends what a saturated leaf comes to.
fn push_saturated(out: &mut Vec<u8>, turns: u64, valuation: &Option<Text>) -> Result<(), AllocError>
    ensures { OnOk result (out.new.items ≡ out.old.items
        ++ (turns_json turns ++ valuation_json valuation.now ++ word_json (codes "saturated"))) }
{
    push_turns(out, turns)?;
    push_valuation(out, valuation)?;
    push_word(out, b"saturated")
}

/// Appends what a leaf comes to.
fn push_verdict(out: &mut Vec<u8>, verdict: &Shown) -> Result<(), AllocError>
    ensures { OnOk result (out.new.items ≡ out.old.items ++ verdict_json verdict.now) }
{
    match verdict {
        Shown::Proved(turns) => push_after(out, *turns, b"proved"),
        Shown::Cached => push_after(out, 0, b"cached"),
        Shown::Saturated(turns, valuation) => push_saturated(out, *turns, valuation),
        Shown::Spent(turns) => push_after(out, *turns, b"spent"),
        Shown::Memory => push_word(out, b"memory"),
        Shown::Temporal => push_word(out, b"temporal"),
        Shown::Shape => push_word(out, b"shape"),
        Shown::Omitted => push_word(out, b"omitted"),
        Shown::Missing => push_word(out, b"missing"),
    }
}

/// Appends a leaf.
fn push_leaf(out: &mut Vec<u8>, leaf: &LeafIn) -> Result<(), AllocError>
    ensures { OnOk result (out.new.items ≡ out.old.items ++ leaf_json leaf.now) }
{
    out.extend_from_slice(b"{")?;
    push_key(out, b"column")?;
    push_number(out, leaf.place.column)?;
    push_next_key(out, b"line")?;
    push_number(out, leaf.place.line)?;
    push_verdict(out, &leaf.verdict)?;
    out.extend_from_slice(b"}")
}

/// Appends leaves, with a comma between each two.
fn push_leaves(out: &mut Vec<u8>, leaves: &[LeafIn]) -> Result<(), AllocError>
    ensures { OnOk result (out.new.items ≡ out.old.items ++ leaves_json true leaves.now) }
{
    for i in 0..leaves.len() {
        push_comma(out, i == 0)?;
        push_leaf(out, &leaves[i])?;
    }
    Ok(())
}

/// Appends whether the run was stopped.
fn push_stopped(out: &mut Vec<u8>, stopped: bool) -> Result<(), AllocError>
    ensures { OnOk result (out.new.items ≡ out.old.items ++ stopped_json stopped) }
{
    if !stopped {
        return Ok(());
    }
    push_next_key(out, b"stopped")?;
    out.extend_from_slice(b"true")
}

/// Appends two texts, one behind the other, in quotation marks.
fn push_both(out: &mut Vec<u8>, first: &[u8], second: &[u8]) -> Result<(), AllocError>
    ensures { OnOk result (out.new.items ≡ out.old.items ++ quoted (first.now ++ second.now)) }
{
    out.extend_from_slice(b"\"")?;
    out.extend_from_slice(first)?;
    out.extend_from_slice(second)?;
    out.extend_from_slice(b"\"")
}

/// Appends a status.
fn push_status(out: &mut Vec<u8>, seen: &Seen, status: Status) -> Result<(), AllocError>
    ensures { OnOk result (out.new.items
        ≡ out.old.items ++ quoted (status_text (seen_of seen.now).name (status_of status))) }
{
    match status {
        Status::Leaf(verdict) => push_quoted(out, verdict.word()),
        Status::Conditional(key) => push_both(out, b"conditional ", seen.name(key)),
    }
}

/// Appends what comes before a theorem's line.
fn push_front(out: &mut Vec<u8>, theorem: &TheoremIn) -> Result<(), AllocError>
    ensures { OnOk result (out.new.items ≡ out.old.items ++ front_json theorem.now) }
{
    out.extend_from_slice(b"{")?;
    push_key(out, b"column")?;
    push_number(out, theorem.place.column)?;
    push_next_key(out, b"leaves")?;
    out.extend_from_slice(b"[")?;
    push_leaves(out, theorem.leaves.as_slice())?;
    out.extend_from_slice(b"]")
}

/// Appends a theorem's line and name.
fn push_middle(out: &mut Vec<u8>, theorem: &TheoremIn) -> Result<(), AllocError>
    ensures { OnOk result (out.new.items ≡ out.old.items ++ middle_json theorem.now) }
{
    push_next_key(out, b"line")?;
    push_number(out, theorem.place.line)?;
    push_next_key(out, b"name")?;
    push_quoted(out, name_of(&theorem.name))
}

/// Appends a theorem with a status.
#[tactic(auto, unfolding(crate::specs::Json::theorem_json))]
fn push_theorem(
    out: &mut Vec<u8>,
    seen: &Seen,
    theorem: &TheoremIn,
    status: Status,
) -> Result<(), AllocError>
    requires { status_of status ≡ status_in (seen_of seen.now) theorem.now }
    ensures { OnOk result (out.new.items
        ≡ out.old.items ++ theorem_json (seen_of seen.now) theorem.now) }
{
    push_front(out, theorem)?;
    push_middle(out, theorem)?;
    push_next_key(out, b"status")?;
    push_status(out, seen, status)?;
    out.extend_from_slice(b"}")
}

/// Tells a theorem.
fn tell<'a>(told: &mut Told<'a>, first: bool, theorem: &'a TheoremIn) -> Result<(), Memory>
    ensures { OnOk result (told_of told.new ≡ tell_json first (told_of told.old) theorem.now) }
{
    let status = told.seen.status(theorem);
    push_comma(&mut told.text, first)?;
    push_theorem(&mut told.text, &told.seen, theorem, status)?;
    let proved = status.is_proved();
    told.seen.see(theorem, proved)?;
    told.proved.push(proved)?;
    Ok(())
}

/// Tells theorems in order.
fn tell_all<'a>(told: &mut Told<'a>, theorems: &'a [TheoremIn]) -> Result<(), Memory>
    ensures { OnOk result (told_of told.new ≡ tell_all_json true (told_of told.old) theorems.now) }
{
    for i in 0..theorems.len() {
        tell(told, i == 0, &theorems[i])?;
    }
    Ok(())
}

/// Appends what stands before a module's theorems.
#[tactic(auto, unfolding(crate::specs::Json::opening_json))]
fn push_opening(out: &mut Vec<u8>, first: bool, name: &[u8]) -> Result<(), AllocError>
    ensures { OnOk result (out.new.items ≡ out.old.items ++ opening_json first name.now) }
{
    push_comma(out, first)?;
    out.extend_from_slice(b"{")?;
    push_key(out, b"name")?;
    push_quoted(out, name)?;
    push_next_key(out, b"theorems")?;
    out.extend_from_slice(b"[")
}

/// Tells a module.
fn tell_module<'a>(told: &mut Told<'a>, first: bool, home: &'a ModuleIn) -> Result<(), Memory>
    ensures { OnOk result (told_of told.new ≡ tell_module_json first (told_of told.old) home.now) }
{
    push_opening(&mut told.text, first, home.name.bytes())?;
    tell_all(told, home.theorems.as_slice())?;
    told.text.extend_from_slice(b"]}")?;
    Ok(())
}

/// Tells modules in order.
fn tell_modules<'a>(told: &mut Told<'a>, modules: &'a [ModuleIn]) -> Result<(), Memory>
    ensures { OnOk result (told_of told.new ≡ tell_modules_json true (told_of told.old) modules.now) }
{
    for i in 0..modules.len() {
        tell_module(told, i == 0, &modules[i])?;
    }
    Ok(())
}

/// Appends the counts, and the end of the object.
pub fn push_counts(
    out: &mut Vec<u8>,
    theorems: usize,
    proved: usize,
    stopped: bool,
) -> Result<(), AllocError>
    ensures { OnOk result (out.new.items ≡ out.old.items ++ counts_json stopped theorems proved) }
{
    push_key(out, b"proved")?;
    push_number(out, proved as u64)?;
    push_stopped(out, stopped)?;
    push_next_key(out, b"theorems")?;
    push_number(out, theorems as u64)?;
    out.extend_from_slice(b"}\n")
}

/// Tells the modules as the first value of an object.
pub fn tell_first<'a>(told: &mut Told<'a>, modules: &'a [ModuleIn]) -> Result<(), Memory>
    ensures { OnOk result (told_of told.new
        ≡ with_text (codes "],") (tell_modules_json true (with_text head_json (told_of told.old)) modules.now)) }
{
    told.text.extend_from_slice(b"{")?;
    push_key(&mut told.text, b"modules")?;
    told.text.extend_from_slice(b"[")?;
    tell_modules(told, modules)?;
    told.text.extend_from_slice(b"],")?;
    Ok(())
}
