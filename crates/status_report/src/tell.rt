//! From modules to their report.

ghost use Rattle.std.specs.Prelude.{◌≡◌, ◌++◌, fold, length, count_by, codes, IfOk, OnOk};
ghost use Rattle.std.specs.List.{list_any};
ghost use Rattle.proof_contexts.specs.Statuses.{is_proved};
ghost use Rattle.status_report.specs.Texts.{line};
ghost use Rattle.status_report.specs.Statuses.{status_in};
ghost use Rattle.status_report.specs.Report.{status_text, theorem_line, theorem_lines, theorem_count, proved_count, in_style, is_memory, wants_memory, has_memory_leaf};
ghost use Rattle.status_report.specs.Telling.{seen_of, status_of, told_of, tell, tell_module};
ghost use Rattle.status_report.specs.Styles.{counts_text, report_text, tell_body};

use crate::json;
use crate::judge::Status;
use crate::seen::Seen;
use crate::table::{LeafIn, ModuleIn, Report, Shown, Style, TheoremIn};
use crate::text::{name_of, push_count, push_leaves, push_line, push_place};
use core_expr::Memory;
use std::alloc::{AllocError, Global};

/// What is known of the theorems so far, the text, and for each theorem whether it is proved.
#[derive(Drop)]
pub(crate) struct Told<'a> {
    pub seen: Seen<'a>,
    pub text: Vec<u8>,
    pub proved: Vec<bool>,
}

/// Appends a status and the end of the line.
fn push_status(out: &mut Vec<u8>, seen: &Seen, status: Status) -> Result<(), AllocError>
    ensures { OnOk result (out.new.items
        ≡ out.old.items ++ line (status_text (seen_of seen.now).name (status_of status))) }
{
    match status {
        Status::Leaf(verdict) => push_line(out, b"", verdict.word()),
        Status::Conditional(key) => push_line(out, b"conditional ", seen.name(key)),
    }
}

/// Appends the line of a theorem with a status.
fn push_theorem_line(
    out: &mut Vec<u8>,
    seen: &Seen,
    theorem: &TheoremIn,
    status: Status,
) -> Result<(), AllocError>
    requires { status_of status ≡ status_in (seen_of seen.now) theorem.now }
    ensures { OnOk result (out.new.items
        ≡ out.old.items ++ theorem_line (seen_of seen.now) theorem.now) }
{
    out.extend_from_slice(b"theorem ")?;
    out.extend_from_slice(name_of(&theorem.name))?;
    out.extend_from_slice(b" ")?;
    push_place(out, theorem.place)?;
    out.extend_from_slice(b" ")?;
    push_status(out, seen, status)
}

/// Appends the lines of a theorem with a status.
fn push_theorem(
    out: &mut Vec<u8>,
    seen: &Seen,
    theorem: &TheoremIn,
    status: Status,
) -> Result<(), AllocError>
    requires { status_of status ≡ status_in (seen_of seen.now) theorem.now }
    ensures { OnOk result (out.new.items
        ≡ out.old.items ++ theorem_lines (seen_of seen.now) theorem.now) }
{
    push_theorem_line(out, seen, theorem, status)?;
    push_leaves(out, theorem.leaves.as_slice())
}

/// Tells a theorem.
fn tell<'a>(told: &mut Told<'a>, style: Style, theorem: &'a TheoremIn) -> Result<(), Memory>
    ensures { OnOk result (told_of told.new ≡ tell style (told_of told.old) theorem.now) }
{
    let status = told.seen.status(theorem);
    if let Style::Plain = style {
        push_theorem(&mut told.text, &told.seen, theorem, status)?;
    }
    let proved = status.is_proved();
    told.seen.see(theorem, proved)?;
    told.proved.push(proved)?;
    Ok(())
}

/// Tells theorems in order.
fn tell_theorems<'a>(
    told: &mut Told<'a>,
    style: Style,
    theorems: &'a [TheoremIn],
) -> Result<(), Memory>
    ensures { OnOk result (told_of told.new ≡ fold (tell style) (told_of told.old) theorems.now) }
{
    for theorem in theorems {
        tell(told, style, theorem)?;
    }
    Ok(())
}

/// Appends the first line of a module.
fn push_header(text: &mut Vec<u8>, style: Style, name: &[u8]) -> Result<(), AllocError>
    ensures { OnOk result (text.new.items
        ≡ text.old.items ++ in_style style (line (codes "module " ++ name.now))) }
{
    match style {
        Style::Plain => push_line(text, b"module ", name),
        _ => Ok(()),
    }
}

/// Tells a module.
fn tell_module<'a>(told: &mut Told<'a>, style: Style, home: &'a ModuleIn) -> Result<(), Memory>
    ensures { OnOk result (told_of told.new ≡ tell_module style (told_of told.old) home.now) }
{
    push_header(&mut told.text, style, home.name.bytes())?;
    tell_theorems(told, style, home.theorems.as_slice())
}

/// Tells modules in order.
fn tell_modules<'a>(
    told: &mut Told<'a>,
    style: Style,
    modules: &'a [ModuleIn],
) -> Result<(), Memory>
    ensures { OnOk result (told_of told.new
        ≡ fold (tell_module style) (told_of told.old) modules.now) }
{
    for home in modules {
        tell_module(told, style, home)?;
    }
    Ok(())
}

/// Tells modules in a style, before the counts.
fn tell_body<'a>(told: &mut Told<'a>, style: Style, modules: &'a [ModuleIn]) -> Result<(), Memory>
    ensures { OnOk result (told_of told.new ≡ tell_body style (told_of told.old) modules.now) }
{
    match style {
        Style::Plain => tell_modules(told, Style::Plain, modules),
        Style::Json => json::tell_first(told, modules),
        Style::Brief => tell_modules(told, Style::Brief, modules),
        Style::BriefJson => {
            told.text.extend_from_slice(b"{")?;
            tell_modules(told, Style::BriefJson, modules)
        }
    }
}

/// Appends the counts in a style.
fn push_counts(
    out: &mut Vec<u8>,
    style: Style,
    theorems: usize,
    proved: usize,
    stopped: bool,
) -> Result<(), AllocError>
    ensures { OnOk result (out.new.items
        ≡ out.old.items ++ counts_text style stopped theorems proved) }
{
    match style {
        Style::Plain => push_count(out, theorems, proved, stopped),
        Style::Json => json::push_counts(out, theorems, proved, stopped),
        Style::Brief => push_count(out, theorems, proved, stopped),
        Style::BriefJson => json::push_counts(out, theorems, proved, stopped),
    }
}

/// How many are true.
fn count_true(flags: &[bool]) -> usize
    ensures { result ≡ count_by (λ v. v) flags.now }
{
    flags.iter().filter(|flag| **flag).count()
}

/// Whether a leaf wanted memory.
fn is_memory(leaf: &LeafIn) -> bool
    ensures { result ≡ is_memory leaf.now.verdict }
{
    matches!(leaf.verdict, Shown::Memory)
}

/// Whether some leaf of a theorem wanted memory.
fn wants_memory(theorem: &TheoremIn) -> bool
    ensures { result ≡ wants_memory theorem.now }
{
    theorem.leaves.as_slice().iter().any(is_memory)
}

/// Whether some leaf of a module wanted memory.
fn module_wants_memory(home: &ModuleIn) -> bool
    ensures { result ≡ list_any wants_memory home.now.theorems }
{
    home.theorems.as_slice().iter().any(wants_memory)
}

/// Whether some leaf wanted memory.
fn has_memory_leaf(modules: &[ModuleIn]) -> bool
    ensures { result ≡ has_memory_leaf modules.now }
{
    modules.iter().any(module_wants_memory)
}

/// The report of modules, which says at its end where the run was stopped. Want of memory is the only other answer. Takes near linear
/// time.
#[tactic(auto, unfolding(crate::specs::Styles::report_text))]
pub fn report(
    alloc: Global,
    modules: &[ModuleIn],
    style: Style,
    stopped: bool,
) -> Result<Report, Memory>
    ensures text { IfOk result (λ r. r.text.items ≡ report_text style stopped modules.now) }
    ensures theorems { IfOk result (λ r. r.theorems ≡ theorem_count modules.now) }
    ensures proved { IfOk result (λ r. r.proved ≡ proved_count modules.now) }
    ensures memory { IfOk result (λ r. r.memory_leaf ≡ has_memory_leaf modules.now) }
{
    let mut told = Told {
        seen: Seen::new(alloc),
        text: Vec::new(alloc),
        proved: Vec::new(alloc),
    };
    tell_body(&mut told, style, modules)?;
    let Told {
        mut text,
        proved,
        ..
    } = told;
    let flags = proved.as_slice();
    let theorems = flags.len();
    let proved = count_true(flags);
    push_counts(&mut text, style, theorems, proved, stopped)?;
    Ok(Report {
        text,
        theorems,
        proved,
        memory_leaf: has_memory_leaf(modules),
    })
}
