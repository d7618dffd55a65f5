//! The command, as `clap` reads it.
ghost use Rattle.std.specs.Prelude.{◌≡◌, pos, IfOk};
ghost use Rattle.clap.specs.Words.{app_of};
ghost use Rattle.clap.specs.declared.builder.value_parser.ValueParser.TheVariants as vp;
ghost use Rattle.command_words.specs.Words.{command_app, IsRule, module_rule, number_rule, text_rule, flag_rule};

use clap::builder::ValueParser;
use clap::{Arg, ArgAction, Command};
use std::alloc::{AllocError, Global};

/// The module's name, which has to be there.
fn module_arg<'a>(alloc: Global) -> Arg<'a>
    ensures { IsRule module_rule result }
{
    Arg::new(alloc, "module")
        .action(ArgAction::Set)
        .required(true)
}

/// An option with a number.
fn number_arg<'a>(alloc: Global, name: &'a str, parser: ValueParser<'a>) -> Arg<'a>
    ensures { IsRule (number_rule name.entry.now parser.entry) result }
{
    Arg::new(alloc, name)
        .long(name)
        .action(ArgAction::Set)
        .value_parser(parser)
}

/// An option with a text.
fn text_arg<'a>(alloc: Global, name: &'a str) -> Arg<'a>
    ensures { IsRule (text_rule name.entry.now) result }
{
    Arg::new(alloc, name).long(name).action(ArgAction::Set)
}

/// An option that is there or not.
fn flag_arg<'a>(alloc: Global, name: &'a str) -> Arg<'a>
    ensures { IsRule (flag_rule name.entry.now) result }
{
    Arg::new(alloc, name).long(name).action(ArgAction::SetTrue)
}

/// Numbers of turns.
fn turns_range<'a>() -> ValueParser<'a>
    ensures { result ≡ vp.Signed (pos 1) (pos 1000000) }
{
    clap::value_parser!(u32).range(1..=1000000)
}

/// Numbers of workers.
fn workers_range<'a>() -> ValueParser<'a>
    ensures { result ≡ vp.Signed (pos 1) (pos 64) }
{
    clap::value_parser!(u32).range(1..=64)
}

/// Numbers of theorems of a demonstration.
fn demo_range<'a>() -> ValueParser<'a>
    ensures { result ≡ vp.Signed (pos 1) (pos 1000) }
{
    clap::value_parser!(u32).range(1..=1000)
}

/// The program's command, with help and version off.
pub fn command<'a>(alloc: Global) -> Result<Command<'a>, AllocError>
    ensures { IfOk result (λ c. app_of c ≡ command_app) }
{
    let bare = Command::new(alloc, "tla_prove")
        .disable_help_flag(true)
        .disable_version_flag(true);
    let one = bare.arg(module_arg(alloc))?;
    let two = one.arg(number_arg(alloc, "turns", turns_range()))?;
    let three = two.arg(number_arg(alloc, "workers", workers_range()))?;
    let four = three.arg(number_arg(alloc, "demo", demo_range()))?;
    let five = four.arg(flag_arg(alloc, "stop"))?;
    let six = five.arg(flag_arg(alloc, "json"))?;
    let seven = six.arg(text_arg(alloc, "cache"))?;
    Ok(seven)
}
