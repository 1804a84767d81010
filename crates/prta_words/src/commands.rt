//! The commands, as `clap` is told of them.

ghost use Rattle.std.specs.Prelude.{◌≡◌, IfOk};
ghost use Rattle.clap.specs.Simple.{app_of};
ghost use Rattle.prta_words.specs.Commands.{analyse, bare, pair, single, triple};

use clap::{Arg, ArgAction, Command};
use std::alloc::{AllocError, Global};

// A command that takes its words as they are, and has no flag of its own.
fn bare_command<'a>(alloc: Global) -> Command<'a>
    ensures { app_of result ≡ bare }
{
    Command::new(alloc, "words")
        .no_binary_name(true)
        .disable_help_flag(true)
        .disable_version_flag(true)
}

// One name, and the flag `--csv`.
pub(crate) fn sheet_command<'a>(alloc: Global) -> Result<Command<'a>, AllocError>
    ensures { IfOk result (λ command. app_of command ≡ analyse) }
{
    let sheet = Arg::new(alloc, "sheet")
        .required(true)
        .action(ArgAction::Set);
    let csv = Arg::new(alloc, "csv")
        .long("csv")
        .action(ArgAction::SetTrue);
    bare_command(alloc).arg(sheet)?.arg(csv)
}

// One name.
pub(crate) fn single_command<'a>(alloc: Global) -> Result<Command<'a>, AllocError>
    ensures { IfOk result (λ command. app_of command ≡ single) }
{
    let name = Arg::new(alloc, "name")
        .required(true)
        .action(ArgAction::Set);
    bare_command(alloc).arg(name)
}

// Two names.
pub(crate) fn pair_command<'a>(alloc: Global) -> Result<Command<'a>, AllocError>
    ensures { IfOk result (λ command. app_of command ≡ pair) }
{
    let first = Arg::new(alloc, "first")
        .required(true)
        .action(ArgAction::Set);
    let second = Arg::new(alloc, "second")
        .required(true)
        .action(ArgAction::Set);
    bare_command(alloc).arg(first)?.arg(second)
}

// Three names.
pub(crate) fn triple_command<'a>(alloc: Global) -> Result<Command<'a>, AllocError>
    ensures { IfOk result (λ command. app_of command ≡ triple) }
{
    let third = Arg::new(alloc, "third")
        .required(true)
        .action(ArgAction::Set);
    pair_command(alloc)?.arg(third)
}
