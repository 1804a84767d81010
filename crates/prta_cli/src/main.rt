//! `prta`: proved bounds on the chance that a job misses its deadline.
#![tactic(auto)]

mod commands;
mod counts;
mod ending;
mod input;
mod leave;
mod refused;
mod run;
mod script;
mod sheet;
mod simulation;
mod status;
#[cfg(test)]
mod tests;
mod times;
mod verification;
mod words;

ghost use Rattle.std.specs.Prelude.{◌≡◌, ◌≢◌, ◌⊎◌, IfErr};
ghost use Rattle.std.specs.Process.{exit_status};
ghost use Rattle.prta_outside.specs.Sink.{HasRisen};
ghost use Rattle.prta_cli.specs.Ending.{IsServed};

use leave::{exit_code, without_words};
use prta_outside::{FolderShelf, StdSink};
use run::run;
use status::Status;
use std::alloc::Global;
use std::env::{self, Args};
use std::io::{Stderr, Stdout};
use std::process::ExitCode;
use std::rt::Files;

fn main(rt: HostRuntime) -> ExitCode {
    let words = match words_of(&rt) {
        Ok(words) => words,
        Err(code) => return code,
    };
    let mut shelf = FolderShelf::new(&rt, rt.alloc());
    let mut out = StdSink::new(rt.stdout());
    let mut err = StdSink::new(rt.stderr());
    exit_code(serve(rt.alloc(), &words, &mut shelf, &mut out, &mut err))
}

// Runs over files, the standard output and the standard error: a line on what is wrong leaves the standard output alone.
fn serve<R: Files>(
    alloc: Global,
    words: &[String],
    shelf: &mut FolderShelf<'_, R>,
    out: &mut StdSink<Stdout>,
    err: &mut StdSink<Stderr>,
) -> Status
    ensures write_fault { result ≡ Status.WriteFault → HasRisen out.old.faults out.new.faults }
    ensures nothing { ¬ IsServed result → result ≢ Status.WriteFault → out.new ≡ out.old }
    ensures no_read_fault { result ≢ Status.ReadFault → shelf.new.failed ≡ shelf.old.failed }
{
    run(alloc, words, shelf, out, err)
}

// The words after the program's name, or the number to end with: 7 for want of memory, else 9.
fn words_of(rt: &HostRuntime) -> Result<Vec<String>, ExitCode>
    ensures { IfErr result (λ code. (exit_status code ≡ 7) ⊎ (exit_status code ≡ 9)) }
{
    let mut args = match env::args(rt) {
        Ok(args) => args,
        Err(fault) => return Err(without_words(fault.kind())),
    };
    let _program = args.next();
    collected(rt.alloc(), args)
}

// The words that are left, or the number for want of memory.
fn collected(alloc: Global, args: Args) -> Result<Vec<String>, ExitCode>
    ensures { IfErr result (λ code. exit_status code ≡ 7) }
{
    match args.collect(alloc) {
        Ok(words) => Ok(words),
        Err(_) => Err(exit_code(Status::NoMemory)),
    }
}
