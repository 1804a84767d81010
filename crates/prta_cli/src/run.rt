//! The top call: words, a shelf and two sinks in, a status out.

ghost use Rattle.std.specs.Prelude.{◌≡◌, ◌≢◌, ◌≤◌, ◌⊎◌, ◌∷◌, ◌++◌, [], None, IfSome, IsSomeAnd};
ghost use Rattle.prta_outside.specs.Sink.{HasRisen};
ghost use Rattle.prta_words.specs.Words.{texts};
ghost use Rattle.prta_sheet.specs.Accepted.{IsAccepted};
ghost use Rattle.prta_sheet.specs.declared.limits.TheConstants.{TASK_LIMIT};
ghost use Rattle.prta_gen.specs.Generator.{generated};
ghost use Rattle.prta_cli.specs.Words.{command, command_of, KeepsInRange, HasNumbers};
ghost use Rattle.prta_cli.specs.Answer.{answer, answer_to, answer_to_file, answer_to_sheet, answer_to_files, answer_to_seed, sheet_under as stated_under, IsAcceptedFile};
ghost use Rattle.prta_cli.specs.Ending.{status_of, line_of, IsServed, EndsBy};
ghost use Rattle.prta_cli.specs.Causes.{SheetFailed, ReadFailed, IsReadFault, IsShown, IsShownByNo, IsShownOfSheet, IsShownByNoOf, IsShownOfFiles, AnswerIs, IsOrNoMemory, IsAfterWords, IsLine, IsLineFor};
ghost use Rattle.prta_writer.specs.Writing.{Took, TookPart, TookLine};

use crate::commands::{
    assign, bench, check, import, report, session, simulate, slack, tail, verify, write_sheet,
};
use crate::ending::Ending;
use crate::sheet::sheet_under;
use crate::status::Status;
use crate::words::{Command, FilesCommand, SeedCommand, SheetCommand, command_from};
use prta_gen::{GenFault, generate};
use prta_outside::{Shelf, Sink};
use prta_sheet::Sheet;
use prta_words::WordsFault;
use prta_writer::{What, put_all};
use std::alloc::Global;

/// Does all that the program does. `words` are the words after the program's name.
pub fn run<S: Shelf, O: Sink, E: Sink>(
    alloc: Global,
    words: &[String],
    shelf: &mut S,
    out: &mut O,
    err: &mut E,
) -> Status
    // The headline: the text that out took, and what it shows of the sheet.
    ensures done { result ≡ Status.Done → AnswerIs (S.held shelf.old) (texts words.now) Status.Done }
    ensures no { result ≡ Status.No → AnswerIs (S.held shelf.old) (texts words.now) Status.No }
    ensures text { IsServed result → IfSome (S.held shelf.old) (λ files. Took (O.taken out.old) (O.taken out.new) (answer files (texts words.now)).out) }
    ensures shown { result ≡ Status.Done → IfSome (S.held shelf.old) (λ files. IsSomeAnd (command (texts words.now)) (IsShown files)) }
    ensures shown_by_no { result ≡ Status.No → IfSome (S.held shelf.old) (λ files. IsSomeAnd (command (texts words.now)) (IsShownByNo files)) }

    // The cause of every other status; want of memory is free.
    ensures usage { result ≡ Status.Usage → command (texts words.now) ≡ None }
    ensures usage_where { command (texts words.now) ≡ None → IsOrNoMemory result Status.Usage }
    ensures sheet_refused { result ≡ Status.SheetRefused → AnswerIs (S.held shelf.old) (texts words.now) Status.SheetRefused }
    ensures sheet_refused_where { ¬ SheetFailed (texts words.now) (S.faults shelf.old) (S.faults shelf.new) →
        IfSome (S.held shelf.old) (λ files. (answer files (texts words.now)).status ≡ Status.SheetRefused → IsOrNoMemory result Status.SheetRefused) }
    ensures input_refused { result ≡ Status.InputRefused → AnswerIs (S.held shelf.old) (texts words.now) Status.InputRefused }
    ensures input_refused_where { ¬ ReadFailed (texts words.now) (S.faults shelf.old) (S.faults shelf.new) →
        IfSome (S.held shelf.old) (λ files. (answer files (texts words.now)).status ≡ Status.InputRefused → IsOrNoMemory result Status.InputRefused) }
    ensures read_fault { result ≡ Status.ReadFault → IsSomeAnd (command (texts words.now)) (λ c. IsReadFault (S.held shelf.old) c (S.faults shelf.old) (S.faults shelf.new)) }
    ensures no_read_fault { result ≢ Status.ReadFault → S.faults shelf.new ≡ S.faults shelf.old }
    ensures write_fault { result ≡ Status.WriteFault → HasRisen (O.faults out.old) (O.faults out.new) }
    ensures write_fault_for_text { result ≡ Status.WriteFault → IfSome (S.held shelf.old) (λ files. IsServed (answer files (texts words.now)).status) }

    // Completeness: without a fault of the outside the status is the answer's.
    ensures complete { ¬ ReadFailed (texts words.now) (S.faults shelf.old) (S.faults shelf.new) → ¬ HasRisen (O.faults out.old) (O.faults out.new) →
        IfSome (S.held shelf.old) (λ files. IsOrNoMemory result (answer files (texts words.now)).status) }

    // What else out took, and what err took.
    ensures part { result ≡ Status.WriteFault → IfSome (S.held shelf.old) (λ files. TookPart (O.taken out.old) (O.taken out.new) (answer files (texts words.now)).out) }
    ensures nothing { ¬ IsServed result → result ≢ Status.WriteFault → out.new ≡ out.old }
    ensures quiet { IsServed result → E.taken err.new ≡ E.taken err.old }
    ensures line { TookLine (E.taken err.old) (E.taken err.new) (HasRisen (E.faults err.old) (E.faults err.new)) (IsLineFor (S.held shelf.old) (texts words.now) result) }
    ensures kept { S.held shelf.new ≡ S.held shelf.old }
{
    let ending = obey(alloc, words, shelf, out);
    tell(&ending, err);
    ending.status()
}

// The line of the ending on err; a fault there changes no status.
fn tell<E: Sink>(ending: &Ending, err: &mut E)
    ensures quiet { IsServed (status_of ending.now) → E.taken err.new ≡ E.taken err.old }
    ensures line { TookPart (E.taken err.old) (E.taken err.new) (line_of ending.now) }
    ensures whole_line { ¬ HasRisen (E.faults err.old) (E.faults err.new) → Took (E.taken err.old) (E.taken err.new) (line_of ending.now) }
{
    let _ = put_all(err, ending.line());
}

// Does what the words ask for, without the line on err.
fn obey<S: Shelf, O: Sink>(alloc: Global, words: &[String], shelf: &mut S, out: &mut O) -> Ending
    ensures ends { IfSome (S.held shelf.old) (λ files. EndsBy result (answer files (texts words.now)) (O.taken out.old) (O.taken out.new)) }
    ensures shown { status_of result ≡ Status.Done → IfSome (S.held shelf.old) (λ files. IsSomeAnd (command (texts words.now)) (IsShown files)) }
    ensures shown_by_no { status_of result ≡ Status.No → IfSome (S.held shelf.old) (λ files. IsSomeAnd (command (texts words.now)) (IsShownByNo files)) }
    ensures usage { status_of result ≡ Status.Usage → command (texts words.now) ≡ None }
    ensures usage_where { command (texts words.now) ≡ None → IsOrNoMemory (status_of result) Status.Usage }
    ensures sheet_refused_where { ¬ SheetFailed (texts words.now) (S.faults shelf.old) (S.faults shelf.new) →
        IfSome (S.held shelf.old) (λ files. (answer files (texts words.now)).status ≡ Status.SheetRefused → IsOrNoMemory (status_of result) Status.SheetRefused) }
    ensures before_writing { ¬ ReadFailed (texts words.now) (S.faults shelf.old) (S.faults shelf.new) →
        IfSome (S.held shelf.old) (λ files. ¬ IsServed (answer files (texts words.now)).status → IsOrNoMemory (status_of result) (answer files (texts words.now)).status) }
    ensures complete { ¬ ReadFailed (texts words.now) (S.faults shelf.old) (S.faults shelf.new) → ¬ HasRisen (O.faults out.old) (O.faults out.new) →
        IfSome (S.held shelf.old) (λ files. IsOrNoMemory (status_of result) (answer files (texts words.now)).status) }
    ensures read_fault { status_of result ≡ Status.ReadFault → IsSomeAnd (command (texts words.now)) (λ c. IsReadFault (S.held shelf.old) c (S.faults shelf.old) (S.faults shelf.new)) }
    ensures no_read_fault { status_of result ≢ Status.ReadFault → S.faults shelf.new ≡ S.faults shelf.old }
    ensures write_fault { status_of result ≡ Status.WriteFault → HasRisen (O.faults out.old) (O.faults out.new) }
    ensures nothing { ¬ IsServed (status_of result) → status_of result ≢ Status.WriteFault → out.new ≡ out.old }
    ensures line { IsLine (status_of result) (line_of result) }
    ensures kept { S.held shelf.new ≡ S.held shelf.old }
{
    match command_from(alloc, words) {
        Ok(command) => follow(alloc, command, shelf, out),
        Err(WordsFault::Usage) => Ending::Usage,
        Err(WordsFault::NoMemory) => Ending::NoMemory,
    }
}

// Does what a command asks for.
fn follow<S: Shelf, O: Sink>(alloc: Global, command: Command, shelf: &mut S, out: &mut O) -> Ending
    requires { HasNumbers command }
    ensures ends { IfSome (S.held shelf.old) (λ files. EndsBy result (answer_to files (command_of command.entry)) (O.taken out.old) (O.taken out.new)) }
    ensures shown { status_of result ≡ Status.Done → IfSome (S.held shelf.old) (λ files. IsShown files (command_of command.entry)) }
    ensures shown_by_no { status_of result ≡ Status.No → IfSome (S.held shelf.old) (λ files. IsShownByNo files (command_of command.entry)) }
    ensures ending { IsAfterWords (status_of result) }
    ensures write_fault { status_of result ≡ Status.WriteFault → HasRisen (O.faults out.old) (O.faults out.new) }
    ensures nothing { ¬ IsServed (status_of result) → status_of result ≢ Status.WriteFault → out.new ≡ out.old }
    ensures line { IsLine (status_of result) (line_of result) }
    ensures fault { status_of result ≡ Status.ReadFault → IsReadFault (S.held shelf.old) (command_of command.entry) (S.faults shelf.old) (S.faults shelf.new) }
    ensures no_fault { status_of result ≢ Status.ReadFault → S.faults shelf.new ≡ S.faults shelf.old }
    ensures kept { S.held shelf.new ≡ S.held shelf.old }
{
    match command {
        Command::OfSheet(sheet, asked) => with_sheet(alloc, sheet, asked, shelf, out),
        Command::OfFiles(sheet, second, asked) => {
            with_files(alloc, sheet, second, asked, shelf, out)
        }
        Command::OfSeed(seed, tasks, asked) => with_seed(alloc, seed, tasks, asked, out),
    }
}

// Does what is asked of the sheet under a name.
fn with_sheet<S: Shelf, O: Sink>(
    alloc: Global,
    name: &str,
    asked: SheetCommand,
    shelf: &mut S,
    out: &mut O,
) -> Ending
    ensures ends { IfSome (S.held shelf.old) (λ files. EndsBy result (answer_to_file (answer_to_sheet asked) (files name.now)) (O.taken out.old) (O.taken out.new)) }
    ensures shown { status_of result ≡ Status.Done → IfSome (S.held shelf.old) (λ files. IsSomeAnd (stated_under files name.now) (IsShownOfSheet asked)) }
    ensures shown_by_no { status_of result ≡ Status.No → IfSome (S.held shelf.old) (λ files. IsSomeAnd (stated_under files name.now) (IsShownByNoOf asked)) }
    ensures ending { IsAfterWords (status_of result) }
    ensures write_fault { status_of result ≡ Status.WriteFault → HasRisen (O.faults out.old) (O.faults out.new) }
    ensures nothing { ¬ IsServed (status_of result) → status_of result ≢ Status.WriteFault → out.new ≡ out.old }
    ensures line { IsLine (status_of result) (line_of result) }
    ensures fault { status_of result ≡ Status.ReadFault → S.faults shelf.new ≡ S.faults shelf.old ++ name.now ∷ [] }
    ensures no_fault { status_of result ≢ Status.ReadFault → S.faults shelf.new ≡ S.faults shelf.old }
    ensures kept { S.held shelf.new ≡ S.held shelf.old }
{
    let sheet = match sheet_under(alloc, name, shelf) {
        Ok(sheet) => sheet,
        Err(ending) => return ending,
    };
    of_sheet(alloc, &sheet, asked, out)
}

// Does what is asked of an accepted sheet.
fn of_sheet<O: Sink>(alloc: Global, sheet: &Sheet, asked: SheetCommand, out: &mut O) -> Ending
    ensures ends { EndsBy result (answer_to_sheet asked sheet.now) (O.taken out.old) (O.taken out.new) }
    ensures shown { status_of result ≡ Status.Done → IsShownOfSheet asked sheet.now }
    ensures shown_by_no { status_of result ≡ Status.No → IsShownByNoOf asked sheet.now }
    ensures ending { IsAfterWords (status_of result) }
    ensures write_fault { status_of result ≡ Status.WriteFault → HasRisen (O.faults out.old) (O.faults out.new) }
    ensures nothing { ¬ IsServed (status_of result) → status_of result ≢ Status.WriteFault → out.new ≡ out.old }
    ensures line { IsLine (status_of result) (line_of result) }
    ensures no_fault { status_of result ≢ Status.ReadFault }
{
    match asked {
        SheetCommand::Analyse => report(alloc, sheet, What::Analyse, out),
        SheetCommand::AnalyseCsv => report(alloc, sheet, What::AnalyseCsv, out),
        SheetCommand::Ledger => report(alloc, sheet, What::Ledger, out),
        SheetCommand::Check => check(alloc, sheet, out),
        SheetCommand::Certify => report(alloc, sheet, What::Certify, out),
        SheetCommand::Tail => tail(alloc, sheet, out),
        SheetCommand::Assign => assign(alloc, sheet, out),
        SheetCommand::Slack => slack(alloc, sheet, out),
    }
}

// Does what is asked of the sheet under a name, with the file under a second one.
fn with_files<S: Shelf, O: Sink>(
    alloc: Global,
    name: &str,
    second: &str,
    asked: FilesCommand,
    shelf: &mut S,
    out: &mut O,
) -> Ending
    requires { KeepsInRange asked }
    ensures ends { IfSome (S.held shelf.old) (λ files. EndsBy result (answer_to_file (λ sheet. answer_to_files asked sheet (files second.now)) (files name.now)) (O.taken out.old) (O.taken out.new)) }
    ensures shown { status_of result ≡ Status.Done → IfSome (S.held shelf.old) (λ files. IsSomeAnd (stated_under files name.now) (λ sheet. IsShownOfFiles asked sheet (files second.now))) }
    ensures ending { IsAfterWords (status_of result) }
    ensures write_fault { status_of result ≡ Status.WriteFault → HasRisen (O.faults out.old) (O.faults out.new) }
    ensures nothing { ¬ IsServed (status_of result) → status_of result ≢ Status.WriteFault → out.new ≡ out.old }
    ensures line { IsLine (status_of result) (line_of result) }
    ensures fault { status_of result ≡ Status.ReadFault → (S.faults shelf.new ≡ S.faults shelf.old ++ name.now ∷ [])
        ⊎ ((S.faults shelf.new ≡ S.faults shelf.old ++ second.now ∷ []) × IfSome (S.held shelf.old) (λ files. IsAcceptedFile (files name.now))) }
    ensures no_fault { status_of result ≢ Status.ReadFault → S.faults shelf.new ≡ S.faults shelf.old }
    ensures kept { S.held shelf.new ≡ S.held shelf.old }
{
    let sheet = match sheet_under(alloc, name, shelf) {
        Ok(sheet) => sheet,
        Err(ending) => return ending,
    };
    of_files(alloc, &sheet, second, asked, shelf, out)
}

// Does what is asked of an accepted sheet, with the file under a name.
fn of_files<S: Shelf, O: Sink>(
    alloc: Global,
    sheet: &Sheet,
    second: &str,
    asked: FilesCommand,
    shelf: &mut S,
    out: &mut O,
) -> Ending
    requires { KeepsInRange asked }
    ensures ends { IfSome (S.held shelf.old) (λ files. EndsBy result (answer_to_files asked sheet.now (files second.now)) (O.taken out.old) (O.taken out.new)) }
    ensures shown { status_of result ≡ Status.Done → IfSome (S.held shelf.old) (λ files. IsShownOfFiles asked sheet.now (files second.now)) }
    ensures ending { IsAfterWords (status_of result) }
    ensures write_fault { status_of result ≡ Status.WriteFault → HasRisen (O.faults out.old) (O.faults out.new) }
    ensures nothing { ¬ IsServed (status_of result) → status_of result ≢ Status.WriteFault → out.new ≡ out.old }
    ensures line { IsLine (status_of result) (line_of result) }
    ensures fault { status_of result ≡ Status.ReadFault → S.faults shelf.new ≡ S.faults shelf.old ++ second.now ∷ [] }
    ensures no_fault { status_of result ≢ Status.ReadFault → S.faults shelf.new ≡ S.faults shelf.old }
    ensures kept { S.held shelf.new ≡ S.held shelf.old }
{
    match asked {
        FilesCommand::Verify => verify(alloc, sheet, second, shelf, out),
        FilesCommand::Simulate => simulate(alloc, sheet, second, shelf, out),
        FilesCommand::Session => session(alloc, sheet, second, shelf, out),
        FilesCommand::Import(kept) => import(alloc, sheet, second, kept, shelf, out),
    }
}

// Does what is asked of the sheet that a seed and a number of tasks make.
fn with_seed<O: Sink>(
    alloc: Global,
    seed: u64,
    tasks: usize,
    asked: SeedCommand,
    out: &mut O,
) -> Ending
    requires some { 1 ≤ tasks }
    requires few { tasks ≤ TASK_LIMIT }
    ensures ends { EndsBy result (answer_to_seed asked (generated seed tasks)) (O.taken out.old) (O.taken out.new) }
    ensures shown { status_of result ≡ Status.Done → IsAccepted (generated seed tasks) }
    ensures ending { IsAfterWords (status_of result) }
    ensures write_fault { status_of result ≡ Status.WriteFault → HasRisen (O.faults out.old) (O.faults out.new) }
    ensures nothing { ¬ IsServed (status_of result) → status_of result ≢ Status.WriteFault → out.new ≡ out.old }
    ensures line { IsLine (status_of result) (line_of result) }
    ensures no_fault { status_of result ≢ Status.ReadFault }
{
    let sheet = match generate(alloc, seed, tasks) {
        Ok(sheet) => sheet,
        Err(GenFault::BadCount) => unreachable!(),
        Err(GenFault::NoMemory) => return Ending::NoMemory,
    };
    let _tasks = sheet.tasks();
    match asked {
        SeedCommand::Generate => write_sheet(alloc, &sheet, out),
        SeedCommand::Bench => bench(alloc, &sheet, out),
    }
}
