//! The words of the command line: the first by hand, the others by `clap`.

ghost use Rattle.std.specs.Prelude.{◌≡◌, Some, None, IfOk, IfErr};
ghost use Rattle.prta_words.specs.Words.{texts};
ghost use Rattle.prta_cli.specs.Words.{command, command_of, command_by, analyse_command, sheet_command, files_command, reduce_command, points_number, seed_command, seed_numbers, KeepsInRange, HasNumbers};

use prta_mass::POINT_LIMIT;
use prta_number::number_within;
use prta_sheet::TASK_LIMIT;
use prta_words::{WordsFault, one_word, sheet_words, three_words, two_words};
use std::alloc::Global;

/// What is asked of a sheet.
#[derive(Clone, Copy)]
pub enum SheetCommand {
    Analyse,
    AnalyseCsv,
    Ledger,
    Check,
    Certify,
    Tail,
    Assign,
    Slack,
}

/// What is asked of a sheet with a second file.
#[derive(Clone, Copy)]
pub enum FilesCommand {
    Verify,
    Simulate,
    Session,
    /// `import`, which keeps all times, and `reduce`.
    Import(Kept),
}

/// Which of the counted times a table keeps.
#[derive(Clone, Copy)]
pub enum Kept {
    /// All of them.
    AllTimes,
    /// At most so many, to which the others are moved up.
    AtMost(usize),
}

/// What is asked of a generated sheet.
#[derive(Clone, Copy)]
pub enum SeedCommand {
    Generate,
    Bench,
}

/// A command, with the names of the files that it reads, or with what makes its sheet.
#[derive(Clone, Copy)]
pub enum Command<'a> {
    /// The name of the sheet.
    OfSheet(&'a str, SheetCommand),
    /// The names of the sheet and of the second file.
    OfFiles(&'a str, &'a str, FilesCommand),
    /// The seed and the number of tasks.
    OfSeed(u64, usize, SeedCommand),
}

/// The command that the words are. It is Usage just where they are none.
pub fn command_from<'a>(alloc: Global, words: &'a [String]) -> Result<Command<'a>, WordsFault>
    ensures good { IfOk result (λ found. command (texts words.now) ≡ Some (command_of found)) }
    ensures bad { IfErr result (λ fault. fault ≡ WordsFault.Usage → command (texts words.now) ≡ None) }
    ensures numbers { IfOk result HasNumbers }
{
    match words {
        [word, rest @ ..] => command_by(alloc, word.as_str(), rest),
        _ => Err(WordsFault::Usage),
    }
}

// The command of a word with the words after it.
fn command_by<'a>(alloc: Global, word: &str, rest: &'a [String]) -> Result<Command<'a>, WordsFault>
    ensures good { IfOk result (λ found. command_by word.now (texts rest.now) ≡ Some (command_of found)) }
    ensures bad { IfErr result (λ fault. fault ≡ WordsFault.Usage → command_by word.now (texts rest.now) ≡ None) }
    ensures numbers { IfOk result HasNumbers }
{
    match word {
        "analyse" => analyse_command(alloc, rest),
        "ledger" => sheet_command(alloc, SheetCommand::Ledger, rest),
        "check" => sheet_command(alloc, SheetCommand::Check, rest),
        "certify" => sheet_command(alloc, SheetCommand::Certify, rest),
        "tail" => sheet_command(alloc, SheetCommand::Tail, rest),
        "assign" => sheet_command(alloc, SheetCommand::Assign, rest),
        "slack" => sheet_command(alloc, SheetCommand::Slack, rest),
        "verify" => files_command(alloc, FilesCommand::Verify, rest),
        "simulate" => files_command(alloc, FilesCommand::Simulate, rest),
        "session" => files_command(alloc, FilesCommand::Session, rest),
        "import" => files_command(alloc, FilesCommand::Import(Kept::AllTimes), rest),
        "reduce" => reduce_command(alloc, rest),
        "generate" => seed_command(alloc, SeedCommand::Generate, rest),
        "bench" => seed_command(alloc, SeedCommand::Bench, rest),
        _ => Err(WordsFault::Usage),
    }
}

// The name of a sheet, and the flag for records.
fn analyse_command<'a>(alloc: Global, rest: &'a [String]) -> Result<Command<'a>, WordsFault>
    ensures good { IfOk result (λ found. analyse_command (texts rest.now) ≡ Some (command_of found)) }
    ensures bad { IfErr result (λ fault. fault ≡ WordsFault.Usage → analyse_command (texts rest.now) ≡ None) }
    ensures numbers { IfOk result HasNumbers }
{
    match sheet_words(alloc, rest) {
        Ok(read) if read.csv => Ok(Command::OfSheet(read.sheet, SheetCommand::AnalyseCsv)),
        Ok(read) => Ok(Command::OfSheet(read.sheet, SheetCommand::Analyse)),
        Err(fault) => Err(fault),
    }
}

// The name of a sheet.
fn sheet_command<'a>(
    alloc: Global,
    asked: SheetCommand,
    rest: &'a [String],
) -> Result<Command<'a>, WordsFault>
    ensures good { IfOk result (λ found. sheet_command asked (texts rest.now) ≡ Some (command_of found)) }
    ensures bad { IfErr result (λ fault. fault ≡ WordsFault.Usage → sheet_command asked (texts rest.now) ≡ None) }
    ensures numbers { IfOk result HasNumbers }
{
    match one_word(alloc, rest) {
        Ok(sheet) => Ok(Command::OfSheet(sheet, asked)),
        Err(fault) => Err(fault),
    }
}

// The names of a sheet and of a second file.
fn files_command<'a>(
    alloc: Global,
    asked: FilesCommand,
    rest: &'a [String],
) -> Result<Command<'a>, WordsFault>
    requires { KeepsInRange asked }
    ensures good { IfOk result (λ found. files_command asked (texts rest.now) ≡ Some (command_of found)) }
    ensures bad { IfErr result (λ fault. fault ≡ WordsFault.Usage → files_command asked (texts rest.now) ≡ None) }
    ensures numbers { IfOk result HasNumbers }
{
    match two_words(alloc, rest) {
        Ok(read) => Ok(Command::OfFiles(read.first, read.second, asked)),
        Err(fault) => Err(fault),
    }
}

// The names of a sheet and of counts, and how many times a table may have.
fn reduce_command<'a>(alloc: Global, rest: &'a [String]) -> Result<Command<'a>, WordsFault>
    ensures good { IfOk result (λ found. reduce_command (texts rest.now) ≡ Some (command_of found)) }
    ensures bad { IfErr result (λ fault. fault ≡ WordsFault.Usage → reduce_command (texts rest.now) ≡ None) }
    ensures numbers { IfOk result HasNumbers }
{
    match three_words(alloc, rest) {
        Ok(read) => points_number(read.first, read.second, read.third),
        Err(fault) => Err(fault),
    }
}

// The number of times.
fn points_number<'a>(
    sheet: &'a str,
    counts: &'a str,
    points: &str,
) -> Result<Command<'a>, WordsFault>
    ensures good { IfOk result (λ found. points_number sheet.now counts.now points.now ≡ Some (command_of found)) }
    ensures bad { IfErr result (λ fault. fault ≡ WordsFault.Usage → points_number sheet.now counts.now points.now ≡ None) }
    ensures numbers { IfOk result HasNumbers }
{
    match number_within(points.as_bytes(), 1, POINT_LIMIT as u64) {
        Some(points) => Ok(Command::OfFiles(
            sheet,
            counts,
            FilesCommand::Import(Kept::AtMost(points as usize)),
        )),
        None => Err(WordsFault::Usage),
    }
}

// A seed and a number of tasks.
fn seed_command<'a>(
    alloc: Global,
    asked: SeedCommand,
    rest: &'a [String],
) -> Result<Command<'a>, WordsFault>
    ensures good { IfOk result (λ found. seed_command asked (texts rest.now) ≡ Some (command_of found)) }
    ensures bad { IfErr result (λ fault. fault ≡ WordsFault.Usage → seed_command asked (texts rest.now) ≡ None) }
    ensures numbers { IfOk result HasNumbers }
{
    match two_words(alloc, rest) {
        Ok(read) => seed_numbers(asked, read.first, read.second),
        Err(fault) => Err(fault),
    }
}

// The two numbers.
fn seed_numbers<'a>(asked: SeedCommand, seed: &str, tasks: &str) -> Result<Command<'a>, WordsFault>
    ensures good { IfOk result (λ found. seed_numbers asked seed.now tasks.now ≡ Some (command_of found)) }
    ensures bad { IfErr result (λ fault. fault ≡ WordsFault.Usage → seed_numbers asked seed.now tasks.now ≡ None) }
    ensures numbers { IfOk result HasNumbers }
{
    let seed = match number_within(seed.as_bytes(), 0, u64::MAX) {
        Some(seed) => seed,
        None => return Err(WordsFault::Usage),
    };
    match number_within(tasks.as_bytes(), 1, TASK_LIMIT as u64) {
        Some(tasks) => Ok(Command::OfSeed(seed, tasks as usize, asked)),
        None => Err(WordsFault::Usage),
    }
}
