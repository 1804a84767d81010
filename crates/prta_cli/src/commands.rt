//! What each command does with an accepted sheet.

ghost use Rattle.std.specs.Prelude.{◌≡◌, ◌≢◌, ◌∷◌, ◌++◌, [], IfSome};
ghost use Rattle.prta_outside.specs.Sink.{HasRisen};
ghost use Rattle.prta_certfile.specs.Laws.{AreLevels};
ghost use Rattle.prta_audsley.specs.Verdict.{VerdictHolds};
ghost use Rattle.prta_cli.specs.declared.status.Status.{Status};
ghost use Rattle.prta_cli.specs.Answer.{told, checking, assigning, slacking, judgement, verification, simulation, playing, counting};
ghost use Rattle.prta_cli.specs.Ending.{status_of, line_of, IsServed, EndsBy};
ghost use Rattle.prta_sheet.specs.Canonical.{canonical_text};
ghost use Rattle.prta_report.specs.Analysis.{bench_text};
ghost use Rattle.prta_report.specs.Tails.{tail_text};
ghost use Rattle.prta_cli.specs.Words.{IsInRange};
ghost use Rattle.prta_writer.specs.Report.{report_text};
ghost use Rattle.prta_cli.specs.Causes.{IsAfterWords, IsLine, HoldsFor, IsShownBy, IsSafeWith};
ghost use Rattle.prta_writer.specs.Slacks.{SlacksSay};
ghost use Rattle.prta_writer.specs.Meaning.{AreAround, AreClose, ChancesPass, AreFound, LevelsHold, NumbersHold};

use crate::counts::sheet_with_counts;
use crate::ending::Ending;
use crate::script::script_under;
use crate::simulation::simulation;
use crate::verification::certificate_under;
use crate::words::Kept;
use prta_certfile::Certificate;
use prta_outside::{Shelf, Sink};
use prta_sheet::{Sheet, sheet_text};
use prta_writer::{
    Room, Stage, What, assignment, put_all, slack_page, write_bench, write_check, write_report,
    write_session, write_tail, write_verify,
};
use std::alloc::Global;

/// Writes the report of a sheet.
pub fn report<O: Sink>(alloc: Global, sheet: &Sheet, what: What, out: &mut O) -> Ending
    ensures ends { EndsBy result (told (report_text what sheet.now)) (O.taken out.old) (O.taken out.new) }
    ensures around { status_of result ≡ Status.Done → AreAround sheet.now }
    ensures close { status_of result ≡ Status.Done → AreClose sheet.now }
    ensures found { status_of result ≡ Status.Done → AreFound sheet.now }
    ensures write_fault { status_of result ≡ Status.WriteFault → HasRisen (O.faults out.old) (O.faults out.new) }
    ensures nothing { ¬ IsServed (status_of result) → status_of result ≢ Status.WriteFault → out.new ≡ out.old }
    ensures ending { IsAfterWords (status_of result) }
    ensures no_fault { status_of result ≢ Status.ReadFault }
    ensures line { IsLine (status_of result) (line_of result) }
{
    let mut room = match Room::new(alloc, sheet) {
        Ok(room) => room,
        Err(_) => return Ending::NoMemory,
    };
    match write_report(&mut room, sheet, what, out) {
        Ok(()) => Ending::Done,
        Err(_) => Ending::WriteFault,
    }
}

/// Writes steady numbers for every level of a sheet, by a certificate or by a geometric tail.
pub fn tail<O: Sink>(alloc: Global, sheet: &Sheet, out: &mut O) -> Ending
    ensures ends { EndsBy result (told (tail_text sheet.now)) (O.taken out.old) (O.taken out.new) }
    ensures hold { status_of result ≡ Status.Done → LevelsHold sheet.now }
    ensures write_fault { status_of result ≡ Status.WriteFault → HasRisen (O.faults out.old) (O.faults out.new) }
    ensures nothing { ¬ IsServed (status_of result) → status_of result ≢ Status.WriteFault → out.new ≡ out.old }
    ensures ending { IsAfterWords (status_of result) }
    ensures no_fault { status_of result ≢ Status.ReadFault }
    ensures line { IsLine (status_of result) (line_of result) }
{
    let mut room = match Room::new(alloc, sheet) {
        Ok(room) => room,
        Err(_) => return Ending::NoMemory,
    };
    match write_tail(&mut room, sheet, out) {
        Ok(()) => Ending::Done,
        Err(_) => Ending::WriteFault,
    }
}

/// Writes the verdict on a sheet.
pub fn check<O: Sink>(alloc: Global, sheet: &Sheet, out: &mut O) -> Ending
    ensures ends { EndsBy result (checking sheet.now) (O.taken out.old) (O.taken out.new) }
    ensures passing { status_of result ≡ Status.Done → ChancesPass sheet.now }
    ensures write_fault { status_of result ≡ Status.WriteFault → HasRisen (O.faults out.old) (O.faults out.new) }
    ensures nothing { ¬ IsServed (status_of result) → status_of result ≢ Status.WriteFault → out.new ≡ out.old }
    ensures ending { IsAfterWords (status_of result) }
    ensures no_fault { status_of result ≢ Status.ReadFault }
    ensures line { IsLine (status_of result) (line_of result) }
{
    let mut room = match Room::new(alloc, sheet) {
        Ok(room) => room,
        Err(_) => return Ending::NoMemory,
    };
    match write_check(&mut room, sheet, out) {
        Ok(true) => Ending::Done,
        Ok(false) => Ending::No,
        Err(_) => Ending::WriteFault,
    }
}

/// Writes the verdict on the orders of priorities of a sheet.
pub fn assign<O: Sink>(alloc: Global, sheet: &Sheet, out: &mut O) -> Ending
    ensures ends { EndsBy result (assigning sheet.now) (O.taken out.old) (O.taken out.new) }
    ensures holds { IsServed (status_of result) → VerdictHolds sheet.now }
    ensures write_fault { status_of result ≡ Status.WriteFault → HasRisen (O.faults out.old) (O.faults out.new) }
    ensures nothing { ¬ IsServed (status_of result) → status_of result ≢ Status.WriteFault → out.new ≡ out.old }
    ensures ending { IsAfterWords (status_of result) }
    ensures no_fault { status_of result ≢ Status.ReadFault }
    ensures line { IsLine (status_of result) (line_of result) }
{
    let (page, found) = match assignment(alloc, sheet) {
        Ok(answer) => answer,
        Err(_) => return Ending::NoMemory,
    };
    match put_all(out, page.bytes()) {
        Ok(()) if found => Ending::Done,
        Ok(()) => Ending::No,
        Err(_) => Ending::WriteFault,
    }
}

/// Writes how many ticks may be added to the times of each task of a sheet.
pub fn slack<O: Sink>(alloc: Global, sheet: &Sheet, out: &mut O) -> Ending
    ensures ends { EndsBy result (slacking sheet.now) (O.taken out.old) (O.taken out.new) }
    ensures say { IsServed (status_of result) → SlacksSay sheet.now }
    ensures passing { status_of result ≡ Status.Done → ChancesPass sheet.now }
    ensures write_fault { status_of result ≡ Status.WriteFault → HasRisen (O.faults out.old) (O.faults out.new) }
    ensures nothing { ¬ IsServed (status_of result) → status_of result ≢ Status.WriteFault → out.new ≡ out.old }
    ensures ending { IsAfterWords (status_of result) }
    ensures no_fault { status_of result ≢ Status.ReadFault }
    ensures line { IsLine (status_of result) (line_of result) }
{
    let (page, passes) = match slack_page(alloc, sheet) {
        Ok(answer) => answer,
        Err(_) => return Ending::NoMemory,
    };
    match put_all(out, page.bytes()) {
        Ok(()) if passes => Ending::Done,
        Ok(()) => Ending::No,
        Err(_) => Ending::WriteFault,
    }
}

/// Writes what the certificate that is held under a name is worth for a sheet.
pub fn verify<S: Shelf, O: Sink>(
    alloc: Global,
    sheet: &Sheet,
    certificate: &str,
    shelf: &mut S,
    out: &mut O,
) -> Ending
    ensures ends { IfSome (S.held shelf.old) (λ files. EndsBy result (verification sheet.now (files certificate.now)) (O.taken out.old) (O.taken out.new)) }
    ensures hold { status_of result ≡ Status.Done → IfSome (S.held shelf.old) (λ files. HoldsFor sheet.now (files certificate.now)) }
    ensures write_fault { status_of result ≡ Status.WriteFault → HasRisen (O.faults out.old) (O.faults out.new) }
    ensures nothing { ¬ IsServed (status_of result) → status_of result ≢ Status.WriteFault → out.new ≡ out.old }
    ensures ending { IsAfterWords (status_of result) }
    ensures fault { status_of result ≡ Status.ReadFault → S.faults shelf.new ≡ S.faults shelf.old ++ certificate.now ∷ [] }
    ensures no_fault { status_of result ≢ Status.ReadFault → S.faults shelf.new ≡ S.faults shelf.old }
    ensures line { IsLine (status_of result) (line_of result) }
    ensures kept { S.held shelf.new ≡ S.held shelf.old }
{
    let certificate = match certificate_under(alloc, sheet, certificate, shelf) {
        Ok(certificate) => certificate,
        Err(ending) => return ending,
    };
    verify_levels(alloc, sheet, &certificate, out)
}

// The same, for a certificate that was read.
fn verify_levels<O: Sink>(
    alloc: Global,
    sheet: &Sheet,
    certificate: &Certificate,
    out: &mut O,
) -> Ending
    requires { AreLevels sheet.now.tasks sheet.now.settings.cap certificate.now }
    ensures ends { EndsBy result (judgement sheet.now certificate.now) (O.taken out.old) (O.taken out.new) }
    ensures hold { status_of result ≡ Status.Done → NumbersHold sheet.now certificate.now }
    ensures write_fault { status_of result ≡ Status.WriteFault → HasRisen (O.faults out.old) (O.faults out.new) }
    ensures nothing { ¬ IsServed (status_of result) → status_of result ≢ Status.WriteFault → out.new ≡ out.old }
    ensures ending { IsAfterWords (status_of result) }
    ensures no_fault { status_of result ≢ Status.ReadFault }
    ensures line { IsLine (status_of result) (line_of result) }
{
    let mut room = match Room::new(alloc, sheet) {
        Ok(room) => room,
        Err(_) => return Ending::NoMemory,
    };
    match write_verify(&mut room, sheet, certificate, out) {
        Ok(true) => Ending::Done,
        Ok(false) => Ending::No,
        Err(_) => Ending::WriteFault,
    }
}

/// Writes the canonical text of a sheet.
pub fn write_sheet<O: Sink>(alloc: Global, sheet: &Sheet, out: &mut O) -> Ending
    ensures ends { EndsBy result (told (canonical_text sheet.now)) (O.taken out.old) (O.taken out.new) }
    ensures write_fault { status_of result ≡ Status.WriteFault → HasRisen (O.faults out.old) (O.faults out.new) }
    ensures nothing { ¬ IsServed (status_of result) → status_of result ≢ Status.WriteFault → out.new ≡ out.old }
    ensures ending { IsAfterWords (status_of result) }
    ensures no_fault { status_of result ≢ Status.ReadFault }
    ensures line { IsLine (status_of result) (line_of result) }
{
    let text = match sheet_text(alloc, sheet) {
        Ok(text) => text,
        Err(_) => return Ending::NoMemory,
    };
    match put_all(out, &text) {
        Ok(()) => Ending::Done,
        Err(_) => Ending::WriteFault,
    }
}

/// Writes the canonical text of a sheet with the tables that are made of the counts that are held under a name.
pub fn import<S: Shelf, O: Sink>(
    alloc: Global,
    sheet: &Sheet,
    counts: &str,
    kept: Kept,
    shelf: &mut S,
    out: &mut O,
) -> Ending
    requires { IsInRange kept }
    ensures ends { IfSome (S.held shelf.old) (λ files. EndsBy result (counting kept sheet.now (files counts.now)) (O.taken out.old) (O.taken out.new)) }
    ensures safe { status_of result ≡ Status.Done → IfSome (S.held shelf.old) (λ files. IsSafeWith kept sheet.now (files counts.now)) }
    ensures write_fault { status_of result ≡ Status.WriteFault → HasRisen (O.faults out.old) (O.faults out.new) }
    ensures nothing { ¬ IsServed (status_of result) → status_of result ≢ Status.WriteFault → out.new ≡ out.old }
    ensures ending { IsAfterWords (status_of result) }
    ensures fault { status_of result ≡ Status.ReadFault → S.faults shelf.new ≡ S.faults shelf.old ++ counts.now ∷ [] }
    ensures no_fault { status_of result ≢ Status.ReadFault → S.faults shelf.new ≡ S.faults shelf.old }
    ensures line { IsLine (status_of result) (line_of result) }
    ensures kept { S.held shelf.new ≡ S.held shelf.old }
{
    let made = match sheet_with_counts(alloc, sheet, counts, kept, shelf) {
        Ok(made) => made,
        Err(ending) => return ending,
    };
    let _tasks = made.tasks();
    write_sheet(alloc, &made, out)
}

/// Writes how much there is of everything in the analysis of a sheet.
pub fn bench<O: Sink>(alloc: Global, sheet: &Sheet, out: &mut O) -> Ending
    ensures ends { EndsBy result (told (bench_text sheet.now)) (O.taken out.old) (O.taken out.new) }
    ensures write_fault { status_of result ≡ Status.WriteFault → HasRisen (O.faults out.old) (O.faults out.new) }
    ensures nothing { ¬ IsServed (status_of result) → status_of result ≢ Status.WriteFault → out.new ≡ out.old }
    ensures ending { IsAfterWords (status_of result) }
    ensures no_fault { status_of result ≢ Status.ReadFault }
    ensures line { IsLine (status_of result) (line_of result) }
{
    let mut room = match Room::new(alloc, sheet) {
        Ok(room) => room,
        Err(_) => return Ending::NoMemory,
    };
    match write_bench(&mut room, sheet, out) {
        Ok(()) => Ending::Done,
        Err(_) => Ending::WriteFault,
    }
}

/// Writes the trace of a sheet under the times that are held under a name.
pub fn simulate<S: Shelf, O: Sink>(
    alloc: Global,
    sheet: &Sheet,
    times: &str,
    shelf: &mut S,
    out: &mut O,
) -> Ending
    ensures ends { IfSome (S.held shelf.old) (λ files. EndsBy result (simulation sheet.now (files times.now)) (O.taken out.old) (O.taken out.new)) }
    ensures write_fault { status_of result ≡ Status.WriteFault → HasRisen (O.faults out.old) (O.faults out.new) }
    ensures nothing { ¬ IsServed (status_of result) → status_of result ≢ Status.WriteFault → out.new ≡ out.old }
    ensures ending { IsAfterWords (status_of result) }
    ensures fault { status_of result ≡ Status.ReadFault → S.faults shelf.new ≡ S.faults shelf.old ++ times.now ∷ [] }
    ensures no_fault { status_of result ≢ Status.ReadFault → S.faults shelf.new ≡ S.faults shelf.old }
    ensures line { IsLine (status_of result) (line_of result) }
    ensures kept { S.held shelf.new ≡ S.held shelf.old }
{
    let page = match simulation(alloc, sheet, times, shelf) {
        Ok(page) => page,
        Err(ending) => return ending,
    };
    match put_all(out, page.bytes()) {
        Ok(()) => Ending::Done,
        Err(_) => Ending::WriteFault,
    }
}

/// Writes the text of the script that is held under a name, over a sheet.
pub fn session<S: Shelf, O: Sink>(
    alloc: Global,
    sheet: &Sheet,
    script: &str,
    shelf: &mut S,
    out: &mut O,
) -> Ending
    ensures ends { IfSome (S.held shelf.old) (λ files. EndsBy result (playing sheet.now (files script.now)) (O.taken out.old) (O.taken out.new)) }
    ensures around { status_of result ≡ Status.Done → IfSome (S.held shelf.old) (λ files. IsShownBy sheet.now (files script.now)) }
    ensures write_fault { status_of result ≡ Status.WriteFault → HasRisen (O.faults out.old) (O.faults out.new) }
    ensures nothing { ¬ IsServed (status_of result) → status_of result ≢ Status.WriteFault → out.new ≡ out.old }
    ensures ending { IsAfterWords (status_of result) }
    ensures fault { status_of result ≡ Status.ReadFault → S.faults shelf.new ≡ S.faults shelf.old ++ script.now ∷ [] }
    ensures no_fault { status_of result ≢ Status.ReadFault → S.faults shelf.new ≡ S.faults shelf.old }
    ensures line { IsLine (status_of result) (line_of result) }
    ensures kept { S.held shelf.new ≡ S.held shelf.old }
{
    let script = match script_under(alloc, sheet, script, shelf) {
        Ok(script) => script,
        Err(ending) => return ending,
    };
    let stage = match Stage::new(alloc, sheet) {
        Ok(stage) => stage,
        Err(_) => return Ending::NoMemory,
    };
    match write_session(stage, script, out) {
        Ok(()) => Ending::Done,
        Err(_) => Ending::WriteFault,
    }
}
