//! The rows of one task.

ghost use Rattle.std.specs.Prelude.{◌≡◌, ◌+◌, ◌≤◌, ◌<◌, ◌++◌, OnOk, OnErr, length, vec_len, take, flat_map, All};
ghost use Rattle.prta_sheet.specs.Job.{nth_job};
ghost use Rattle.prta_sheet.specs.Counts.{job_count};
ghost use Rattle.prta_outside.specs.Sink.{HasRisen};
ghost use Rattle.prta_ledger.specs.Noted.{appended};
ghost use Rattle.prta_backlog.specs.Room.{room_for};
ghost use Rattle.prta_backlog.specs.Fitting.{FitsCap};
ghost use Rattle.prta_dual.specs.Numbers.{bounds_of, all_bounds};
ghost use Rattle.prta_dual.specs.Entries.{entries};
ghost use Rattle.prta_report.specs.Text.{line_of_entry};
ghost use Rattle.prta_backlog.specs.Level.{sheet_level};
ghost use Rattle.prta_report.specs.Analysis.{ledger_rows};
ghost use Rattle.prta_writer.specs.Rows.{line_at, job_rows, HasEntries};
ghost use Rattle.prta_writer.specs.Writing.{TookPart, TookAllBut};

use crate::output::make_room;
use crate::room::Desk;
use prta_backlog::Bench;
use prta_dist::{Curve, Kernel};
use prta_dual::{Bounds, analyse_task, entries_are_countable, entries_have_room, own_jobs_in_turn};
use prta_jobs::TaskSet;
use prta_ledger::{Entry, Ledger, NoNotes, Notes};
use prta_outside::{Sink, SinkFault};
use prta_report::{LINE, Page, csv_line, entry_line, gap_line, job_line};
use prta_sheet::Sheet;

/// What the line of a job tells.
#[derive(Clone, Copy)]
pub enum JobLine<'a> {
    /// Its two numbers.
    Numbers,
    /// The same as a record of fields.
    Record,
    /// Its two numbers, and what its entries in the ledger of its task add up to.
    Gap(&'a Ledger),
}

/// Analyses a task below all tasks before it: the desk has its two numbers of each job, and just its entries.
pub fn analyse<C: Curve, K: Kernel>(
    bench: &mut Bench<C, K>,
    desk: &mut Desk,
    sheet: &Sheet,
    task: usize,
)
    requires task { task < length sheet.now.tasks }
    requires fits { FitsCap sheet.now.settings.cap (C.cells bench.old.main) (C.cells bench.old.spare) (C.cells bench.old.kept)
        (vec_len bench.old.cells) (vec_len bench.old.tail) (vec_len bench.old.room) }
    requires entries { room_for sheet.now ≤ desk.old.ledger.room }
    requires jobs { job_count sheet.now task ≤ vec_len desk.old.bounds }
    ensures numbers { take (job_count sheet.now task) desk.new.bounds.items ≡ all_bounds sheet.now (sheet_level task) }
    ensures noted { desk.new.ledger.entries ≡ entries sheet.now (sheet_level task) }
    ensures room { desk.old.ledger.room ≤ desk.new.ledger.room }
    ensures jobs { vec_len desk.new.bounds ≡ vec_len desk.old.bounds }
    ensures page { desk.new.page ≡ desk.old.page }
    ensures fits { FitsCap sheet.now.settings.cap (C.cells bench.new.main) (C.cells bench.new.spare) (C.cells bench.new.kept)
        (vec_len bench.new.cells) (vec_len bench.new.tail) (vec_len bench.new.room) }
{
    entries_have_room();
    let _tasks = sheet.tasks();
    desk.ledger.clear();
    analyse_into(bench, sheet, task, &mut desk.ledger, &mut desk.bounds);
}

/// Analyses a task in the same way, but notes nothing.
pub fn analyse_numbers<C: Curve, K: Kernel>(
    bench: &mut Bench<C, K>,
    sheet: &Sheet,
    task: usize,
    places: &mut [Bounds],
)
    requires task { task < length sheet.now.tasks }
    requires fits { FitsCap sheet.now.settings.cap (C.cells bench.old.main) (C.cells bench.old.spare) (C.cells bench.old.kept)
        (vec_len bench.old.cells) (vec_len bench.old.tail) (vec_len bench.old.room) }
    requires places { job_count sheet.now task ≤ length places.old }
    ensures numbers { take (job_count sheet.now task) places.new ≡ all_bounds sheet.now (sheet_level task) }
    ensures places { length places.new ≡ length places.old }
    ensures fits { FitsCap sheet.now.settings.cap (C.cells bench.new.main) (C.cells bench.new.spare) (C.cells bench.new.kept)
        (vec_len bench.new.cells) (vec_len bench.new.tail) (vec_len bench.new.room) }
{
    entries_are_countable();
    let _tasks = sheet.tasks();
    analyse_into(bench, sheet, task, &mut NoNotes, places);
}

// Analyses a task below all tasks before it, and writes the numbers into the first places.
fn analyse_into<C: Curve, K: Kernel, N: Notes>(
    bench: &mut Bench<C, K>,
    sheet: &Sheet,
    task: usize,
    notes: &mut N,
    places: &mut [Bounds],
)
    requires task { task < length sheet.now.tasks }
    requires fits { FitsCap sheet.now.settings.cap (C.cells bench.old.main) (C.cells bench.old.spare) (C.cells bench.old.kept)
        (vec_len bench.old.cells) (vec_len bench.old.tail) (vec_len bench.old.room) }
    requires room { room_for sheet.now ≤ N.room notes.old }
    requires places { job_count sheet.now task ≤ length places.old }
    ensures numbers { take (job_count sheet.now task) places.new ≡ all_bounds sheet.now (sheet_level task) }
    ensures noted { N.noted notes.new ≡ appended (N.noted notes.old) (entries sheet.now (sheet_level task)) }
    ensures room { N.room notes.old ≤ N.room notes.new + length (entries sheet.now (sheet_level task)) }
    ensures places { length places.new ≡ length places.old }
    ensures fits { FitsCap sheet.now.settings.cap (C.cells bench.new.main) (C.cells bench.new.spare) (C.cells bench.new.kept)
        (vec_len bench.new.cells) (vec_len bench.new.tail) (vec_len bench.new.room) }
{
    let _tasks = sheet.tasks();
    let count = sheet.job_count(task);
    let higher = TaskSet::below(task);
    analyse_task(bench, sheet, higher, task, notes, &mut places[..count]);
}

/// Writes a line of a kind for each job of a task whose numbers are on the desk, and whose entries are in the line's ledger.
pub fn put_job_rows<O: Sink>(
    desk: &mut Desk,
    sheet: &Sheet,
    task: usize,
    line: JobLine<'_>,
    out: &mut O,
) -> Result<(), SinkFault>
    requires task { task < length sheet.now.tasks }
    requires jobs { job_count sheet.now task ≤ vec_len desk.old.bounds }
    requires numbers { take (job_count sheet.now task) desk.old.bounds.items ≡ all_bounds sheet.now (sheet_level task) }
    requires entries { HasEntries line sheet.now task }
    requires page { LINE ≤ length desk.old.page.written + desk.old.page.spare }
    ensures took { OnOk result (TookAllBut (O.taken out.old) (O.taken out.new) (desk.old.page.written ++ job_rows line.entry sheet.now task) desk.new.page.written) }
    ensures fault { OnErr result (HasRisen (O.faults out.old) (O.faults out.new)) }
    ensures part { OnErr result (TookPart (O.taken out.old) (O.taken out.new) (desk.old.page.written ++ job_rows line.entry sheet.now task)) }
    ensures never_falls { O.faults out.old ≤ O.faults out.new }
    ensures size { length desk.new.page.written + desk.new.page.spare ≡ length desk.old.page.written + desk.old.page.spare }
    ensures others { desk.new ≡ record desk.old { page = desk.new.page } }
{
    let found = &desk.bounds[..sheet.job_count(task)];
    put_jobs(&mut desk.page, sheet, task, found, line, out)
}

/// Writes the rows of `ledger` for a task whose numbers and entries are on the desk.
pub fn put_gap_rows<O: Sink>(
    desk: &mut Desk,
    sheet: &Sheet,
    task: usize,
    out: &mut O,
) -> Result<(), SinkFault>
    requires task { task < length sheet.now.tasks }
    requires jobs { job_count sheet.now task ≤ vec_len desk.old.bounds }
    requires numbers { take (job_count sheet.now task) desk.old.bounds.items ≡ all_bounds sheet.now (sheet_level task) }
    requires entries { desk.old.ledger.entries ≡ entries sheet.now (sheet_level task) }
    requires page { LINE ≤ length desk.old.page.written + desk.old.page.spare }
    ensures took { OnOk result (TookAllBut (O.taken out.old) (O.taken out.new) (desk.old.page.written ++ ledger_rows sheet.now task) desk.new.page.written) }
    ensures fault { OnErr result (HasRisen (O.faults out.old) (O.faults out.new)) }
    ensures part { OnErr result (TookPart (O.taken out.old) (O.taken out.new) (desk.old.page.written ++ ledger_rows sheet.now task)) }
    ensures never_falls { O.faults out.old ≤ O.faults out.new }
    ensures size { length desk.new.page.written + desk.new.page.spare ≡ length desk.old.page.written + desk.old.page.spare }
    ensures others { desk.new ≡ record desk.old { page = desk.new.page } }
{
    let found = &desk.bounds[..sheet.job_count(task)];
    put_entries(&mut desk.page, sheet, desk.ledger.entries(), out)?;
    let line = JobLine::Gap(&desk.ledger);
    put_jobs(&mut desk.page, sheet, task, found, line, out)?;
    Ok(())
}

// A line for each entry.
fn put_entries<O: Sink>(
    page: &mut Page,
    sheet: &Sheet,
    entries: &[Entry],
    out: &mut O,
) -> Result<(), SinkFault>
    requires tasks { All (λ entry. entry.task < length sheet.now.tasks) entries.now }
    requires page { LINE ≤ length page.old.written + page.old.spare }
    ensures took { OnOk result (TookAllBut (O.taken out.old) (O.taken out.new) (page.old.written ++ flat_map (line_of_entry sheet.now.tasks) entries.now) page.new.written) }
    ensures fault { OnErr result (HasRisen (O.faults out.old) (O.faults out.new)) }
    ensures part { OnErr result (TookPart (O.taken out.old) (O.taken out.new) (page.old.written ++ flat_map (line_of_entry sheet.now.tasks) entries.now)) }
    ensures never_falls { O.faults out.old ≤ O.faults out.new }
    ensures size { length page.new.written + page.new.spare ≡ length page.old.written + page.old.spare }
{
    for entry in entries {
        make_room(page, out)?;
        entry_line(page, sheet, *entry);
    }
    Ok(())
}

/// Writes a line of a kind for each job of a task with these numbers.
pub fn put_jobs<O: Sink>(
    page: &mut Page,
    sheet: &Sheet,
    task: usize,
    found: &[Bounds],
    line: JobLine<'_>,
    out: &mut O,
) -> Result<(), SinkFault>
    requires task { task < length sheet.now.tasks }
    requires numbers { found.now ≡ all_bounds sheet.now (sheet_level task) }
    requires entries { HasEntries line sheet.now task }
    requires page { LINE ≤ length page.old.written + page.old.spare }
    ensures took { OnOk result (TookAllBut (O.taken out.old) (O.taken out.new) (page.old.written ++ job_rows line.entry sheet.now task) page.new.written) }
    ensures fault { OnErr result (HasRisen (O.faults out.old) (O.faults out.new)) }
    ensures part { OnErr result (TookPart (O.taken out.old) (O.taken out.new) (page.old.written ++ job_rows line.entry sheet.now task)) }
    ensures never_falls { O.faults out.old ≤ O.faults out.new }
    ensures size { length page.new.written + page.new.spare ≡ length page.old.written + page.old.spare }
{
    let _tasks = sheet.tasks();
    own_jobs_in_turn();
    for number in 0..found.len() {
        make_room(page, out)?;
        push_line(page, sheet, task, number as u32, found[number], line);
    }
    Ok(())
}

// The line of a job.
fn push_line(
    page: &mut Page,
    sheet: &Sheet,
    task: usize,
    number: u32,
    bounds: Bounds,
    line: JobLine<'_>,
)
    requires room { LINE ≤ page.old.spare }
    requires task { task < length sheet.now.tasks }
    requires numbers { bounds ≡ bounds_of sheet.now (sheet_level task) number }
    requires entries { HasEntries line sheet.now task }
    ensures written { page.new.written ≡ page.old.written ++ line_at line.entry sheet.now (nth_job sheet.now.tasks task number) }
    ensures size { length page.new.written + page.new.spare ≡ length page.old.written + page.old.spare }
{
    match line {
        JobLine::Numbers => job_line(page, sheet, task, number, bounds),
        JobLine::Record => csv_line(page, sheet, task, number, bounds),
        JobLine::Gap(ledger) => {
            let sum = ledger.sum_for(task, number);
            gap_line(page, sheet, task, number, bounds, sum);
        }
    }
}
