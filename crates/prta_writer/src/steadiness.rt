//! The rows of steady numbers: those of a level with a list that certifies it.

ghost use Rattle.std.specs.Prelude.{◌≡◌, ◌+◌, ◌≤◌, ◌<◌, ◌++◌, OnOk, OnErr, length, vec_len, All};
ghost use Rattle.prta_mass.specs.Unit.{unit};
ghost use Rattle.prta_sheet.specs.Counts.{job_count};
ghost use Rattle.prta_outside.specs.Sink.{HasRisen};
ghost use Rattle.prta_backlog.specs.Fitting.{FitsCap};
ghost use Rattle.prta_report.specs.Certificates.{jobs_in_turn, steady_rows, certified_rows};
ghost use Rattle.prta_writer.specs.Report.{most_jobs};
ghost use Rattle.prta_writer.specs.Steadiness.{number_lines};
ghost use Rattle.prta_writer.specs.Writing.{TookPart, TookAllBut};

use crate::output::make_room;
use prta_backlog::Bench;
use prta_certificate::steady;
use prta_dist::{Curve, Kernel};
use prta_outside::{Sink, SinkFault};
use prta_report::{LINE, Page, certified_line, steady_line};
use prta_sheet::Sheet;

/// Writes the rows of a level with a list on the main curve that certifies it.
pub(crate) fn put_certified<C: Curve, K: Kernel, O: Sink>(
    bench: &mut Bench<C, K>,
    page: &mut Page,
    places: &mut [u64],
    sheet: &Sheet,
    task: usize,
    out: &mut O,
) -> Result<(), SinkFault>
    requires task { task < length sheet.now.tasks }
    requires fits { FitsCap sheet.now.settings.cap (C.cells bench.old.main) (C.cells bench.old.spare) (C.cells bench.old.kept)
        (vec_len bench.old.cells) (vec_len bench.old.tail) (vec_len bench.old.room) }
    requires places { most_jobs sheet.now ≤ length places.old }
    requires page { LINE ≤ length page.old.written + page.old.spare }
    ensures took { OnOk result (TookAllBut (O.taken out.old) (O.taken out.new) (page.old.written ++ certified_rows sheet.now task (C.cells bench.old.main)) page.new.written) }
    ensures fault { OnErr result (HasRisen (O.faults out.old) (O.faults out.new)) }
    ensures part { OnErr result (TookPart (O.taken out.old) (O.taken out.new) (page.old.written ++ certified_rows sheet.now task (C.cells bench.old.main))) }
    ensures never_falls { O.faults out.old ≤ O.faults out.new }
    ensures size { length page.new.written + page.new.spare ≡ length page.old.written + page.old.spare }
    ensures fits { FitsCap sheet.now.settings.cap (C.cells bench.new.main) (C.cells bench.new.spare) (C.cells bench.new.kept)
        (vec_len bench.new.cells) (vec_len bench.new.tail) (vec_len bench.new.room) }
    ensures places { length places.new ≡ length places.old }
{
    make_room(page, out)?;
    certified_line(page, sheet, task);
    put_steady(bench, page, places, sheet, task, out)
}

// The steady numbers of a task's jobs, for the list on the main curve.
fn put_steady<C: Curve, K: Kernel, O: Sink>(
    bench: &mut Bench<C, K>,
    page: &mut Page,
    places: &mut [u64],
    sheet: &Sheet,
    task: usize,
    out: &mut O,
) -> Result<(), SinkFault>
    requires task { task < length sheet.now.tasks }
    requires fits { FitsCap sheet.now.settings.cap (C.cells bench.old.main) (C.cells bench.old.spare) (C.cells bench.old.kept)
        (vec_len bench.old.cells) (vec_len bench.old.tail) (vec_len bench.old.room) }
    requires places { most_jobs sheet.now ≤ length places.old }
    requires page { LINE ≤ length page.old.written + page.old.spare }
    ensures took { OnOk result (TookAllBut (O.taken out.old) (O.taken out.new) (page.old.written ++ steady_rows sheet.now task (C.cells bench.old.main)) page.new.written) }
    ensures fault { OnErr result (HasRisen (O.faults out.old) (O.faults out.new)) }
    ensures part { OnErr result (TookPart (O.taken out.old) (O.taken out.new) (page.old.written ++ steady_rows sheet.now task (C.cells bench.old.main))) }
    ensures never_falls { O.faults out.old ≤ O.faults out.new }
    ensures size { length page.new.written + page.new.spare ≡ length page.old.written + page.old.spare }
    ensures fits { FitsCap sheet.now.settings.cap (C.cells bench.new.main) (C.cells bench.new.spare) (C.cells bench.new.kept)
        (vec_len bench.new.cells) (vec_len bench.new.tail) (vec_len bench.new.room) }
    ensures places { length places.new ≡ length places.old }
{
    let found = &mut places[..jobs_in_turn(sheet, task)];
    steady(bench, sheet, task, found);
    put_numbers(page, sheet, task, found, out)
}

/// How many jobs of a task a hyperperiod has.
pub(crate) fn jobs_in_turn(sheet: &Sheet, task: usize) -> usize
    requires { task < length sheet.now.tasks }
    ensures count { result ≡ jobs_in_turn sheet.now task }
    ensures few { result ≤ job_count sheet.now task }
    ensures most { result ≤ most_jobs sheet.now }
{
    let tasks = sheet.tasks();
    (sheet.hyperperiod() / tasks[task].period() as u64) as usize
}

/// Writes a line with a number for each of them.
pub(crate) fn put_numbers<O: Sink>(
    page: &mut Page,
    sheet: &Sheet,
    task: usize,
    found: &[u64],
    out: &mut O,
) -> Result<(), SinkFault>
    requires task { task < length sheet.now.tasks }
    requires few { length found.now ≤ job_count sheet.now task }
    requires low { All (λ upper. upper ≤ unit) found.now }
    requires page { LINE ≤ length page.old.written + page.old.spare }
    ensures took { OnOk result (TookAllBut (O.taken out.old) (O.taken out.new) (page.old.written ++ number_lines sheet.now task found.now) page.new.written) }
    ensures fault { OnErr result (HasRisen (O.faults out.old) (O.faults out.new)) }
    ensures part { OnErr result (TookPart (O.taken out.old) (O.taken out.new) (page.old.written ++ number_lines sheet.now task found.now)) }
    ensures never_falls { O.faults out.old ≤ O.faults out.new }
    ensures size { length page.new.written + page.new.spare ≡ length page.old.written + page.old.spare }
{
    let _tasks = sheet.tasks();
    for number in 0..found.len() {
        make_room(page, out)?;
        steady_line(page, sheet, task, number as u32, found[number]);
    }
    Ok(())
}
