//! Reports: texts that are written task by task, as the rows are found.

ghost use Rattle.std.specs.Prelude.{◌≡◌, ◌+◌, ◌*◌, ◌≤◌, ◌<◌, ◌++◌, true, OnOk, OnErr, length, vec_len, flat_map};
ghost use Rattle.prta_sheet.specs.Sheet.{sheet_order};
ghost use Rattle.prta_sheet.specs.Counts.{job_count};
ghost use Rattle.prta_outside.specs.Sink.{HasRisen};
ghost use Rattle.prta_backlog.specs.Room.{room_for};
ghost use Rattle.prta_backlog.specs.Fitting.{FitsCap};
ghost use Rattle.prta_writer.specs.Report.{fits, head, rows, last_line, report_text, most_jobs};
ghost use Rattle.prta_writer.specs.Meaning.{AreAround, AreClose, AreFound};
ghost use Rattle.prta_writer.specs.Writing.{Took, TookPart, TookAllBut};

use crate::curves::Curves;
use crate::levels::put_level;
use crate::meaning::{what_levels_are, what_numbers_mean};
use crate::output::{make_room, put_all};
use crate::room::{Desk, Room};
use crate::rows::{JobLine, analyse, analyse_numbers, put_gap_rows, put_job_rows};
use prta_backlog::Bench;
use prta_dist::{Curve, Kernel};
use prta_outside::{Sink, SinkFault};
use prta_report::{LINE, Page, count_line};
use prta_sheet::Sheet;

/// Which report.
#[derive(Clone, Copy)]
pub enum What {
    /// The two numbers of every analysed job.
    Analyse,
    /// The same as records for a spreadsheet.
    AnalyseCsv,
    /// All entries, and for every analysed job both numbers and what its entries add up to.
    Ledger,
    /// A certificate: for every level a list that bounds what is left at the start of each hyperperiod, or why there is none.
    Certify,
}

/// Writes the whole report of a sheet. It takes no memory: it fails only where out does, and then out took a prefix of the
/// text.
pub fn write_report<O: Sink>(
    room: &mut Room,
    sheet: &Sheet,
    what: What,
    out: &mut O,
) -> Result<(), SinkFault>
    requires { fits sheet.now room.old ≡ true }
    ensures text { OnOk result (Took (O.taken out.old) (O.taken out.new) (report_text what sheet.now)) }
    ensures around { AreAround sheet.now }
    ensures close { AreClose sheet.now }
    ensures found { AreFound sheet.now }
    ensures fault { OnErr result (HasRisen (O.faults out.old) (O.faults out.new)) }
    ensures part { OnErr result (TookPart (O.taken out.old) (O.taken out.new) (report_text what sheet.now)) }
    ensures room { room.new ≡ room.old }
{
    what_numbers_mean(sheet);
    what_levels_are(sheet);
    let Room { curves, desk, .. } = room;
    match curves {
        Curves::Cells(bench) => put_report(bench, desk, sheet, what, out),
        Curves::Steps(bench) => put_report(bench, desk, sheet, what, out),
    }
}

/// Writes it over one kind of curve.
pub(crate) fn put_report<C: Curve, K: Kernel, O: Sink>(
    bench: &mut Bench<C, K>,
    desk: &mut Desk,
    sheet: &Sheet,
    what: What,
    out: &mut O,
) -> Result<(), SinkFault>
    requires fits { FitsCap sheet.now.settings.cap (C.cells bench.old.main) (C.cells bench.old.spare) (C.cells bench.old.kept)
        (vec_len bench.old.cells) (vec_len bench.old.tail) (vec_len bench.old.room) }
    requires entries { room_for sheet.now ≤ desk.old.ledger.room }
    requires jobs { most_jobs sheet.now ≤ vec_len desk.old.bounds }
    requires page { 2 * LINE ≤ length desk.old.page.written + desk.old.page.spare }
    ensures text { OnOk result (Took (O.taken out.old) (O.taken out.new) (report_text what sheet.now)) }
    ensures fault { OnErr result (HasRisen (O.faults out.old) (O.faults out.new)) }
    ensures part { OnErr result (TookPart (O.taken out.old) (O.taken out.new) (report_text what sheet.now)) }
    ensures fits { FitsCap sheet.now.settings.cap (C.cells bench.new.main) (C.cells bench.new.spare) (C.cells bench.new.kept)
        (vec_len bench.new.cells) (vec_len bench.new.tail) (vec_len bench.new.room) }
    ensures entries { desk.old.ledger.room ≤ desk.new.ledger.room }
    ensures jobs { vec_len desk.new.bounds ≡ vec_len desk.old.bounds }
    ensures page { length desk.new.page.written + desk.new.page.spare ≡ length desk.old.page.written + desk.old.page.spare }
{
    desk.page.clear();
    push_head(&mut desk.page, sheet, what);
    put_rows(bench, desk, sheet, what, out)?;
    make_room(&mut desk.page, out)?;
    desk.page.push(last_line(what));
    put_all(out, desk.page.bytes())?;
    Ok(())
}

// What stands before the rows.
fn push_head(page: &mut Page, sheet: &Sheet, what: What)
    requires room { 2 * LINE ≤ page.old.spare }
    ensures written { page.new.written ≡ page.old.written ++ head what sheet.now }
    ensures size { length page.new.written + page.new.spare ≡ length page.old.written + page.old.spare }
{
    match what {
        What::Analyse => {
            page.push(b"prta analyse 1\n");
            count_line(page, sheet);
        }
        What::AnalyseCsv => page.push(b"task,job,release,deadline,lower,upper\n"),
        What::Ledger => {
            page.push(b"prta ledger 1\n");
            count_line(page, sheet);
        }
        What::Certify => page.push(b"prta certificate 1\n"),
    }
}

// What stands after the rows.
fn last_line(what: What) -> &'static [u8]
    ensures line { result.now ≡ last_line what }
    ensures short { length result.now ≤ 4 }
{
    match what {
        What::AnalyseCsv => b"",
        What::Analyse | What::Ledger | What::Certify => b"end\n",
    }
}

// The rows of all tasks.
fn put_rows<C: Curve, K: Kernel, O: Sink>(
    bench: &mut Bench<C, K>,
    desk: &mut Desk,
    sheet: &Sheet,
    what: What,
    out: &mut O,
) -> Result<(), SinkFault>
    requires fits { FitsCap sheet.now.settings.cap (C.cells bench.old.main) (C.cells bench.old.spare) (C.cells bench.old.kept)
        (vec_len bench.old.cells) (vec_len bench.old.tail) (vec_len bench.old.room) }
    requires entries { room_for sheet.now ≤ desk.old.ledger.room }
    requires jobs { most_jobs sheet.now ≤ vec_len desk.old.bounds }
    requires page { LINE ≤ length desk.old.page.written + desk.old.page.spare }
    ensures took { OnOk result (TookAllBut (O.taken out.old) (O.taken out.new)
        (desk.old.page.written ++ flat_map (rows what sheet.now) (sheet_order sheet.now.tasks)) desk.new.page.written) }
    ensures fault { OnErr result (HasRisen (O.faults out.old) (O.faults out.new)) }
    ensures part { OnErr result (TookPart (O.taken out.old) (O.taken out.new)
        (desk.old.page.written ++ flat_map (rows what sheet.now) (sheet_order sheet.now.tasks))) }
    ensures never_falls { O.faults out.old ≤ O.faults out.new }
    ensures fits { FitsCap sheet.now.settings.cap (C.cells bench.new.main) (C.cells bench.new.spare) (C.cells bench.new.kept)
        (vec_len bench.new.cells) (vec_len bench.new.tail) (vec_len bench.new.room) }
    ensures entries { desk.old.ledger.room ≤ desk.new.ledger.room }
    ensures jobs { vec_len desk.new.bounds ≡ vec_len desk.old.bounds }
    ensures page { length desk.new.page.written + desk.new.page.spare ≡ length desk.old.page.written + desk.old.page.spare }
{
    let tasks = sheet.tasks();
    for i in 0..tasks.len() {
        put_task(bench, desk, sheet, what, i, out)?;
    }
    Ok(())
}

// The rows of a task.
fn put_task<C: Curve, K: Kernel, O: Sink>(
    bench: &mut Bench<C, K>,
    desk: &mut Desk,
    sheet: &Sheet,
    what: What,
    task: usize,
    out: &mut O,
) -> Result<(), SinkFault>
    requires task { task < length sheet.now.tasks }
    requires fits { FitsCap sheet.now.settings.cap (C.cells bench.old.main) (C.cells bench.old.spare) (C.cells bench.old.kept)
        (vec_len bench.old.cells) (vec_len bench.old.tail) (vec_len bench.old.room) }
    requires entries { room_for sheet.now ≤ desk.old.ledger.room }
    requires jobs { job_count sheet.now task ≤ vec_len desk.old.bounds }
    requires page { LINE ≤ length desk.old.page.written + desk.old.page.spare }
    ensures took { OnOk result (TookAllBut (O.taken out.old) (O.taken out.new) (desk.old.page.written ++ rows what sheet.now task) desk.new.page.written) }
    ensures fault { OnErr result (HasRisen (O.faults out.old) (O.faults out.new)) }
    ensures part { OnErr result (TookPart (O.taken out.old) (O.taken out.new) (desk.old.page.written ++ rows what sheet.now task)) }
    ensures never_falls { O.faults out.old ≤ O.faults out.new }
    ensures fits { FitsCap sheet.now.settings.cap (C.cells bench.new.main) (C.cells bench.new.spare) (C.cells bench.new.kept)
        (vec_len bench.new.cells) (vec_len bench.new.tail) (vec_len bench.new.room) }
    ensures entries { desk.old.ledger.room ≤ desk.new.ledger.room }
    ensures jobs { vec_len desk.new.bounds ≡ vec_len desk.old.bounds }
    ensures page { length desk.new.page.written + desk.new.page.spare ≡ length desk.old.page.written + desk.old.page.spare }
{
    match what {
        What::Analyse => {
            analyse_numbers(bench, sheet, task, &mut desk.bounds);
            put_job_rows(desk, sheet, task, JobLine::Numbers, out)
        }
        What::AnalyseCsv => {
            analyse_numbers(bench, sheet, task, &mut desk.bounds);
            put_job_rows(desk, sheet, task, JobLine::Record, out)
        }
        What::Ledger => {
            analyse(bench, desk, sheet, task);
            put_gap_rows(desk, sheet, task, out)
        }
        What::Certify => put_level(bench, &mut desk.page, sheet, task, out),
    }
}
