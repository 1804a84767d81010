//! The text of `tail`: steady numbers for every level, by a certificate or by a geometric tail.

ghost use Rattle.std.specs.Prelude.{◌≡◌, ◌+◌, ◌≤◌, ◌<◌, ◌++◌, true, OnOk, OnErr, length, vec_len, flat_map};
ghost use Rattle.prta_sheet.specs.Sheet.{sheet_order};
ghost use Rattle.prta_outside.specs.Sink.{HasRisen};
ghost use Rattle.prta_backlog.specs.Level.{sheet_level};
ghost use Rattle.prta_backlog.specs.Fitting.{FitsCap};
ghost use Rattle.prta_tail.specs.Laws.{Passes};
ghost use Rattle.prta_report.specs.Tails.{tail_at, tail_rows, tail_text};
ghost use Rattle.prta_writer.specs.Report.{fits, most_jobs};
ghost use Rattle.prta_writer.specs.Meaning.{LevelsHold};
ghost use Rattle.prta_writer.specs.Writing.{Took, TookPart, TookAllBut};

use crate::curves::Curves;
use crate::meaning::what_tails_mean;
use crate::output::{make_room, put_all};
use crate::room::Room;
use crate::steadiness::{jobs_in_turn, put_certified, put_numbers};
use prta_backlog::{Bench, worst_backlog};
use prta_certificate::{Verdict, find};
use prta_dist::{Curve, Kernel};
use prta_jobs::TaskSet;
use prta_outside::{Sink, SinkFault};
use prta_report::{LINE, Page, beyond_line, overfull_line, tail_line};
use prta_sheet::Sheet;
use prta_tail::{Ratio, find_ratio, tail_steady};

/// Writes steady numbers for every level of a sheet: for the list that is found for it, or where its greatest work is above the
/// hyperperiod, for its geometric tail; or why there are none. It takes no memory: it fails only where out does, and then out
/// took a prefix of the text.
pub fn write_tail<O: Sink>(room: &mut Room, sheet: &Sheet, out: &mut O) -> Result<(), SinkFault>
    requires { fits sheet.now room.old ≡ true }
    ensures text { OnOk result (Took (O.taken out.old) (O.taken out.new) (tail_text sheet.now)) }
    ensures hold { LevelsHold sheet.now }
    ensures fault { OnErr result (HasRisen (O.faults out.old) (O.faults out.new)) }
    ensures part { OnErr result (TookPart (O.taken out.old) (O.taken out.new) (tail_text sheet.now)) }
    ensures room { room.new ≡ room.old }
{
    what_tails_mean(sheet);
    let Room {
        curves,
        desk,
        steady,
        ..
    } = room;
    match curves {
        Curves::Cells(bench) => put_tails(bench, &mut desk.page, steady, sheet, out),
        Curves::Steps(bench) => put_tails(bench, &mut desk.page, steady, sheet, out),
    }
}

// Writes them over one kind of curve.
fn put_tails<C: Curve, K: Kernel, O: Sink>(
    bench: &mut Bench<C, K>,
    page: &mut Page,
    places: &mut [u64],
    sheet: &Sheet,
    out: &mut O,
) -> Result<(), SinkFault>
    requires fits { FitsCap sheet.now.settings.cap (C.cells bench.old.main) (C.cells bench.old.spare) (C.cells bench.old.kept)
        (vec_len bench.old.cells) (vec_len bench.old.tail) (vec_len bench.old.room) }
    requires places { most_jobs sheet.now ≤ length places.old }
    requires page { LINE ≤ length page.old.written + page.old.spare }
    ensures text { OnOk result (Took (O.taken out.old) (O.taken out.new) (tail_text sheet.now)) }
    ensures fault { OnErr result (HasRisen (O.faults out.old) (O.faults out.new)) }
    ensures part { OnErr result (TookPart (O.taken out.old) (O.taken out.new) (tail_text sheet.now)) }
    ensures fits { FitsCap sheet.now.settings.cap (C.cells bench.new.main) (C.cells bench.new.spare) (C.cells bench.new.kept)
        (vec_len bench.new.cells) (vec_len bench.new.tail) (vec_len bench.new.room) }
    ensures places { length places.new ≡ length places.old }
    ensures size { length page.new.written + page.new.spare ≡ length page.old.written + page.old.spare }
{
    page.clear();
    page.push(b"prta tail 1\n");
    put_levels(bench, page, places, sheet, out)?;
    make_room(page, out)?;
    page.push(b"end\n");
    put_all(out, page.bytes())?;
    Ok(())
}

// The rows of all levels.
fn put_levels<C: Curve, K: Kernel, O: Sink>(
    bench: &mut Bench<C, K>,
    page: &mut Page,
    places: &mut [u64],
    sheet: &Sheet,
    out: &mut O,
) -> Result<(), SinkFault>
    requires fits { FitsCap sheet.now.settings.cap (C.cells bench.old.main) (C.cells bench.old.spare) (C.cells bench.old.kept)
        (vec_len bench.old.cells) (vec_len bench.old.tail) (vec_len bench.old.room) }
    requires places { most_jobs sheet.now ≤ length places.old }
    requires page { LINE ≤ length page.old.written + page.old.spare }
    ensures took { OnOk result (TookAllBut (O.taken out.old) (O.taken out.new) (page.old.written ++ flat_map (tail_rows sheet.now) (sheet_order sheet.now.tasks)) page.new.written) }
    ensures fault { OnErr result (HasRisen (O.faults out.old) (O.faults out.new)) }
    ensures part { OnErr result (TookPart (O.taken out.old) (O.taken out.new) (page.old.written ++ flat_map (tail_rows sheet.now) (sheet_order sheet.now.tasks))) }
    ensures never_falls { O.faults out.old ≤ O.faults out.new }
    ensures size { length page.new.written + page.new.spare ≡ length page.old.written + page.old.spare }
    ensures fits { FitsCap sheet.now.settings.cap (C.cells bench.new.main) (C.cells bench.new.spare) (C.cells bench.new.kept)
        (vec_len bench.new.cells) (vec_len bench.new.tail) (vec_len bench.new.room) }
    ensures places { length places.new ≡ length places.old }
{
    let tasks = sheet.tasks();
    for i in 0..tasks.len() {
        put_level(bench, page, places, sheet, i, out)?;
    }
    Ok(())
}

// The rows of a level.
fn put_level<C: Curve, K: Kernel, O: Sink>(
    bench: &mut Bench<C, K>,
    page: &mut Page,
    places: &mut [u64],
    sheet: &Sheet,
    task: usize,
    out: &mut O,
) -> Result<(), SinkFault>
    requires task { task < length sheet.now.tasks }
    requires fits { FitsCap sheet.now.settings.cap (C.cells bench.old.main) (C.cells bench.old.spare) (C.cells bench.old.kept)
        (vec_len bench.old.cells) (vec_len bench.old.tail) (vec_len bench.old.room) }
    requires places { most_jobs sheet.now ≤ length places.old }
    requires page { LINE ≤ length page.old.written + page.old.spare }
    ensures took { OnOk result (TookAllBut (O.taken out.old) (O.taken out.new) (page.old.written ++ tail_rows sheet.now task) page.new.written) }
    ensures fault { OnErr result (HasRisen (O.faults out.old) (O.faults out.new)) }
    ensures part { OnErr result (TookPart (O.taken out.old) (O.taken out.new) (page.old.written ++ tail_rows sheet.now task)) }
    ensures never_falls { O.faults out.old ≤ O.faults out.new }
    ensures size { length page.new.written + page.new.spare ≡ length page.old.written + page.old.spare }
    ensures fits { FitsCap sheet.now.settings.cap (C.cells bench.new.main) (C.cells bench.new.spare) (C.cells bench.new.kept)
        (vec_len bench.new.cells) (vec_len bench.new.tail) (vec_len bench.new.room) }
    ensures places { length places.new ≡ length places.old }
{
    let _tasks = sheet.tasks();
    match find(bench, sheet, task) {
        Verdict::Turn(_) | Verdict::Slack(_) => {
            put_certified(bench, page, places, sheet, task, out)
        }
        Verdict::OverFull { work, hyperperiod } => match find_ratio(sheet, task) {
            Some(ratio) => put_tail(bench, page, places, sheet, task, ratio, out),
            None => {
                make_room(page, out)?;
                overfull_line(page, sheet, task, work, hyperperiod);
                Ok(())
            }
        },
        Verdict::BeyondCap { peak } => {
            make_room(page, out)?;
            beyond_line(page, sheet, task, peak);
            Ok(())
        }
    }
}

// The rows of a level with a tail at a ratio.
fn put_tail<C: Curve, K: Kernel, O: Sink>(
    bench: &mut Bench<C, K>,
    page: &mut Page,
    places: &mut [u64],
    sheet: &Sheet,
    task: usize,
    ratio: Ratio,
    out: &mut O,
) -> Result<(), SinkFault>
    requires task { task < length sheet.now.tasks }
    requires fits { FitsCap sheet.now.settings.cap (C.cells bench.old.main) (C.cells bench.old.spare) (C.cells bench.old.kept)
        (vec_len bench.old.cells) (vec_len bench.old.tail) (vec_len bench.old.room) }
    requires places { most_jobs sheet.now ≤ length places.old }
    requires page { LINE ≤ length page.old.written + page.old.spare }
    requires passes { Passes sheet.now.tasks (sheet_level task) ratio }
    ensures took { OnOk result (TookAllBut (O.taken out.old) (O.taken out.new) (page.old.written ++ tail_at sheet.now task ratio) page.new.written) }
    ensures fault { OnErr result (HasRisen (O.faults out.old) (O.faults out.new)) }
    ensures part { OnErr result (TookPart (O.taken out.old) (O.taken out.new) (page.old.written ++ tail_at sheet.now task ratio)) }
    ensures never_falls { O.faults out.old ≤ O.faults out.new }
    ensures size { length page.new.written + page.new.spare ≡ length page.old.written + page.old.spare }
    ensures fits { FitsCap sheet.now.settings.cap (C.cells bench.new.main) (C.cells bench.new.spare) (C.cells bench.new.kept)
        (vec_len bench.new.cells) (vec_len bench.new.tail) (vec_len bench.new.room) }
    ensures places { length places.new ≡ length places.old }
{
    let _tasks = sheet.tasks();
    make_room(page, out)?;
    let worst = worst_backlog(sheet, TaskSet::below(task), task);
    tail_line(page, sheet, task, ratio, worst);
    let found = &mut places[..jobs_in_turn(sheet, task)];
    tail_steady(bench, sheet, task, ratio, found);
    put_numbers(page, sheet, task, found, out)
}
