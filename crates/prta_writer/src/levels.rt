//! The rows of `certify`: what is found for a level.

ghost use Rattle.std.specs.Prelude.{◌≡◌, ◌+◌, ◌≤◌, ◌<◌, ◌++◌, OnOk, OnErr, length, vec_len, flat_map};
ghost use Rattle.prta_outside.specs.Sink.{HasRisen};
ghost use Rattle.prta_backlog.specs.Fitting.{FitsCap};
ghost use Rattle.prta_certfile.specs.Steps.{steps_of};
ghost use Rattle.prta_certfile.specs.Text.{pair_text};
ghost use Rattle.prta_report.specs.Certificates.{certify_rows, list_rows};
ghost use Rattle.prta_writer.specs.Levels.{step_text};
ghost use Rattle.prta_writer.specs.Writing.{TookPart, TookAllBut};

use crate::output::make_room;
use prta_backlog::Bench;
use prta_certificate::{Verdict, find};
use prta_dist::{Curve, Kernel};
use prta_outside::{Sink, SinkFault};
use prta_report::{LINE, Page, beyond_line, level_head, overfull_line, pair_text};
use prta_sheet::Sheet;

/// Writes the line of a task's level: the list that is found for it, by its steps, or why there is none.
pub fn put_level<C: Curve, K: Kernel, O: Sink>(
    bench: &mut Bench<C, K>,
    page: &mut Page,
    sheet: &Sheet,
    task: usize,
    out: &mut O,
) -> Result<(), SinkFault>
    requires task { task < length sheet.now.tasks }
    requires fits { FitsCap sheet.now.settings.cap (C.cells bench.old.main) (C.cells bench.old.spare) (C.cells bench.old.kept)
        (vec_len bench.old.cells) (vec_len bench.old.tail) (vec_len bench.old.room) }
    requires page { LINE ≤ length page.old.written + page.old.spare }
    ensures took { OnOk result (TookAllBut (O.taken out.old) (O.taken out.new) (page.old.written ++ certify_rows sheet.now task) page.new.written) }
    ensures fault { OnErr result (HasRisen (O.faults out.old) (O.faults out.new)) }
    ensures part { OnErr result (TookPart (O.taken out.old) (O.taken out.new) (page.old.written ++ certify_rows sheet.now task)) }
    ensures never_falls { O.faults out.old ≤ O.faults out.new }
    ensures size { length page.new.written + page.new.spare ≡ length page.old.written + page.old.spare }
    ensures fits { FitsCap sheet.now.settings.cap (C.cells bench.new.main) (C.cells bench.new.spare) (C.cells bench.new.kept)
        (vec_len bench.new.cells) (vec_len bench.new.tail) (vec_len bench.new.room) }
{
    let _tasks = sheet.tasks();
    match find(bench, sheet, task) {
        Verdict::Turn(_) | Verdict::Slack(_) => put_list(&bench.main, page, sheet, task, out),
        Verdict::OverFull { work, hyperperiod } => {
            make_room(page, out)?;
            overfull_line(page, sheet, task, work, hyperperiod);
            Ok(())
        }
        Verdict::BeyondCap { peak } => {
            make_room(page, out)?;
            beyond_line(page, sheet, task, peak);
            Ok(())
        }
    }
}

// The line of a level with a list.
fn put_list<C: Curve, O: Sink>(
    list: &C,
    page: &mut Page,
    sheet: &Sheet,
    task: usize,
    out: &mut O,
) -> Result<(), SinkFault>
    requires task { task < length sheet.now.tasks }
    requires page { LINE ≤ length page.old.written + page.old.spare }
    ensures took { OnOk result (TookAllBut (O.taken out.old) (O.taken out.new) (page.old.written ++ list_rows sheet.now task (C.cells list.now)) page.new.written) }
    ensures fault { OnErr result (HasRisen (O.faults out.old) (O.faults out.new)) }
    ensures part { OnErr result (TookPart (O.taken out.old) (O.taken out.new) (page.old.written ++ list_rows sheet.now task (C.cells list.now))) }
    ensures never_falls { O.faults out.old ≤ O.faults out.new }
    ensures size { length page.new.written + page.new.spare ≡ length page.old.written + page.old.spare }
{
    make_room(page, out)?;
    level_head(page, sheet, task);
    put_steps(list, page, out)?;
    make_room(page, out)?;
    page.push(b"\n");
    Ok(())
}

// The places where a list rises, with its values there.
fn put_steps<C: Curve, O: Sink>(list: &C, page: &mut Page, out: &mut O) -> Result<(), SinkFault>
    requires page { LINE ≤ length page.old.written + page.old.spare }
    ensures took { OnOk result (TookAllBut (O.taken out.old) (O.taken out.new) (page.old.written ++ flat_map pair_text (steps_of (C.cells list.now))) page.new.written) }
    ensures fault { OnErr result (HasRisen (O.faults out.old) (O.faults out.new)) }
    ensures part { OnErr result (TookPart (O.taken out.old) (O.taken out.new) (page.old.written ++ flat_map pair_text (steps_of (C.cells list.now)))) }
    ensures never_falls { O.faults out.old ≤ O.faults out.new }
    ensures size { length page.new.written + page.new.spare ≡ length page.old.written + page.old.spare }
{
    let mut before = 0;
    for place in 0..list.cap() {
        let value = list.at(place);
        put_step(page, before, place as u32, value, out)?;
        before = value;
    }
    Ok(())
}

// The step at a place, where the value there is above the one before.
fn put_step<O: Sink>(
    page: &mut Page,
    before: u64,
    place: u32,
    value: u64,
    out: &mut O,
) -> Result<(), SinkFault>
    requires page { LINE ≤ length page.old.written + page.old.spare }
    ensures took { OnOk result (TookAllBut (O.taken out.old) (O.taken out.new) (page.old.written ++ step_text before place value) page.new.written) }
    ensures fault { OnErr result (HasRisen (O.faults out.old) (O.faults out.new)) }
    ensures part { OnErr result (TookPart (O.taken out.old) (O.taken out.new) (page.old.written ++ step_text before place value)) }
    ensures never_falls { O.faults out.old ≤ O.faults out.new }
    ensures size { length page.new.written + page.new.spare ≡ length page.old.written + page.old.spare }
{
    if value > before {
        make_room(page, out)?;
        pair_text(page, place, value);
    }
    Ok(())
}
