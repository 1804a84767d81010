//! The verdict of `check`.

ghost use Rattle.std.specs.Prelude.{◌≡◌, ◌+◌, ◌*◌, ◌≤◌, ◌<◌, ◌++◌, true, None, is_none, option_map, IfOk, IfSome, OnOk, OnErr, length};
ghost use Rattle.prta_outside.specs.Sink.{HasRisen};
ghost use Rattle.prta_dual.specs.Failing.{failing_job, failing, found_job};
ghost use Rattle.prta_report.specs.Analysis.{check_text};
ghost use Rattle.prta_writer.specs.Curves.{kind_of, FitsCurves};
ghost use Rattle.prta_writer.specs.Report.{fits};
ghost use Rattle.prta_writer.specs.Meaning.{ChancesPass};
ghost use Rattle.prta_writer.specs.Writing.{Took, TookPart};

use crate::curves::Curves;
use crate::meaning::what_numbers_mean;
use crate::output::put_all;
use crate::room::Room;
use prta_dual::{Failing, first_failing};
use prta_outside::{Sink, SinkFault};
use prta_report::{LINE, Page, no_line};
use prta_sheet::Sheet;

/// Writes the verdict on a sheet: whether every upper number passes its task's allowance, else the first job for which it
/// doesn't. It takes no memory: it fails only where out does, and then out took a prefix of the text.
pub fn write_check<O: Sink>(room: &mut Room, sheet: &Sheet, out: &mut O) -> Result<bool, SinkFault>
    requires { fits sheet.now room.old ≡ true }
    ensures text { OnOk result (Took (O.taken out.old) (O.taken out.new) (check_text sheet.now)) }
    ensures yes { IfOk result (λ yes. yes ≡ is_none (failing_job sheet.now)) }
    ensures passing { failing_job sheet.now ≡ None → ChancesPass sheet.now }
    ensures fault { OnErr result (HasRisen (O.faults out.old) (O.faults out.new)) }
    ensures part { OnErr result (TookPart (O.taken out.old) (O.taken out.new) (check_text sheet.now)) }
    ensures room { room.new ≡ room.old }
{
    what_numbers_mean(sheet);
    let Room { curves, desk, .. } = room;
    let found = first_by(curves, sheet);
    desk.page.clear();
    push_verdict(&mut desk.page, sheet, found);
    put_all(out, desk.page.bytes())?;
    Ok(found.is_none())
}

/// The first job whose upper number doesn't pass, by the curves.
pub(crate) fn first_by(curves: &mut Curves, sheet: &Sheet) -> Option<Failing>
    requires fits { FitsCurves sheet.now.settings.cap curves.old }
    ensures first { option_map (found_job sheet.now) result ≡ failing sheet.now }
    ensures on_sheet { IfSome result (λ found. found.task < length sheet.now.tasks) }
    ensures fits { FitsCurves sheet.now.settings.cap curves.new }
    ensures kind { kind_of curves.new ≡ kind_of curves.old }
{
    match curves {
        Curves::Cells(bench) => first_failing(bench, sheet),
        Curves::Steps(bench) => first_failing(bench, sheet),
    }
}

// Writes the text of the verdict.
fn push_verdict(page: &mut Page, sheet: &Sheet, found: Option<Failing>)
    requires room { 2 * LINE ≤ page.old.spare }
    requires on_sheet { IfSome found (λ job. job.task < length sheet.now.tasks) }
    requires first { option_map (found_job sheet.now) found ≡ failing sheet.now }
    ensures written { page.new.written ≡ page.old.written ++ check_text sheet.now }
    ensures size { length page.new.written + page.new.spare ≡ length page.old.written + page.old.spare }
{
    page.push(b"prta check 1\n");
    match found {
        Some(job) => no_line(page, sheet, job.task, job.number, job.bound),
        None => page.push(b"yes\n"),
    }
}
