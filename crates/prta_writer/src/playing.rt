//! The text of a session, print by print.

ghost use Rattle.std.specs.Prelude.{◌≡◌, ℕ, ◌+◌, ◌*◌, ◌≤◌, ◌<◌, ◌++◌, true, OnOk, OnErr, length, flat_map, codes};
ghost use Rattle.prta_outside.specs.Sink.{HasRisen};
ghost use Rattle.prta_session.specs.State.{is_fresh};
ghost use Rattle.prta_session.specs.Playing.{AreAccepted, print_count, tasks_analysed};
ghost use Rattle.prta_session.specs.Workers.{lengthened};
ghost use Rattle.prta_sheet.specs.Sheet.{sheet_order, hyperperiod};
ghost use Rattle.prta_sheet.specs.Counts.{all_jobs};
ghost use Rattle.prta_report.specs.Text.{count_line as line_of_counts};
ghost use Rattle.prta_report.specs.Analysis.{analyse_text, analyse_rows};
ghost use Rattle.prta_writer.specs.Playing.{session_text, AreAroundAtPrints, IsGoodLine, session_after, session_played, text_of, tasks_of, ShownBy};
ghost use Rattle.prta_writer.specs.Writing.{Took, TookPart, TookAllBut};

use crate::meaning::what_numbers_mean;
use crate::output::{make_room, put_all};
use crate::rows::{JobLine, put_jobs};
use prta_outside::{Sink, SinkFault};
use prta_report::{LINE, Page, count_line};
use prta_session::{Line, Script, Session, Worker, scripts_go_by_lines};
use prta_sheet::Sheet;

/// Makes the edits of a script in order; at each print it analyses the stale tasks and writes the text of `analyse` of the
/// sheet as it then is. What stands on the page is dropped. It takes no memory: it fails only where out does, and then out
/// took a prefix of the text.
pub fn play<W: Worker, O: Sink>(
    session: &mut Session,
    script: Script,
    worker: &mut W,
    page: &mut Page,
    out: &mut O,
) -> Result<(), SinkFault>
    requires accepted { AreAccepted session.old.sheet script }
    requires cap { W.cap worker.old ≡ session.old.sheet.settings.cap }
    requires room { length session.old.sheet.tasks * print_count script ≤ W.room worker.old }
    requires page { LINE ≤ page.old.spare }
    ensures text { OnOk result (Took (O.taken out.old) (O.taken out.new) (session_text session.old.sheet script)) }
    ensures analysed { OnOk result (W.analysed worker.new ≡ lengthened (W.analysed worker.old) (tasks_analysed session.old script)) }
    ensures around { OnOk result (AreAroundAtPrints session.old.sheet script) }
    ensures session { OnOk result (session.new ≡ session_played script session.old) }
    ensures fault { OnErr result (HasRisen (O.faults out.old) (O.faults out.new)) }
    ensures part { OnErr result (TookPart (O.taken out.old) (O.taken out.new) (session_text session.old.sheet script)) }
{
    scripts_go_by_lines();
    let mut left = script;
    page.clear();
    while let Some(line) = left.next() {
        play_line(session, line, worker, page, out)?;
    }
    put_all(out, page.bytes())?;
    Ok(())
}

// Makes the edit of a line, or analyses the stale tasks and writes the text of the sheet.
fn play_line<W: Worker, O: Sink>(
    session: &mut Session,
    line: Line,
    worker: &mut W,
    page: &mut Page,
    out: &mut O,
) -> Result<(), SinkFault>
    requires accepted { IsGoodLine line session.old.sheet }
    requires cap { W.cap worker.old ≡ session.old.sheet.settings.cap }
    requires room { length (tasks_of line session.old) ≤ W.room worker.old }
    requires page { LINE ≤ length page.old.written + page.old.spare }
    ensures session { OnOk result (session.new ≡ session_after line session.old) }
    ensures analysed { OnOk result (W.analysed worker.new ≡ lengthened (W.analysed worker.old) (tasks_of line session.old)) }
    ensures cap { W.cap worker.new ≡ W.cap worker.old }
    ensures room { W.room worker.old ≤ W.room worker.new + length (tasks_of line session.old) }
    ensures shown { ShownBy line session.old.sheet }
    ensures took { OnOk result (TookAllBut (O.taken out.old) (O.taken out.new) (page.old.written ++ text_of line session.old) page.new.written) }
    ensures fault { OnErr result (HasRisen (O.faults out.old) (O.faults out.new)) }
    ensures part { OnErr result (TookPart (O.taken out.old) (O.taken out.new) (page.old.written ++ text_of line session.old)) }
    ensures never_falls { O.faults out.old ≤ O.faults out.new }
    ensures size { length page.new.written + page.new.spare ≡ length page.old.written + page.old.spare }
{
    match line {
        Line::Print => {
            scripts_go_by_lines();
            what_numbers_mean(session.sheet());
            session.refresh(worker);
            put_analysis(session, page, out)
        }
        Line::Change(edit) => match session.edit(edit) {
            Ok(()) => Ok(()),
            Err(_) => unreachable!(),
        },
    }
}

// Writes the text of `analyse` of a session's sheet, all tasks of which are fresh.
fn put_analysis<O: Sink>(session: &Session, page: &mut Page, out: &mut O) -> Result<(), SinkFault>
    requires fresh { (i : ℕ) → i < length session.now.sheet.tasks → is_fresh session.now i ≡ true }
    requires page { LINE ≤ length page.old.written + page.old.spare }
    ensures took { OnOk result (TookAllBut (O.taken out.old) (O.taken out.new) (page.old.written ++ analyse_text session.now.sheet) page.new.written) }
    ensures fault { OnErr result (HasRisen (O.faults out.old) (O.faults out.new)) }
    ensures part { OnErr result (TookPart (O.taken out.old) (O.taken out.new) (page.old.written ++ analyse_text session.now.sheet)) }
    ensures never_falls { O.faults out.old ≤ O.faults out.new }
    ensures size { length page.new.written + page.new.spare ≡ length page.old.written + page.old.spare }
{
    put_title(session.sheet(), page, out)?;
    put_rows(session, page, out)?;
    make_room(page, out)?;
    page.push(b"end\n");
    Ok(())
}

// What stands before the rows.
fn put_title<O: Sink>(sheet: &Sheet, page: &mut Page, out: &mut O) -> Result<(), SinkFault>
    requires page { LINE ≤ length page.old.written + page.old.spare }
    ensures took { OnOk result (TookAllBut (O.taken out.old) (O.taken out.new)
        (page.old.written ++ (codes "prta analyse 1\n" ++ line_of_counts (hyperperiod sheet.now.tasks) (all_jobs sheet.now))) page.new.written) }
    ensures fault { OnErr result (HasRisen (O.faults out.old) (O.faults out.new)) }
    ensures part { OnErr result (TookPart (O.taken out.old) (O.taken out.new)
        (page.old.written ++ (codes "prta analyse 1\n" ++ line_of_counts (hyperperiod sheet.now.tasks) (all_jobs sheet.now)))) }
    ensures never_falls { O.faults out.old ≤ O.faults out.new }
    ensures size { length page.new.written + page.new.spare ≡ length page.old.written + page.old.spare }
{
    make_room(page, out)?;
    page.push(b"prta analyse 1\n");
    make_room(page, out)?;
    count_line(page, sheet);
    Ok(())
}

// The rows of all tasks.
fn put_rows<O: Sink>(session: &Session, page: &mut Page, out: &mut O) -> Result<(), SinkFault>
    requires fresh { (i : ℕ) → i < length session.now.sheet.tasks → is_fresh session.now i ≡ true }
    requires page { LINE ≤ length page.old.written + page.old.spare }
    ensures took { OnOk result (TookAllBut (O.taken out.old) (O.taken out.new)
        (page.old.written ++ flat_map (analyse_rows session.now.sheet) (sheet_order session.now.sheet.tasks)) page.new.written) }
    ensures fault { OnErr result (HasRisen (O.faults out.old) (O.faults out.new)) }
    ensures part { OnErr result (TookPart (O.taken out.old) (O.taken out.new)
        (page.old.written ++ flat_map (analyse_rows session.now.sheet) (sheet_order session.now.sheet.tasks))) }
    ensures never_falls { O.faults out.old ≤ O.faults out.new }
    ensures size { length page.new.written + page.new.spare ≡ length page.old.written + page.old.spare }
{
    let sheet = session.sheet();
    let tasks = sheet.tasks();
    for i in 0..tasks.len() {
        let found = session.bounds(i);
        put_jobs(page, sheet, i, found, JobLine::Numbers, out)?;
    }
    Ok(())
}
