//! The text of `slack`.

ghost use Rattle.std.specs.Prelude.{◌≡◌, ◌+◌, ◌*◌, ◌≤◌, ◌<◌, ◌++◌, None, is_none, option_map, IfOk, IfSome, length};
ghost use Rattle.prta_dual.specs.Failing.{failing_job, failing as first_failing, found_job};
ghost use Rattle.prta_slack.specs.Answer.{slack_of};
ghost use Rattle.prta_report.specs.Slacks.{slack_rows, slack_text, IsListed};
ghost use Rattle.prta_writer.specs.Curves.{FitsCurves};
ghost use Rattle.prta_writer.specs.Meaning.{ChancesPass};
ghost use Rattle.prta_writer.specs.Slacks.{slack_lines, SlacksSay};

use crate::checking::first_by;
use crate::curves::{Curves, curves_for};
use crate::meaning::what_numbers_mean;
use prta_dual::Failing;
use prta_mass::NoMemory;
use prta_report::{LINE, Page, fails_line, slack_line};
use prta_sheet::{Sheet, TASK_LIMIT};
use prta_slack::{Slack, find_slack, slacks_hold};
use std::alloc::Global;

/// The whole text of how many ticks may be added to the times of each task of a sheet, and whether the sheet passes as it is.
/// Fails for want of memory alone.
pub fn slack_page(alloc: Global, sheet: &Sheet) -> Result<(Page, bool), NoMemory>
    ensures text { IfOk result (λ answer. answer.0.written ≡ slack_text sheet.now) }
    ensures passes { IfOk result (λ answer. answer.1 ≡ is_none (failing_job sheet.now)) }
    ensures passing { failing_job sheet.now ≡ None → ChancesPass sheet.now }
    ensures say { SlacksSay sheet.now }
{
    what_numbers_mean(sheet);
    slacks_hold();
    let _tasks = sheet.tasks();
    let mut page = Page::with_room(alloc, (TASK_LIMIT + 2) * LINE)?;
    let mut curves = curves_for(alloc, sheet)?;
    page.push(b"prta slack 1\n");
    let failing = first_by(&mut curves, sheet);
    push_lines(alloc, &mut curves, sheet, failing, &mut page)?;
    page.push(b"end\n");
    Ok((page, failing.is_none()))
}

// The line of the job that fails, if one does, or else of each task.
fn push_lines(
    alloc: Global,
    curves: &mut Curves,
    sheet: &Sheet,
    failing: Option<Failing>,
    page: &mut Page,
) -> Result<(), NoMemory>
    requires fits { FitsCurves sheet.now.settings.cap curves.old }
    requires room { 12 * LINE ≤ page.old.spare }
    requires first { option_map (found_job sheet.now) failing ≡ first_failing sheet.now }
    requires on_sheet { IfSome failing (λ job. job.task < length sheet.now.tasks) }
    ensures written { IfOk result (λ _. page.new.written ≡ page.old.written ++ slack_lines sheet.now) }
    ensures room { IfOk result (λ _. page.old.spare ≤ page.new.spare + 12 * LINE) }
{
    match failing {
        Some(job) => {
            fails_line(page, sheet, job.task, job.number, job.bound);
            Ok(())
        }
        None => push_slacks(alloc, curves, sheet, page),
    }
}

// The line of each task.
fn push_slacks(
    alloc: Global,
    curves: &mut Curves,
    sheet: &Sheet,
    page: &mut Page,
) -> Result<(), NoMemory>
    requires fits { FitsCurves sheet.now.settings.cap curves.old }
    requires room { 12 * LINE ≤ page.old.spare }
    ensures written { IfOk result (λ _. page.new.written ≡ page.old.written ++ slack_rows sheet.now) }
    ensures room { IfOk result (λ _. page.old.spare ≤ page.new.spare + 12 * LINE) }
{
    slacks_hold();
    let tasks = sheet.tasks();
    for task in 0..tasks.len() {
        let slack = slack_by(alloc, curves, sheet, task)?;
        slack_line(page, sheet, task, slack);
    }
    Ok(())
}

// The slack of a task, by the curves.
fn slack_by(
    alloc: Global,
    curves: &mut Curves,
    sheet: &Sheet,
    task: usize,
) -> Result<Slack, NoMemory>
    requires task { task < length sheet.now.tasks }
    requires fits { FitsCurves sheet.now.settings.cap curves.old }
    ensures slack { IfOk result (λ slack. slack ≡ slack_of sheet.now task) }
    ensures listed { IfOk result (IsListed (length sheet.now.tasks)) }
    ensures fits { IfOk result (λ _. FitsCurves sheet.now.settings.cap curves.new) }
{
    slacks_hold();
    let _tasks = sheet.tasks();
    match curves {
        Curves::Cells(bench) => find_slack(alloc, bench, sheet, task),
        Curves::Steps(bench) => find_slack(alloc, bench, sheet, task),
    }
}
