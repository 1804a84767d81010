//! The lines on what runs when.

ghost use Rattle.std.specs.Prelude.{◌≡◌, ◌+◌, ◌<◌, ◌≤◌, ◌++◌, length, IfSome};
ghost use Rattle.prta_report.specs.Text.{busy_line, idle_line, run_line};

use crate::number::push_number;
use crate::page::{LINE, Page};
use prta_jobs::Job;
use prta_sheet::Sheet;

/// Appends the line of the ticks `from` to `to`, the latter not included, in which the job runs, or in which the
/// processor is idle where there is no job.
pub fn run_line(page: &mut Page, sheet: &Sheet, job: Option<Job>, from: u64, to: u64)
    requires room { LINE ≤ page.old.spare }
    requires job { IfSome job (λ j. j.task < length sheet.now.tasks) }
    ensures written { page.new.written ≡ page.old.written ++ run_line sheet.now.tasks job from to }
    ensures room { page.old.spare ≤ page.new.spare + LINE }
{
    match job {
        Some(job) => push_busy(page, sheet.tasks()[job.task].name(), job.number, from, to),
        None => push_idle(page, from, to),
    }
}

#[tactic(auto, unfolding(crate::specs::Text::busy_line))]
fn push_busy(page: &mut Page, name: &str, number: u32, from: u64, to: u64)
    requires room { LINE ≤ page.old.spare }
    requires name { length name.now ≤ 24 }
    ensures written { page.new.written ≡ page.old.written ++ busy_line name.now number from to }
    ensures room { page.old.spare ≤ page.new.spare + LINE }
{
    page.push(b"run ");
    push_number(page, from);
    page.push(b" ");
    push_number(page, to);
    page.push(b" ");
    page.push(name.as_bytes());
    page.push(b" ");
    push_number(page, number as u64);
    page.push(b"\n");
}

#[tactic(auto, unfolding(crate::specs::Text::idle_line))]
fn push_idle(page: &mut Page, from: u64, to: u64)
    requires { LINE ≤ page.old.spare }
    ensures written { page.new.written ≡ page.old.written ++ idle_line from to }
    ensures room { page.old.spare ≤ page.new.spare + LINE }
{
    page.push(b"idle ");
    push_number(page, from);
    page.push(b" ");
    push_number(page, to);
    page.push(b"\n");
}
