//! The text of `simulate`.

ghost use Rattle.std.specs.Prelude.{◌≡◌, ◌+◌, ◌*◌, ◌<◌, ◌≤◌, ◌^◌, ◌++◌, length, option_map, flat_map, IfOk, IfSome, All};
ghost use Rattle.std.specs.List.{range_with_len};
ghost use Rattle.prta_sheet.specs.Sheet.{horizon};
ghost use Rattle.prta_sheet.specs.Job.{analysed_jobs};
ghost use Rattle.prta_jobs.specs.Laws.{IsBefore};
ghost use Rattle.prta_ticksim.specs.Times.{job_at};
ghost use Rattle.prta_report.specs.TraceLaws.{AreInTurn};
ghost use Rattle.prta_report.specs.Trace.{trace_text, line_of_run, standing_line, standing_text, named_text, finished_text, left_text};

use prta_jobs::{Job, jobs_are_before};
use prta_mass::NoMemory;
use prta_report::{LINE, Page, push_number, run_line, runs_are_longest, trace_tells_misses};
use prta_sheet::Sheet;
use prta_ticksim::{Machine, Run};
use std::alloc::Global;

/// The whole text for a machine that is to run the sheet's analysed jobs up to the horizon.
pub fn trace_page(alloc: Global, sheet: &Sheet, mut machine: Machine) -> Result<Page, NoMemory>
    requires jobs { machine.jobs ≡ analysed_jobs sheet.now }
    requires horizon { machine.horizon ≡ horizon sheet.now }
    requires start { machine.ticks ≡ 0 }
    ensures { IfOk result (λ page. page.written ≡ trace_text sheet.now.tasks machine) }
{
    // Each job is of a task on the sheet, the sheet's numbers are in their ranges, and there are no other longest runs.
    jobs_are_before();
    runs_are_longest();
    let _tasks = sheet.tasks();
    let runs = all_runs(alloc, &mut machine)?;
    let lines = runs.len() + machine.jobs().len() + 2;
    let mut page = Page::with_room(alloc, lines * LINE)?;
    page.push(b"prta simulate 1\n");
    push_runs(&mut page, sheet, machine.jobs(), &runs);
    push_standings(&mut page, sheet, &machine);
    page.push(b"end\n");
    Ok(page)
}

// All runs of the machine, from its first tick to the horizon.
fn all_runs(alloc: Global, machine: &mut Machine) -> Result<Vec<Run>, NoMemory>
    requires { machine.old.ticks ≡ 0 }
    ensures runs { IfOk result (λ runs. AreInTurn machine.old 0 machine.old.horizon runs.items) }
    ensures jobs { IfOk result (λ runs. All (λ run. IfSome run.who (λ i. i < length machine.old.jobs)) runs.items) }
    ensures few { IfOk result (λ runs. length runs.items ≤ machine.old.horizon) }
    ensures moved { IfOk result (λ _. machine.new ≡ record machine.old { ticks = machine.old.horizon }) }
{
    let mut runs = Vec::new(alloc);
    while let Some(run) = machine.next_run() {
        runs.push(run)?;
    }
    Ok(runs)
}

fn push_runs(page: &mut Page, sheet: &Sheet, jobs: &[Job], runs: &[Run])
    requires room { length runs.now * LINE ≤ page.old.spare }
    requires jobs { All (λ job. job.task < length sheet.now.tasks) jobs.now }
    requires runs { All (λ run. IfSome run.who (λ i. i < length jobs.now)) runs.now }
    ensures written { page.new.written ≡ page.old.written ++ flat_map (line_of_run sheet.now.tasks jobs.now) runs.now }
    ensures room { page.old.spare ≤ page.new.spare + length runs.now * LINE }
{
    for run in runs {
        run_line(page, sheet, job_of(jobs, run.who), run.from, run.to);
    }
}

// The job at a place, where one is given.
fn job_of(jobs: &[Job], who: Option<usize>) -> Option<Job>
    requires { IfSome who (λ i. i < length jobs.now) }
    ensures { result ≡ option_map (job_at jobs.now) who }
{
    match who {
        Some(i) => Some(jobs[i]),
        None => None,
    }
}

// How each job stands at the horizon.
fn push_standings(page: &mut Page, sheet: &Sheet, machine: &Machine)
    requires room { length machine.now.jobs * LINE ≤ page.old.spare }
    requires jobs { All (IsBefore sheet.now.tasks machine.now.horizon) machine.now.jobs }
    requires near { machine.now.horizon ≤ 2 ^ 32 }
    requires end { machine.now.ticks ≡ machine.now.horizon }
    ensures written { page.new.written ≡ page.old.written ++ flat_map (standing_line sheet.now.tasks machine.now) (range_with_len 0 (length machine.now.jobs)) }
    ensures room { page.old.spare ≤ page.new.spare + length machine.now.jobs * LINE }
{
    for i in 0..machine.jobs().len() {
        push_standing(page, sheet, machine, i);
    }
}

fn push_standing(page: &mut Page, sheet: &Sheet, machine: &Machine, i: usize)
    requires room { LINE ≤ page.old.spare }
    requires job { i < length machine.now.jobs }
    requires before { IsBefore sheet.now.tasks machine.now.horizon (job_at machine.now.jobs i) }
    requires near { machine.now.horizon ≤ 2 ^ 32 }
    requires end { machine.now.ticks ≡ machine.now.horizon }
    ensures written { page.new.written ≡ page.old.written ++ standing_line sheet.now.tasks machine.now i }
    ensures room { page.old.spare ≤ page.new.spare + LINE }
{
    let job = &machine.jobs()[i];
    let task = &sheet.tasks()[job.task];
    push_name(page, task.name(), job.number);
    push_state(page, machine, i, job.release + task.deadline() as u64);
}

// Whether job i finished, and whether it met its deadline.
fn push_state(page: &mut Page, machine: &Machine, i: usize, deadline: u64)
    requires room { 64 ≤ page.old.spare }
    requires job { i < length machine.now.jobs }
    requires end { machine.now.ticks ≡ machine.now.horizon }
    ensures written { page.new.written ≡ page.old.written ++ standing_text machine.now deadline i }
    ensures room { page.old.spare ≤ page.new.spare + 64 }
{
    trace_tells_misses();
    match machine.finish(i) {
        Some(finish) => push_finished(page, deadline, finish),
        None => push_left(page, deadline, machine.remaining(i) as u64, machine.now()),
    }
}

#[tactic(auto, unfolding(prta_report::specs::Trace::named_text))]
fn push_name(page: &mut Page, name: &str, number: u32)
    requires room { 64 ≤ page.old.spare }
    requires name { length name.now ≤ 24 }
    ensures written { page.new.written ≡ page.old.written ++ named_text name.now number }
    ensures room { page.old.spare ≤ page.new.spare + 64 }
{
    page.push(b"job ");
    page.push(name.as_bytes());
    page.push(b" ");
    push_number(page, number as u64);
}

// A job that finished, at its deadline at the latest or after it.
#[tactic(auto, unfolding(prta_report::specs::Trace::finished_text))]
fn push_finished(page: &mut Page, deadline: u64, finish: u64)
    requires { 64 ≤ page.old.spare }
    ensures written { page.new.written ≡ page.old.written ++ finished_text deadline finish }
    ensures room { page.old.spare ≤ page.new.spare + 64 }
{
    page.push(b" finish ");
    push_number(page, finish);
    page.push(if finish <= deadline {
        b" met\n"
    } else {
        b" missed\n"
    });
}

// A job that is left at the horizon, where its deadline is past or still to come.
#[tactic(auto, unfolding(prta_report::specs::Trace::left_text))]
fn push_left(page: &mut Page, deadline: u64, left: u64, horizon: u64)
    requires { 64 ≤ page.old.spare }
    ensures written { page.new.written ≡ page.old.written ++ left_text deadline left horizon }
    ensures room { page.old.spare ≤ page.new.spare + 64 }
{
    page.push(b" left ");
    push_number(page, left);
    page.push(if deadline <= horizon {
        b" missed\n"
    } else {
        b" pending\n"
    });
}
