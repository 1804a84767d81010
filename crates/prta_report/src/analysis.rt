//! The lines on numbers, entries and sums.

ghost use Rattle.std.specs.Prelude.{◌≡◌, ◌+◌, ◌<◌, ◌≤◌, ◌++◌, length, codes, decimal};
ghost use Rattle.prta_mass.specs.Unit.{unit};
ghost use Rattle.prta_mass.specs.Decimal.{decimal_below, decimal_above};
ghost use Rattle.prta_sheet.specs.Sheet.{hyperperiod};
ghost use Rattle.prta_sheet.specs.Job.{nth_job};
ghost use Rattle.prta_sheet.specs.Counts.{all_jobs};
ghost use Rattle.prta_report.specs.Text.{count_line, job_line, csv_line, record_of_job, entry_line, gap_line, failing_line, dir_text, kind_text, line_of_job, line_of_entry, line_of_gap, line_of_no, line_of_fails};

use crate::number::{push_number, push_sum};
use crate::page::{LINE, Page};
use prta_dual::Bounds;
use prta_jobs::release;
use prta_ledger::{Entry, Kind};
use prta_mass::{Dir, decimal_down, decimal_up};
use prta_sheet::Sheet;

/// Appends the line of the sheet's hyperperiod and of its number of analysed jobs.
pub fn count_line(page: &mut Page, sheet: &Sheet)
    requires room { LINE ≤ page.old.spare }
    ensures written { page.new.written ≡ page.old.written ++ count_line (hyperperiod sheet.now.tasks) (all_jobs sheet.now) }
    ensures room { page.old.spare ≤ page.new.spare + LINE }
    ensures size { length page.new.written + page.new.spare ≡ length page.old.written + page.old.spare }
{
    push_count(page, sheet.hyperperiod(), sheet.all_jobs() as u64);
}

fn push_count(page: &mut Page, hyperperiod: u64, jobs: u64)
    requires room { LINE ≤ page.old.spare }
    ensures written { page.new.written ≡ page.old.written ++ count_line hyperperiod jobs }
    ensures room { page.old.spare ≤ page.new.spare + LINE }
    ensures size { length page.new.written + page.new.spare ≡ length page.old.written + page.old.spare }
{
    page.push(b"hyperperiod ");
    push_number(page, hyperperiod);
    page.push(b" jobs ");
    push_number(page, jobs);
    page.push(b"\n");
}

/// Appends the line of the task's job of this number, with its two numbers in units of 2^-60: the lower one as a decimal
/// is rounded down, the upper one up.
pub fn job_line(page: &mut Page, sheet: &Sheet, task: usize, number: u32, bounds: Bounds)
    requires room { LINE ≤ page.old.spare }
    requires task { task < length sheet.now.tasks }
    requires lower { bounds.lower ≤ unit }
    requires upper { bounds.upper ≤ unit }
    ensures written { page.new.written ≡ page.old.written ++ line_of_job sheet.now.tasks (nth_job sheet.now.tasks task number) bounds }
    ensures room { page.old.spare ≤ page.new.spare + LINE }
    ensures size { length page.new.written + page.new.spare ≡ length page.old.written + page.old.spare }
{
    let release = release(sheet, task, number);
    let deadline = release + sheet.tasks()[task].deadline() as u64;
    push_job(
        page,
        sheet.tasks()[task].name(),
        number,
        release,
        deadline,
        bounds,
    );
}

#[tactic(auto, unfolding(crate::specs::Text::job_line))]
fn push_job(page: &mut Page, name: &str, number: u32, release: u64, deadline: u64, bounds: Bounds)
    requires room { LINE ≤ page.old.spare }
    requires name { length name.now ≤ 24 }
    requires lower { bounds.lower ≤ unit }
    requires upper { bounds.upper ≤ unit }
    ensures written { page.new.written ≡ page.old.written ++ job_line name.now number release deadline bounds }
    ensures room { page.old.spare ≤ page.new.spare + LINE }
    ensures size { length page.new.written + page.new.spare ≡ length page.old.written + page.old.spare }
{
    page.push(b"job ");
    page.push(name.as_bytes());
    page.push(b" ");
    push_number(page, number as u64);
    page.push(b" release ");
    push_number(page, release);
    page.push(b" deadline ");
    push_number(page, deadline);
    push_lower(page, bounds.lower);
    push_upper(page, bounds.upper);
    page.push(b"\n");
}

/// Appends the same as a record of comma-separated fields: the task's name, the job's number, its release and absolute
/// deadline in ticks, and its two numbers in units of 2^-60. No field needs quotes.
pub fn csv_line(page: &mut Page, sheet: &Sheet, task: usize, number: u32, bounds: Bounds)
    requires room { LINE ≤ page.old.spare }
    requires task { task < length sheet.now.tasks }
    ensures written { page.new.written ≡ page.old.written ++ record_of_job sheet.now.tasks (nth_job sheet.now.tasks task number) bounds }
    ensures room { page.old.spare ≤ page.new.spare + LINE }
    ensures size { length page.new.written + page.new.spare ≡ length page.old.written + page.old.spare }
{
    let release = release(sheet, task, number);
    push_record(
        page,
        sheet.tasks()[task].name(),
        number,
        release,
        release + sheet.tasks()[task].deadline() as u64,
        bounds,
    );
}

#[tactic(auto, unfolding(crate::specs::Text::csv_line))]
fn push_record(
    page: &mut Page,
    name: &str,
    number: u32,
    release: u64,
    deadline: u64,
    bounds: Bounds,
)
    requires room { LINE ≤ page.old.spare }
    requires name { length name.now ≤ 24 }
    ensures written { page.new.written ≡ page.old.written ++ csv_line name.now number release deadline bounds }
    ensures room { page.old.spare ≤ page.new.spare + LINE }
    ensures size { length page.new.written + page.new.spare ≡ length page.old.written + page.old.spare }
{
    page.push(name.as_bytes());
    page.push(b",");
    push_number(page, number as u64);
    page.push(b",");
    push_number(page, release);
    page.push(b",");
    push_number(page, deadline);
    page.push(b",");
    push_number(page, bounds.lower);
    page.push(b",");
    push_number(page, bounds.upper);
    page.push(b"\n");
}

fn push_lower(page: &mut Page, lower: u64)
    requires room { 64 ≤ page.old.spare }
    requires limit { lower ≤ unit }
    ensures written { page.new.written ≡ page.old.written ++ (codes " lower " ++ decimal lower ++ codes " " ++ decimal_below lower) }
    ensures room { page.old.spare ≤ page.new.spare + 64 }
    ensures size { length page.new.written + page.new.spare ≡ length page.old.written + page.old.spare }
{
    let mut text = [0; 14];
    decimal_down(lower, &mut text);
    page.push(b" lower ");
    push_number(page, lower);
    page.push(b" ");
    page.push(&text);
}

// Both spellings of an upper number: the decimal is rounded up.
pub(crate) fn push_upper(page: &mut Page, upper: u64)
    requires room { 64 ≤ page.old.spare }
    requires limit { upper ≤ unit }
    ensures written { page.new.written ≡ page.old.written ++ (codes " upper " ++ decimal upper ++ codes " " ++ decimal_above upper) }
    ensures room { page.old.spare ≤ page.new.spare + 64 }
    ensures size { length page.new.written + page.new.spare ≡ length page.old.written + page.old.spare }
{
    let mut text = [0; 14];
    decimal_up(upper, &mut text);
    page.push(b" upper ");
    push_number(page, upper);
    page.push(b" ");
    page.push(&text);
}

/// Appends the line of an entry of the ledger.
pub fn entry_line(page: &mut Page, sheet: &Sheet, entry: Entry)
    requires room { LINE ≤ page.old.spare }
    requires task { entry.task < length sheet.now.tasks }
    ensures written { page.new.written ≡ page.old.written ++ line_of_entry sheet.now.tasks entry }
    ensures room { page.old.spare ≤ page.new.spare + LINE }
    ensures size { length page.new.written + page.new.spare ≡ length page.old.written + page.old.spare }
{
    push_entry(page, sheet.tasks()[entry.task as usize].name(), entry);
}

#[tactic(auto, unfolding(crate::specs::Text::entry_line))]
fn push_entry(page: &mut Page, name: &str, entry: Entry)
    requires room { LINE ≤ page.old.spare }
    requires name { length name.now ≤ 24 }
    ensures written { page.new.written ≡ page.old.written ++ entry_line name.now entry }
    ensures room { page.old.spare ≤ page.new.spare + LINE }
    ensures size { length page.new.written + page.new.spare ≡ length page.old.written + page.old.spare }
{
    page.push(b"entry ");
    page.push(dir_word(entry.dir).as_bytes());
    page.push(b" ");
    page.push(kind_word(entry.kind).as_bytes());
    page.push(b" ");
    page.push(name.as_bytes());
    page.push(b" ");
    push_number(page, entry.job as u64);
    page.push(b" ");
    push_number(page, entry.op as u64);
    page.push(b" ");
    push_number(page, entry.amount);
    page.push(b"\n");
}

fn dir_word(dir: Dir) -> &'static str
    ensures word { result.now ≡ dir_text dir }
    ensures short { length result.now ≤ 4 }
{
    match dir {
        Dir::Up => "up",
        Dir::Down => "down",
    }
}

fn kind_word(kind: Kind) -> &'static str
    ensures word { result.now ≡ kind_text kind }
    ensures short { length result.now ≤ 8 }
{
    match kind {
        Kind::Round => "round",
        Kind::Cut => "cut",
        Kind::Resample => "resample",
        Kind::Delay => "delay",
    }
}

/// Appends the line of the task's job of this number with its two numbers and with what its entries add up to, all in
/// units of 2^-60.
pub fn gap_line(page: &mut Page, sheet: &Sheet, task: usize, number: u32, bounds: Bounds, sum: u128)
    requires room { LINE ≤ page.old.spare }
    requires task { task < length sheet.now.tasks }
    ensures written { page.new.written ≡ page.old.written ++ line_of_gap sheet.now.tasks (nth_job sheet.now.tasks task number) bounds sum }
    ensures room { page.old.spare ≤ page.new.spare + LINE }
    ensures size { length page.new.written + page.new.spare ≡ length page.old.written + page.old.spare }
{
    push_gap(page, sheet.tasks()[task].name(), number, bounds, sum);
}

#[tactic(auto, unfolding(crate::specs::Text::gap_line))]
fn push_gap(page: &mut Page, name: &str, number: u32, bounds: Bounds, sum: u128)
    requires room { LINE ≤ page.old.spare }
    requires name { length name.now ≤ 24 }
    ensures written { page.new.written ≡ page.old.written ++ gap_line name.now number bounds sum }
    ensures room { page.old.spare ≤ page.new.spare + LINE }
    ensures size { length page.new.written + page.new.spare ≡ length page.old.written + page.old.spare }
{
    page.push(b"gap ");
    page.push(name.as_bytes());
    page.push(b" ");
    push_number(page, number as u64);
    page.push(b" lower ");
    push_number(page, bounds.lower);
    page.push(b" upper ");
    push_number(page, bounds.upper);
    page.push(b" sum ");
    push_sum(page, sum);
    page.push(b"\n");
}

/// Appends the line of a job whose upper number, in units of 2^-60, doesn't pass its task's allowance, in the text of `check`.
pub fn no_line(page: &mut Page, sheet: &Sheet, task: usize, number: u32, upper: u64)
    requires room { LINE ≤ page.old.spare }
    requires task { task < length sheet.now.tasks }
    ensures written { page.new.written ≡ page.old.written ++ line_of_no sheet.now.tasks (nth_job sheet.now.tasks task number) upper }
    ensures room { page.old.spare ≤ page.new.spare + LINE }
    ensures size { length page.new.written + page.new.spare ≡ length page.old.written + page.old.spare }
{
    let task = &sheet.tasks()[task];
    push_failing(page, "no", task.name(), number, upper, task.allow());
}

/// Appends such a line in the text of `slack`.
pub fn fails_line(page: &mut Page, sheet: &Sheet, task: usize, number: u32, upper: u64)
    requires room { LINE ≤ page.old.spare }
    requires task { task < length sheet.now.tasks }
    ensures written { page.new.written ≡ page.old.written ++ line_of_fails sheet.now.tasks (nth_job sheet.now.tasks task number) upper }
    ensures room { page.old.spare ≤ page.new.spare + LINE }
    ensures size { length page.new.written + page.new.spare ≡ length page.old.written + page.old.spare }
{
    let task = &sheet.tasks()[task];
    push_failing(page, "fails", task.name(), number, upper, task.allow());
}

#[tactic(auto, unfolding(crate::specs::Text::failing_line))]
fn push_failing(page: &mut Page, word: &str, name: &str, number: u32, upper: u64, allow: (u64, u64))
    requires room { LINE ≤ page.old.spare }
    requires word { length word.now ≤ 8 }
    requires name { length name.now ≤ 24 }
    ensures written { page.new.written ≡ page.old.written ++ failing_line word.now name.now number upper allow }
    ensures room { page.old.spare ≤ page.new.spare + LINE }
    ensures size { length page.new.written + page.new.spare ≡ length page.old.written + page.old.spare }
{
    page.push(word.as_bytes());
    page.push(b" ");
    page.push(name.as_bytes());
    page.push(b" ");
    push_number(page, number as u64);
    page.push(b" upper ");
    push_number(page, upper);
    page.push(b" allow ");
    push_number(page, allow.0);
    page.push(b" ");
    push_number(page, allow.1);
    page.push(b"\n");
}
