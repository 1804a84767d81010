//! The conditions on the parts of a sheet, each over all tasks before the next.

ghost use Rattle.std.specs.Prelude.{◌≡◌, ◌≤◌, ◌<◌, Some, None, false, length, All, IsOk, IfOk, IfErr, IfSome};
ghost use Rattle.std.specs.List.{list_all, list_any, range_with_len};
ghost use Rattle.prta_mass.specs.Table.{or_else, fault_of};
ghost use Rattle.prta_sheet.specs.Sheet.{task_at, cycle_ticks, hyperperiod as hyperperiod_of, least_common_multiple};
ghost use Rattle.prta_sheet.specs.DocumentConditions.{first_of};
ghost use Rattle.prta_sheet.specs.SheetConditions.{in_range, support_ranges, settings_ranges, cycle_key, has_long_time, cycle_range, allow_range, task_ranges, part_ranges, task_count, has_name, is_bad_at, first_bad_name, name_fault_at, name_fault, first_late_offset, offset_fault, first_long_deadline, deadline_fault, part_fault};
ghost use Rattle.prta_sheet.specs.Accepted.{is_good_name, is_name_byte};

use crate::count::count_jobs;
use crate::fault::{Key, Place, SheetFault};
use crate::limits::{
    CYCLE_LIMIT, JOB_LIMIT, NAME_LIMIT, PERIOD_LIMIT, TASK_LIMIT, TIME_LIMIT, WORK_LIMIT,
};
use crate::settings::Settings;
use crate::sheet::Sheet;
use crate::task::Task;
use crate::work::work_of;
use prta_mass::{Support, TimeTable, faultless_pairs};

/// Makes a sheet of just these settings and tasks, from highest priority to lowest. It is refused with the first of
/// these conditions that fails, each tested over all tasks before the next:
///
/// - Each number is in its range: a cap of 3 to 16,384, 1 to 64 hyperperiods, 0 to 64 turns, a support's `fine` of 0
///   to 16,383 and `step` of 1 to 16,384; and of each task, before the next task, an offset of 0 to 999,999, a period
///   and a deadline of 1 to 1,000,000, a cycle of 1 to `CYCLE_LIMIT` tables, times of at most `TIME_LIMIT` (told by
///   the key `Times` where the cycle has one table, else by `Cycle`), and an allowance p of q with q of 1 to 10^18 and
///   p of at most q.
/// - There are 1 to `TASK_LIMIT` tasks.
/// - Each name is of 1 to `NAME_LIMIT` letters, digits, `_` and `-`, and is that of no earlier task.
/// - Each offset is below its period. (The tables were tested when they were made.)
/// - Each deadline is at most the cap less 2.
/// - The hyperperiod is at most `PERIOD_LIMIT`.
/// - There are at most `JOB_LIMIT` analysed jobs.
/// - The work is at most `WORK_LIMIT`.
///
/// A call takes no memory. On a refusal the tasks are dropped.
pub fn make_sheet(settings: Settings, tasks: Vec<Task>) -> Result<Sheet, SheetFault>
    ensures made { IfOk result (λ sheet. sheet ≡ record { settings = settings; tasks = tasks.items }) }
    ensures accepted { IsOk result → part_fault (record { settings = settings; tasks = tasks.items }) ≡ None }
    ensures refused { IfErr result (λ fault. part_fault (record { settings = settings; tasks = tasks.items }) ≡ Some fault) }
{
    faultless_pairs();
    match accepted_hyperperiod(settings, &tasks) {
        Ok(hyperperiod) => Ok(Sheet::of_parts(settings, tasks, hyperperiod)),
        Err(fault) => Err(fault),
    }
}

// The hyperperiod of parts that meet all conditions, or the first one that fails.
pub(crate) fn accepted_hyperperiod(settings: Settings, tasks: &[Task]) -> Result<u64, SheetFault>
    ensures hyperperiod { IfOk result (λ n. n ≡ hyperperiod_of tasks.now) }
    ensures accepted { IsOk result → part_fault (record { settings = settings; tasks = tasks.now }) ≡ None }
    ensures refused { IfErr result (λ fault. part_fault (record { settings = settings; tasks = tasks.now }) ≡ Some fault) }
{
    if let Some(fault) = part_ranges(settings, tasks) {
        return Err(fault);
    }
    if let Some(fault) = head_fault(tasks) {
        return Err(fault);
    }
    if let Some(fault) = deadline_fault(settings.cap, tasks) {
        return Err(fault);
    }
    let hyperperiod = match hyperperiod_within(tasks) {
        Some(hyperperiod) => hyperperiod,
        None => return Err(SheetFault::HyperperiodTooLarge),
    };
    let jobs = count_jobs(tasks, settings.hyperperiods, hyperperiod);
    if jobs > JOB_LIMIT as u64 {
        return Err(SheetFault::TooManyJobs(jobs));
    }
    faultless_pairs();
    let work = work_of(tasks, settings, hyperperiod);
    if work > WORK_LIMIT {
        return Err(SheetFault::TooMuchWork(work));
    }
    Ok(hyperperiod)
}

// The first of the count, the names and the offsets that is bad.
pub(crate) fn head_fault(tasks: &[Task]) -> Option<SheetFault>
    ensures { result ≡ or_else (task_count tasks.now) (or_else (name_fault tasks.now) (offset_fault tasks.now)) }
{
    // a very long list is not searched for names
    if let Some(fault) = task_count(tasks) {
        return Some(fault);
    }
    if let Some(fault) = name_fault(tasks) {
        return Some(fault);
    }
    offset_fault(tasks)
}

fn in_range(at: Place, key: Key, low: u32, high: u32, n: u32) -> Option<SheetFault>
    ensures { result ≡ in_range at key low high n }
{
    if n < low || high < n {
        return Some(SheetFault::OutOfRange(at, key));
    }
    None
}

fn support_ranges(support: Option<Support>) -> Option<SheetFault>
    ensures { result ≡ support_ranges support }
{
    let support = support?;
    in_range(Place::Support, Key::Fine, 0, 16_383, support.fine).or(in_range(
        Place::Support,
        Key::Step,
        1,
        16_384,
        support.step,
    ))
}

fn settings_ranges(settings: Settings) -> Option<SheetFault>
    ensures { result ≡ settings_ranges settings }
{
    in_range(Place::Top, Key::Cap, 3, 16_384, settings.cap)
        .or(in_range(Place::Top, Key::Hyperperiods, 1, 64, settings.hyperperiods))
        .or(in_range(Place::Top, Key::Turns, 0, 64, settings.turns))
        .or(support_ranges(settings.support))
}

fn has_long_time(points: &[(u32, u64)]) -> bool
    ensures { result ≡ has_long_time points.now }
{
    points.iter().any(|point| point.0 > TIME_LIMIT)
}

// One of the tables has a time above the limit. Tables that were made have no fault.
fn has_long_times(tables: &[TimeTable]) -> bool
    ensures value { result ≡ list_any has_long_time tables.now }
    ensures made { result ≡ false → All (λ table. fault_of table ≡ None) tables.now }
{
    for table in tables {
        if has_long_time(table.points()) {
            return true;
        }
    }
    false
}

fn cycle_key(cycle: &[TimeTable]) -> Key
    ensures { result ≡ cycle_key cycle.now }
{
    if cycle.len() == 1 {
        Key::Times
    } else {
        Key::Cycle
    }
}

fn cycle_range(i: usize, cycle: &[TimeTable]) -> Option<SheetFault>
    ensures range { result ≡ cycle_range i cycle.now }
    ensures made { result ≡ None → All (λ table. fault_of table ≡ None) cycle.now }
{
    if cycle.is_empty() || CYCLE_LIMIT < cycle.len() {
        return Some(SheetFault::OutOfRange(Place::Task(i), Key::Cycle));
    }
    if has_long_times(cycle) {
        return Some(SheetFault::OutOfRange(Place::Task(i), cycle_key(cycle)));
    }
    None
}

fn allow_range(i: usize, allow: (u64, u64)) -> Option<SheetFault>
    ensures { result ≡ allow_range i allow }
{
    if allow.1 < 1 || 1_000_000_000_000_000_000 < allow.1 || allow.1 < allow.0 {
        return Some(SheetFault::OutOfRange(Place::Task(i), Key::Allow));
    }
    None
}

// The first range that task i is not in. Its tables were made, so they have no fault.
fn task_ranges(i: usize, task: &Task) -> Option<SheetFault>
    ensures ranges { result ≡ task_ranges i task.now }
    ensures tables { result ≡ None → All (λ table. fault_of table ≡ None) task.now.cycle }
{
    let at = Place::Task(i);
    in_range(at, Key::Offset, 0, 999_999, task.offset())
        .or(in_range(at, Key::Period, 1, 1_000_000, task.period()))
        .or(in_range(at, Key::Deadline, 1, 1_000_000, task.deadline()))
        .or(cycle_range(i, task.cycle()))
        .or(allow_range(i, task.allow()))
}

fn first_task_ranges(tasks: &[Task]) -> Option<SheetFault>
    ensures ranges { result ≡ first_of (λ i. task_ranges i (task_at tasks.now i)) (range_with_len 0 (length tasks.now)) }
    ensures tables { result ≡ None → All (λ task. All (λ table. fault_of table ≡ None) task.cycle) tasks.now }
{
    for i in 0..tasks.len() {
        if let Some(fault) = task_ranges(i, &tasks[i]) {
            return Some(fault);
        }
    }
    None
}

fn part_ranges(settings: Settings, tasks: &[Task]) -> Option<SheetFault>
    ensures ranges { result ≡ part_ranges (record { settings = settings; tasks = tasks.now }) }
    ensures tables { result ≡ None → All (λ task. All (λ table. fault_of table ≡ None) task.cycle) tasks.now }
{
    if let Some(fault) = settings_ranges(settings) {
        return Some(fault);
    }
    first_task_ranges(tasks)
}

fn task_count(tasks: &[Task]) -> Option<SheetFault>
    ensures { result ≡ task_count tasks.now }
{
    if tasks.is_empty() || tasks.len() > TASK_LIMIT {
        return Some(SheetFault::TaskCount(tasks.len()));
    }
    None
}

// One of the tasks has this name.
fn has_name(tasks: &[Task], name: &str) -> bool
    ensures { result ≡ has_name tasks.now name.now }
{
    tasks.iter().any(|task| task.name() == name)
}

fn first_bad_name(tasks: &[Task]) -> Option<usize>
    ensures first { result ≡ first_bad_name tasks.now }
    ensures place { IfSome result (λ i. i < length tasks.now) }
{
    for i in 0..tasks.len() {
        if is_bad_at(tasks, i) {
            return Some(i);
        }
    }
    None
}

fn is_bad_at(tasks: &[Task], i: usize) -> bool
    requires { i < length tasks.now }
    ensures { result ≡ is_bad_at tasks.now i }
{
    let name = tasks[i].name();
    !is_good_name(name) || has_name(&tasks[..i], name)
}

// What is wrong with the name of task i.
fn name_fault_at(tasks: &[Task], i: usize) -> SheetFault
    requires { i < length tasks.now }
    ensures { result ≡ name_fault_at tasks.now i }
{
    if is_good_name(tasks[i].name()) {
        SheetFault::RepeatedName(i)
    } else {
        SheetFault::BadName(i)
    }
}

fn name_fault(tasks: &[Task]) -> Option<SheetFault>
    ensures { result ≡ name_fault tasks.now }
{
    match first_bad_name(tasks) {
        Some(i) => Some(name_fault_at(tasks, i)),
        None => None,
    }
}

fn is_good_name(name: &str) -> bool
    ensures { result ≡ is_good_name name.now }
{
    let size = name.len();
    if size < 1 || NAME_LIMIT < size {
        return false;
    }
    has_name_bytes(name)
}

fn has_name_bytes(name: &str) -> bool
    ensures { result ≡ list_all is_name_byte name.now }
{
    name.as_bytes().iter().all(|b| is_name_byte(*b))
}

fn is_name_byte(b: u8) -> bool
    ensures { result ≡ is_name_byte b }
{
    b.is_ascii_alphanumeric() || (b == b'_' || b == b'-')
}

fn first_late_offset(tasks: &[Task]) -> Option<usize>
    ensures { result ≡ first_late_offset tasks.now }
{
    tasks.iter().position(|task| task.offset() >= task.period())
}

fn offset_fault(tasks: &[Task]) -> Option<SheetFault>
    ensures { result ≡ offset_fault tasks.now }
{
    first_late_offset(tasks).map(SheetFault::OffsetNotBelowPeriod)
}

fn first_long_deadline(cap: u32, tasks: &[Task]) -> Option<usize>
    ensures { result ≡ first_long_deadline cap tasks.now }
{
    tasks
        .iter()
        .position(|task| cap as u64 <= task.deadline() as u64 + 1)
}

fn deadline_fault(cap: u32, tasks: &[Task]) -> Option<SheetFault>
    ensures { result ≡ deadline_fault cap tasks.now }
{
    first_long_deadline(cap, tasks).map(SheetFault::DeadlineNotBelowCap)
}

// The least positive multiple of a that b divides, where it is at most the limit.
fn joint_multiple(a: u64, b: u64) -> Option<u64>
    requires start { 1 ≤ a }
    requires limit { a ≤ PERIOD_LIMIT }
    requires some { 1 ≤ b }
    ensures found { IfSome result (λ n. n ≡ least_common_multiple a b) }
    ensures few { IfSome result (λ n. n ≤ PERIOD_LIMIT) }
    ensures above { result ≡ None → PERIOD_LIMIT < least_common_multiple a b }
{
    if b > PERIOD_LIMIT as u64 {
        return None;
    }
    for k in 0..b {
        let n = a * (1 + k);
        if n % b == 0 {
            return if n <= PERIOD_LIMIT as u64 {
                Some(n)
            } else {
                None
            };
        }
    }
    None
}

// The ticks until a task's releases and tables repeat.
fn cycle_ticks(task: &Task) -> u64
    requires { length task.now.cycle ≤ CYCLE_LIMIT }
    ensures { result ≡ cycle_ticks task.now }
{
    task.period() as u64 * task.cycle().len() as u64
}

// The hyperperiod, where it is at most the limit.
fn hyperperiod_within(tasks: &[Task]) -> Option<u64>
    requires some { All (λ task. 1 ≤ cycle_ticks task) tasks.now }
    requires few { All (λ task. length task.cycle ≤ CYCLE_LIMIT) tasks.now }
    ensures found { IfSome result (λ n. n ≡ hyperperiod_of tasks.now) }
    ensures few { IfSome result (λ n. n ≤ PERIOD_LIMIT) }
    ensures above { result ≡ None → PERIOD_LIMIT < hyperperiod_of tasks.now }
{
    let mut hyperperiod = 1;
    for task in tasks {
        match joint_multiple(hyperperiod, cycle_ticks(task)) {
            Some(next) => hyperperiod = next,
            None => return None,
        }
    }
    Some(hyperperiod)
}
