//! The tasks of the sheet that a file of counts makes.

ghost use Rattle.std.specs.Prelude.{◌≡◌, IfOk, All, map, position, not};
ghost use Rattle.std.specs.List.{list_any};
ghost use Rattle.prta_times.specs.Counts.{is_of, counted, with_counted, has_task, unknown_task};
ghost use Rattle.prta_times.specs.Points.{table_by};
ghost use Rattle.prta_times.specs.Parts.{CanMake, HasTable};

use crate::count::Count;
use crate::points::Points;
use crate::tally::Tally;
use prta_fewpoints::reduce;
use prta_mass::{NoMemory, TimeTable};
use prta_sheet::Task;
use std::alloc::Global;

// The first count, counted from 1, whose task isn't on the sheet.
pub(crate) fn unknown_task(tasks: &[Task], counts: &[Count]) -> Option<usize>
    ensures { result ≡ unknown_task tasks.now counts.now }
{
    match first_unknown(tasks, counts) {
        Some(place) => Some(place + 1),
        None => None,
    }
}

fn first_unknown(tasks: &[Task], counts: &[Count]) -> Option<usize>
    ensures { result ≡ position (λ count. not (has_task tasks.now count.task)) counts.now }
{
    counts
        .iter()
        .position(|count| !has_task(tasks, count.task()))
}

fn has_task(tasks: &[Task], name: &[u8]) -> bool
    ensures { result ≡ has_task tasks.now name.now }
{
    tasks.iter().any(|task| task.name().as_bytes() == name)
}

// The tasks with their tables: a task that has a count gets a cycle of the one table of its tally, the
// others are kept.
pub(crate) fn tasks_with(
    alloc: Global,
    tasks: &[Task],
    counts: &[Count],
    tallies: &[Tally],
    points: Points,
) -> Result<Vec<Task>, NoMemory>
    requires tallies { tallies.now ≡ map (λ task. counted task.name counts.now) tasks.now }
    requires tables { All (HasTable points counts.now) tasks.now }
    ensures { IfOk result (λ made. made.items ≡ map (with_counted points counts.now) tasks.now) }
{
    let mut made = Vec::new(alloc);
    for i in 0..tasks.len() {
        made.push(task_with(alloc, &tasks[i], counts, &tallies[i], points)?)?;
    }
    Ok(made)
}

fn task_with(
    alloc: Global,
    task: &Task,
    counts: &[Count],
    tally: &Tally,
    points: Points,
) -> Result<Task, NoMemory>
    requires tally { tally.now ≡ counted task.now.name counts.now }
    requires table { HasTable points counts.now task.now }
    ensures { IfOk result (λ made. made ≡ with_counted points counts.now task.now) }
{
    if !has_count(counts, task.name().as_bytes()) {
        return task.copy(alloc);
    }
    let mut cycle = Vec::new(alloc);
    cycle.push(table_by(alloc, tally, points)?)?;
    Task::new(
        alloc,
        task.name(),
        task.offset(),
        task.period(),
        task.deadline(),
        cycle,
        task.allow(),
    )
}

// The table of counted times.
fn table_by(alloc: Global, tally: &Tally, points: Points) -> Result<TimeTable, NoMemory>
    requires { CanMake points tally.now }
    ensures { IfOk result (λ table. table ≡ table_by points tally.now) }
{
    match points {
        Points::Every => tally.table(alloc),
        Points::AtMost(k) => {
            let wide = tally.wide(alloc)?;
            reduce(alloc, &wide, k)
        }
    }
}

// One of the counts is of the task of this name.
fn has_count(counts: &[Count], name: &[u8]) -> bool
    ensures { result ≡ list_any (is_of name.now) counts.now }
{
    counts.iter().any(|count| count.is_of(name))
}
