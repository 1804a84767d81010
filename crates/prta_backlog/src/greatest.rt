//! The greatest numbers of a level: one backlog number goes from instant to instant, with all greatest times.

ghost use Rattle.std.specs.Prelude.{◌≡◌, ℕ, ◌+◌, ◌^◌, ◌<◌, ◌≤◌, ◌-◌, true, false, Some, unwrap_or, filter, max};
ghost use Rattle.prta_sheet.specs.Sheet.{task_at, hyperperiod as hyperperiod_of};
ghost use Rattle.prta_sheet.specs.Job.{is_release, released_at};
ghost use Rattle.prta_jobs.specs.TaskSet.{holds};
ghost use Rattle.prta_jobs.specs.Instant.{IsOnSheet};
ghost use Rattle.prta_backlog.specs.Level.{has_task};
ghost use Rattle.prta_backlog.specs.Greatest.{greatest_times, greatest_work as greatest_work_of, greatest_walk, worst_backlog as worst_backlog_of, peak as peak_of};
ghost use Rattle.prta_backlog.specs.Pass.{level_of};

use crate::adding::{both_hold, table_at};
use crate::imaging::whole_hyperperiod;
use crate::instants::instant_after;
use prta_jobs::TaskSet;
use prta_sheet::Sheet;

/// The greatest times of the jobs of a level that are released in one hyperperiod, in ticks.
pub fn greatest_work(sheet: &Sheet, higher: TaskSet, task: usize) -> u64
    requires on_sheet { IsOnSheet sheet.now.tasks (has_task (level_of higher task)) }
    requires apart { holds higher task ≡ false }
    ensures { result ≡ greatest_work_of sheet.now.tasks (level_of higher task) }
{
    walk_through(sheet, higher, task, 0).work
}

/// The level's backlog at the end of a hyperperiod that starts empty and in which each job takes its greatest time, in
/// ticks.
pub fn worst_backlog(sheet: &Sheet, higher: TaskSet, task: usize) -> u64
    requires on_sheet { IsOnSheet sheet.now.tasks (has_task (level_of higher task)) }
    requires apart { holds higher task ≡ false }
    ensures worst { result ≡ worst_backlog_of sheet.now.tasks (level_of higher task) }
    ensures low { result ≤ 2 ^ 44 }
{
    let walk = walk_through(sheet, higher, task, 0);
    let end = sheet.hyperperiod();
    walk.backlog
        .saturating_sub(end.saturating_sub(walk.last.unwrap_or(0)))
}

/// The greatest backlog right after the releases of an instant, in a hyperperiod that starts at the worst-case backlog
/// and in which each job takes its greatest time, in ticks.
pub fn peak(sheet: &Sheet, higher: TaskSet, task: usize) -> u64
    requires on_sheet { IsOnSheet sheet.now.tasks (has_task (level_of higher task)) }
    requires apart { holds higher task ≡ false }
    ensures { result ≡ peak_of sheet.now.tasks (level_of higher task) }
{
    let start = worst_backlog(sheet, higher, task);
    walk_through(sheet, higher, task, start).most
}

// A backlog right after an instant, the time of that instant, if there was one, the greatest backlog and the work so far.
#[derive(Clone, Copy)]
struct Walk {
    backlog: u64,
    last: Option<u64>,
    most: u64,
    work: u64,
}

// From a backlog through the instants of one hyperperiod.
fn walk_through(sheet: &Sheet, higher: TaskSet, task: usize, start: u64) -> Walk
    requires on_sheet { IsOnSheet sheet.now.tasks (has_task (level_of higher task)) }
    requires apart { holds higher task ≡ false }
    requires start { start ≤ 2 ^ 44 }
    ensures backlog { result.backlog ≡ (greatest_walk sheet.now.tasks (level_of higher task) start (hyperperiod_of sheet.now.tasks)).backlog }
    ensures since { unwrap_or result.last 0 ≡ (greatest_walk sheet.now.tasks (level_of higher task) start (hyperperiod_of sheet.now.tasks)).since }
    ensures most { result.most ≡ (greatest_walk sheet.now.tasks (level_of higher task) start (hyperperiod_of sheet.now.tasks)).most }
    ensures work { result.work ≡ greatest_work_of sheet.now.tasks (level_of higher task) }
    ensures low { result.backlog ≤ start + 12000000000000 }
{
    let _tasks = sheet.tasks();
    let end = whole_hyperperiod(sheet);
    let level = higher.with(task);
    let mut walk = Walk {
        backlog: start,
        last: None,
        most: 0,
        work: 0,
    };
    let mut instant = instant_after(sheet, higher, task, None);
    while instant.at < end {
        let times = times_at(sheet, level, instant.released, instant.at);
        walk = risen(walk, instant.at, times);
        instant = instant_after(sheet, higher, task, walk.last);
    }
    walk
}

// After an instant: the backlog fell by the time since the one before, and rises by the greatest times.
fn risen(walk: Walk, at: u64, times: u64) -> Walk
    requires backlog { walk.backlog + times < 2 ^ 64 }
    requires work { walk.work + times < 2 ^ 64 }
    ensures backlog { result.backlog ≡ walk.backlog - (at - unwrap_or walk.last 0) + times }
    ensures last { result.last ≡ Some at }
    ensures most { result.most ≡ max walk.most (walk.backlog - (at - unwrap_or walk.last 0) + times) }
    ensures work { result.work ≡ walk.work + times }
{
    let backlog = walk
        .backlog
        .saturating_sub(at.saturating_sub(walk.last.unwrap_or(0)))
        + times;
    Walk {
        backlog,
        last: Some(at),
        most: walk.most.max(backlog),
        work: walk.work + times,
    }
}

// The greatest times, added up, of the jobs that the tasks of a set release at a time.
fn times_at(sheet: &Sheet, set: TaskSet, released: TaskSet, at: u64) -> u64
    requires released { (i : ℕ) → holds set i ≡ true → holds released i ≡ is_release (task_at sheet.now.tasks i) at }
    requires at { at < 2 ^ 32 }
    ensures value { result ≡ greatest_times sheet.now.tasks (filter (λ job. holds set job.task) (released_at 0 sheet.now.tasks at)) }
    ensures low { result ≤ 12000000 }
{
    let tasks = sheet.tasks();
    let mut times = 0;
    for i in 0..tasks.len() {
        if both_hold(set, released, i) {
            times += table_at(&tasks[i], at).greatest() as u64;
        }
    }
    times
}
