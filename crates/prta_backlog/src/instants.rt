//! The instants of a level.

ghost use Rattle.std.specs.Prelude.{◌+◌, ◌^◌, ◌<◌, ◌≤◌, Option};
ghost use Rattle.prta_jobs.specs.TaskSet.{holds};
ghost use Rattle.prta_jobs.specs.Instant.{IsOnSheet, IsInstant};
ghost use Rattle.prta_backlog.specs.Level.{has_task};
ghost use Rattle.prta_backlog.specs.Pass.{level_of, after_last};

use prta_jobs::{Instant, TaskSet, first_instant, next_instant};
use prta_sheet::{PERIOD_LIMIT, Sheet};

// The next instant of a level after the last one, or the first.
pub(crate) fn instant_after(
    sheet: &Sheet,
    higher: TaskSet,
    task: usize,
    last: Option<u64>,
) -> Instant
    requires on_sheet { IsOnSheet sheet.now.tasks (has_task (level_of higher task)) }
    requires last { after_last last ≤ 2 ^ 40 }
    ensures instant { IsInstant sheet.now.tasks (has_task (level_of higher task)) (after_last last) result.at (holds result.released) }
    ensures near { result.at < after_last last + PERIOD_LIMIT }
{
    let _tasks = sheet.tasks();
    let level = higher.with(task);
    match last {
        None => first_instant(sheet, level),
        Some(at) => next_instant(sheet, level, at),
    }
}
