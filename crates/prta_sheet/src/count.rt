//! How many jobs tasks release.

ghost use Rattle.std.specs.Prelude.{◌≡◌, ◌*◌, ◌<◌, ◌≤◌, length, All};
ghost use Rattle.prta_sheet.specs.Sheet.{hyperperiod as hyperperiod_of};
ghost use Rattle.prta_sheet.specs.Job.{jobs_before};

use crate::limits::{PERIOD_LIMIT, TASK_LIMIT};
use crate::task::Task;

// The number of the jobs before a whole number of hyperperiods, without a list of them: there may be millions.
pub(crate) fn count_jobs(tasks: &[Task], hyperperiods: u32, hyperperiod: u64) -> u64
    requires few { length tasks.now ≤ TASK_LIMIT }
    requires offsets { All (λ task. task.offset < task.period) tasks.now }
    requires cycles { All (λ task. 1 ≤ length task.cycle) tasks.now }
    requires hyperperiods { hyperperiods ≤ 64 }
    requires hyperperiod { hyperperiod ≡ hyperperiod_of tasks.now }
    requires short { hyperperiod ≤ PERIOD_LIMIT }
    ensures { result ≡ length (jobs_before tasks.now (hyperperiods * hyperperiod)) }
{
    let horizon = hyperperiods as u64 * hyperperiod;
    let mut jobs = 0;
    for task in tasks {
        jobs += horizon / task.period() as u64;
    }
    jobs
}
