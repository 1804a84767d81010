//! Laws of the definitions, without code, and what they give on worked values.

ghost use Rattle.prta_jobs.specs.Worked.{WorkedFinishes};
ghost use Rattle.prta_jobs.specs.Laws.{OrdersHavePlaces, JobsAreBefore};

/// The finish by backlog of jobs of two tasks, under both orders of priorities.
pub fn worked_finishes()
    ensures { WorkedFinishes }
{}

/// In an order each task has a place of its own, and each place its task.
pub fn orders_have_places()
    ensures { OrdersHavePlaces }
{}

/// Each of all jobs before a time is of a task on the sheet, is released before that time, and is the job that its task
/// and its number say.
pub fn jobs_are_before()
    ensures { JobsAreBefore }
{}
