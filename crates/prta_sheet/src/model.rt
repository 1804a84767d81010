//! Laws of the model, without code, and what its definitions give on worked values.

ghost use Rattle.prta_sheet.specs.Limits.{StatedLimits};
ghost use Rattle.prta_sheet.specs.Worked.{WorkedValues};
ghost use Rattle.prta_sheet.specs.Laws.{SumsOverAssignments, IndependentJob, ServedFirst, HyperperiodIsLeast, CopiesHaveTheirTable, ReleasesBefore};

/// The definitions of the model on small sheets: chances of a miss, finishes and the machine's trace.
pub fn worked_values()
    ensures { WorkedValues }
{}

/// A sum over the list of all assignments is a sum by recursion over the jobs.
pub fn sums_over_assignments()
    ensures { SumsOverAssignments }
{}

/// A job on whose time a number doesn't depend multiplies its sum over all assignments by the job's total.
pub fn independent_job()
    ensures { IndependentJob }
{}

/// A job that goes before every other one is served from its release on, until its time is used up.
pub fn served_first()
    ensures { ServedFirst }
{}

/// The hyperperiod is positive, every task's period times the length of its cycle divides it, and no smaller positive
/// number has both.
pub fn hyperperiod_is_least()
    ensures { HyperperiodIsLeast }
{}

/// The copy of a job in a later hyperperiod has the job's table.
pub fn copies_have_their_table()
    ensures { CopiesHaveTheirTable }
{}

/// How many jobs of a task are released before a time, in closed form.
pub fn releases_before()
    ensures { ReleasesBefore }
{}

/// The limits of a sheet, as numbers.
pub fn stated_limits()
    ensures { StatedLimits }
{}
