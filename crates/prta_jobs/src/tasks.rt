//! The tasks of a sheet, with their ranges.

ghost use Rattle.std.specs.Prelude.{◌≡◌};
ghost use Rattle.prta_jobs.specs.Ranges.{AreSheetTasks};

use prta_sheet::{Sheet, Task};

// The tasks of the sheet.
pub(crate) fn tasks_of(sheet: &Sheet) -> &[Task]
    ensures tasks { result.now ≡ sheet.now.tasks }
    ensures sheet { AreSheetTasks sheet.now.tasks }
{
    sheet.tasks()
}
