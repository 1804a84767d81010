//! Assignments on worked values.

ghost use Rattle.prta_audsley.specs.Worked.{WorkedAssignments};

/// The verdicts on small sheets: an order that differs from the sheet's, one that can't be, and one that isn't decided.
pub fn worked_assignments()
    ensures { WorkedAssignments }
{}
