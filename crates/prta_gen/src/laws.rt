//! What holds of generated sheets, without code.

ghost use Rattle.prta_gen.specs.Laws.{GeneratedAreAccepted};
ghost use Rattle.prta_gen.specs.Worked.{WorkedDraws};

/// Every generated sheet of 1 to 12 tasks meets all conditions on a sheet.
pub fn generated_sheets_are_accepted()
    ensures { GeneratedAreAccepted }
{}

/// The first draws of the seed 1, and its sheet of one task.
pub fn worked_draws()
    ensures { WorkedDraws }
{}
