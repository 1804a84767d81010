//! The sheet that is made of counts.

ghost use Rattle.std.specs.Prelude.{◌≡◌, ◌≢◌, ◌≤◌, ◌∷◌, ◌++◌, [], None, Some, length, IsOk, IfOk, IfErr, IfSome};
ghost use Rattle.prta_cli.specs.declared.status.Status.{Status};
ghost use Rattle.prta_cli.specs.Answer.{kept_fault, sheet_keeping, counting, IsSheetWith};
ghost use Rattle.prta_cli.specs.Words.{IsInRange};
ghost use Rattle.prta_cli.specs.Ending.{status_of, line_of, Tells};
ghost use Rattle.prta_cli.specs.Causes.{IsBeforeOut, IsLine, IsSafeKeeping, IsSafeWith};

use crate::ending::Ending;
use crate::input::{InputFault, refuse};
use crate::words::Kept;
use prta_outside::{Shelf, ShelfFault};
use prta_sheet::Sheet;
use prta_times::{
    COUNTS_LIMIT, CountsFault, counted_sheets_are_accepted, read_counts, reduce_counts,
    reduced_sheets_are_accepted, reduced_sheets_are_safe,
};
use std::alloc::Global;

/// The sheet with the tables of the counts under a name, or how the command ends.
pub fn sheet_with_counts<S: Shelf>(
    alloc: Global,
    sheet: &Sheet,
    name: &str,
    kept: Kept,
    shelf: &mut S,
) -> Result<Sheet, Ending>
    requires { IsInRange kept }
    ensures sheet { IfOk result (λ made. IfSome (S.held shelf.old) (λ files. IsSheetWith kept sheet.now (files name.now) made)) }
    ensures safe { IfOk result (λ _. IfSome (S.held shelf.old) (λ files. IsSafeWith kept sheet.now (files name.now))) }
    ensures tells { IfErr result (λ ending. IfSome (S.held shelf.old) (λ files. Tells ending (counting kept sheet.now (files name.now)))) }
    ensures fault { IfErr result (λ ending. status_of ending ≡ Status.ReadFault → S.faults shelf.new ≡ S.faults shelf.old ++ name.now ∷ []) }
    ensures no_fault { IfErr result (λ ending. status_of ending ≢ Status.ReadFault → S.faults shelf.new ≡ S.faults shelf.old) }
    ensures read { IfOk result (λ _. S.faults shelf.new ≡ S.faults shelf.old) }
    ensures refusals { IfErr result (λ ending. IsBeforeOut (status_of ending)) }
    ensures line { IfErr result (λ ending. IsLine (status_of ending) (line_of ending)) }
    ensures kept { S.held shelf.new ≡ S.held shelf.old }
{
    match shelf.read(alloc, name, COUNTS_LIMIT) {
        Ok(bytes) => sheet_of(alloc, sheet, &bytes, kept),
        Err(ShelfFault::Failed) => Err(Ending::ReadFault),
        Err(ShelfFault::TooLong { .. }) => {
            Err(refuse(alloc, InputFault::Counts(CountsFault::TooLong)))
        }
        Err(ShelfFault::NoMemory) => Err(Ending::NoMemory),
    }
}

// The sheet with the tables of the counts in the bytes, or how the command ends.
fn sheet_of(alloc: Global, sheet: &Sheet, bytes: &[u8], kept: Kept) -> Result<Sheet, Ending>
    requires kept { IsInRange kept }
    requires short { length bytes.now ≤ COUNTS_LIMIT }
    ensures sheet { IfOk result (λ made. IsSheetWith kept sheet.now (Some bytes.now) made) }
    ensures safe { IfOk result (λ _. IsSafeWith kept sheet.now (Some bytes.now)) }
    ensures tells { IfErr result (λ ending. Tells ending (counting kept sheet.now (Some bytes.now))) }
    ensures no_fault { IfErr result (λ ending. status_of ending ≢ Status.ReadFault) }
    ensures refusals { IfErr result (λ ending. IsBeforeOut (status_of ending)) }
    ensures line { IfErr result (λ ending. IsLine (status_of ending) (line_of ending)) }
{
    match counted(alloc, sheet, bytes, kept) {
        Ok(made) => Ok(made),
        Err(CountsFault::NoMemory) => Err(Ending::NoMemory),
        Err(fault) => Err(refuse(alloc, InputFault::Counts(fault))),
    }
}

// The sheet with the tables of the counts in the bytes, or the first condition that fails.
fn counted(alloc: Global, sheet: &Sheet, bytes: &[u8], kept: Kept) -> Result<Sheet, CountsFault>
    requires { IsInRange kept }
    ensures read { IfOk result (λ made. made ≡ sheet_keeping kept sheet.now bytes.now) }
    ensures accepted { IsOk result → kept_fault kept sheet.now bytes.now ≡ None }
    ensures refused { IfErr result (λ fault. fault ≢ CountsFault.NoMemory → kept_fault kept sheet.now bytes.now ≡ Some fault) }
    ensures safe { kept_fault kept sheet.now bytes.now ≡ None → IsSafeKeeping kept sheet.now bytes.now }
{
    counted_sheets_are_accepted();
    reduced_sheets_are_accepted();
    reduced_sheets_are_safe();
    let _tasks = sheet.tasks();
    match kept {
        Kept::AllTimes => read_counts(alloc, sheet, bytes),
        Kept::AtMost(points) => reduce_counts(alloc, sheet, bytes, points),
    }
}
