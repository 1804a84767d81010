//! The sheet under a name.

ghost use Rattle.std.specs.Prelude.{◌≡◌, ◌≢◌, ◌≤◌, ◌∷◌, ◌++◌, [], Some, length, IfOk, IfErr, IfSome};
ghost use Rattle.prta_sheet.specs.Sheet.{Sheet as SheetParts};
ghost use Rattle.prta_cli.specs.declared.status.Status.{Status};
ghost use Rattle.prta_cli.specs.Answer.{Answer, answer_to_file, refused, IsSheetOf};
ghost use Rattle.prta_cli.specs.Ending.{status_of, line_of, Tells};
ghost use Rattle.prta_cli.specs.Causes.{IsBeforeOut, IsLine};

use crate::ending::Ending;
use crate::refused::refused_page;
use prta_outside::{Shelf, ShelfFault};
use prta_sheet::{SHEET_LIMIT, Sheet, SheetFault, read_sheet};
use std::alloc::Global;

/// The accepted sheet under a name, or how the command ends.
pub fn sheet_under<S: Shelf>(alloc: Global, name: &str, shelf: &mut S) -> Result<Sheet, Ending>
    ensures sheet { IfOk result (λ sheet. IfSome (S.held shelf.old) (λ files. IsSheetOf (files name.now) sheet)) }
    ensures tells { IfErr result (λ ending. IfSome (S.held shelf.old) (λ files. (answers : SheetParts → Answer) → Tells ending (answer_to_file answers (files name.now)))) }
    ensures fault { IfErr result (λ ending. status_of ending ≡ Status.ReadFault → S.faults shelf.new ≡ S.faults shelf.old ++ name.now ∷ []) }
    ensures no_fault { IfErr result (λ ending. status_of ending ≢ Status.ReadFault → S.faults shelf.new ≡ S.faults shelf.old) }
    ensures read { IfOk result (λ _. S.faults shelf.new ≡ S.faults shelf.old) }
    ensures refusals { IfErr result (λ ending. IsBeforeOut (status_of ending)) }
    ensures line { IfErr result (λ ending. IsLine (status_of ending) (line_of ending)) }
    ensures kept { S.held shelf.new ≡ S.held shelf.old }
{
    match shelf.read(alloc, name, SHEET_LIMIT) {
        Ok(bytes) => sheet_of(alloc, &bytes),
        Err(ShelfFault::Failed) => Err(Ending::ReadFault),
        Err(ShelfFault::TooLong { .. }) => Err(refuse(alloc, SheetFault::TooLong)),
        Err(ShelfFault::NoMemory) => Err(Ending::NoMemory),
    }
}

// The accepted sheet that the bytes state, or how the command ends.
fn sheet_of(alloc: Global, bytes: &[u8]) -> Result<Sheet, Ending>
    requires { length bytes.now ≤ SHEET_LIMIT }
    ensures sheet { IfOk result (λ sheet. IsSheetOf (Some bytes.now) sheet) }
    ensures tells { IfErr result (λ ending. (answers : SheetParts → Answer) → Tells ending (answer_to_file answers (Some bytes.now))) }
    ensures no_fault { IfErr result (λ ending. status_of ending ≢ Status.ReadFault) }
    ensures refusals { IfErr result (λ ending. IsBeforeOut (status_of ending)) }
    ensures line { IfErr result (λ ending. IsLine (status_of ending) (line_of ending)) }
{
    match read_sheet(alloc, bytes) {
        Ok(sheet) => Ok(sheet),
        Err(SheetFault::NoMemory) => Err(Ending::NoMemory),
        Err(fault) => Err(refuse(alloc, fault)),
    }
}

// The ending for a condition that refuses the sheet.
fn refuse(alloc: Global, fault: SheetFault) -> Ending
    ensures tells { Tells result (refused fault) }
    ensures refused { IsBeforeOut (status_of result) }
    ensures no_fault { status_of result ≢ Status.ReadFault }
    ensures line { IsLine (status_of result) (line_of result) }
{
    match refused_page(alloc, fault) {
        Ok(page) => Ending::SheetRefused(page),
        Err(_) => Ending::NoMemory,
    }
}
