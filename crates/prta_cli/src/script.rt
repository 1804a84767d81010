//! The script that `session` reads.

ghost use Rattle.std.specs.Prelude.{◌≡◌, ◌≢◌, ◌≤◌, ◌∷◌, ◌++◌, [], Some, length, IfOk, IfErr, IfSome};
ghost use Rattle.prta_session.specs.Playing.{AreAccepted, print_count};
ghost use Rattle.prta_session.specs.declared.script.TheConstants.{SCRIPT_LIMIT};
ghost use Rattle.prta_cli.specs.declared.status.Status.{Status};
ghost use Rattle.prta_cli.specs.Answer.{playing, IsScriptOf};
ghost use Rattle.prta_cli.specs.Ending.{status_of, line_of, Tells};
ghost use Rattle.prta_cli.specs.Causes.{IsBeforeOut, IsLine};

use crate::ending::Ending;
use crate::input::{InputFault, refuse};
use prta_outside::{Shelf, ShelfFault};
use prta_session::{SCRIPT_LIMIT, Script, ScriptFault, read_script};
use prta_sheet::Sheet;
use std::alloc::Global;

/// The script for a sheet under a name, or how the command ends.
pub fn script_under<S: Shelf>(
    alloc: Global,
    sheet: &Sheet,
    name: &str,
    shelf: &mut S,
) -> Result<Script, Ending>
    ensures script { IfOk result (λ script. IfSome (S.held shelf.old) (λ files. IsScriptOf sheet.now (files name.now) script)) }
    ensures accepted { IfOk result (AreAccepted sheet.now) }
    ensures prints { IfOk result (λ script. print_count script ≤ SCRIPT_LIMIT) }
    ensures tells { IfErr result (λ ending. IfSome (S.held shelf.old) (λ files. Tells ending (playing sheet.now (files name.now)))) }
    ensures fault { IfErr result (λ ending. status_of ending ≡ Status.ReadFault → S.faults shelf.new ≡ S.faults shelf.old ++ name.now ∷ []) }
    ensures no_fault { IfErr result (λ ending. status_of ending ≢ Status.ReadFault → S.faults shelf.new ≡ S.faults shelf.old) }
    ensures read { IfOk result (λ _. S.faults shelf.new ≡ S.faults shelf.old) }
    ensures refusals { IfErr result (λ ending. IsBeforeOut (status_of ending)) }
    ensures line { IfErr result (λ ending. IsLine (status_of ending) (line_of ending)) }
    ensures kept { S.held shelf.new ≡ S.held shelf.old }
{
    match shelf.read(alloc, name, SCRIPT_LIMIT) {
        Ok(bytes) => script_of(alloc, sheet, &bytes),
        Err(ShelfFault::Failed) => Err(Ending::ReadFault),
        Err(ShelfFault::TooLong { .. }) => {
            Err(refuse(alloc, InputFault::Script(ScriptFault::TooLong)))
        }
        Err(ShelfFault::NoMemory) => Err(Ending::NoMemory),
    }
}

// The script that the bytes are, or how the command ends.
fn script_of(alloc: Global, sheet: &Sheet, bytes: &[u8]) -> Result<Script, Ending>
    requires { length bytes.now ≤ SCRIPT_LIMIT }
    ensures script { IfOk result (λ script. IsScriptOf sheet.now (Some bytes.now) script) }
    ensures accepted { IfOk result (AreAccepted sheet.now) }
    ensures prints { IfOk result (λ script. print_count script ≤ SCRIPT_LIMIT) }
    ensures tells { IfErr result (λ ending. Tells ending (playing sheet.now (Some bytes.now))) }
    ensures no_fault { IfErr result (λ ending. status_of ending ≢ Status.ReadFault) }
    ensures refusals { IfErr result (λ ending. IsBeforeOut (status_of ending)) }
    ensures line { IfErr result (λ ending. IsLine (status_of ending) (line_of ending)) }
{
    match read_script(alloc, sheet, bytes) {
        Ok(script) => Ok(script),
        Err(ScriptFault::NoMemory) => Err(Ending::NoMemory),
        Err(fault) => Err(refuse(alloc, InputFault::Script(fault))),
    }
}
