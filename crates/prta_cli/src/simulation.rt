//! The command `simulate`.

ghost use Rattle.std.specs.Prelude.{◌≡◌, ◌≢◌, ◌≤◌, ◌∷◌, ◌++◌, [], Some, None, length, IfOk, IfErr, IfSome};
ghost use Rattle.prta_sheet.specs.Sheet.{sheet_order};
ghost use Rattle.prta_ticksim.specs.Start.{machine_of};
ghost use Rattle.prta_cli.specs.declared.status.Status.{Status};
ghost use Rattle.prta_cli.specs.declared.input.InputFault.TheVariants.{Times};
ghost use Rattle.prta_cli.specs.Answer.{simulation, told, input_refused};
ghost use Rattle.prta_cli.specs.Ending.{status_of, line_of, Tells};
ghost use Rattle.prta_cli.specs.Causes.{IsBeforeOut, IsLine};
ghost use Rattle.prta_cli.specs.Times.{times_in, times_fault};

use crate::ending::Ending;
use crate::input::{InputFault, refuse};
use crate::times::{TIMES_LIMIT, TimesFault};
use prta_jobs::Order;
use prta_outside::{Shelf, ShelfFault};
use prta_report::Page;
use prta_sheet::Sheet;
use prta_ticksim::{ChoicesFault, Machine, MachineFault, read_choices};
use prta_writer::trace_page;
use std::alloc::Global;

/// The whole text of `simulate` for a sheet and the times under a name, or how the command ends.
pub fn simulation<S: Shelf>(
    alloc: Global,
    sheet: &Sheet,
    name: &str,
    shelf: &mut S,
) -> Result<Page, Ending>
    ensures text { IfOk result (λ page. IfSome (S.held shelf.old) (λ files. simulation sheet.now (files name.now) ≡ told page.written)) }
    ensures tells { IfErr result (λ ending. IfSome (S.held shelf.old) (λ files. Tells ending (simulation sheet.now (files name.now)))) }
    ensures fault { IfErr result (λ ending. status_of ending ≡ Status.ReadFault → S.faults shelf.new ≡ S.faults shelf.old ++ name.now ∷ []) }
    ensures no_fault { IfErr result (λ ending. status_of ending ≢ Status.ReadFault → S.faults shelf.new ≡ S.faults shelf.old) }
    ensures read { IfOk result (λ _. S.faults shelf.new ≡ S.faults shelf.old) }
    ensures refusals { IfErr result (λ ending. IsBeforeOut (status_of ending)) }
    ensures line { IfErr result (λ ending. IsLine (status_of ending) (line_of ending)) }
    ensures kept { S.held shelf.new ≡ S.held shelf.old }
{
    match shelf.read(alloc, name, TIMES_LIMIT) {
        Ok(bytes) => trace_of(alloc, sheet, &bytes),
        Err(ShelfFault::Failed) => Err(Ending::ReadFault),
        Err(ShelfFault::TooLong { .. }) => Err(refuse_times(alloc, TimesFault::TooLong)),
        Err(ShelfFault::NoMemory) => Err(Ending::NoMemory),
    }
}

// The whole text for a sheet and the times in the bytes, or how the command ends.
fn trace_of(alloc: Global, sheet: &Sheet, bytes: &[u8]) -> Result<Page, Ending>
    requires { length bytes.now ≤ TIMES_LIMIT }
    ensures text { IfOk result (λ page. simulation sheet.now (Some bytes.now) ≡ told page.written) }
    ensures tells { IfErr result (λ ending. Tells ending (simulation sheet.now (Some bytes.now))) }
    ensures no_fault { IfErr result (λ ending. status_of ending ≢ Status.ReadFault) }
    ensures refusals { IfErr result (λ ending. IsBeforeOut (status_of ending)) }
    ensures line { IfErr result (λ ending. IsLine (status_of ending) (line_of ending)) }
{
    let machine = match machine_of(alloc, sheet, bytes) {
        Ok(machine) => machine,
        Err(ending) => return Err(ending),
    };
    match trace_page(alloc, sheet, machine) {
        Ok(page) => Ok(page),
        Err(_) => Err(Ending::NoMemory),
    }
}

// The machine that is to run the times in the bytes in the sheet's own order, or how the command ends.
fn machine_of(alloc: Global, sheet: &Sheet, bytes: &[u8]) -> Result<Machine, Ending>
    requires { length bytes.now ≤ TIMES_LIMIT }
    ensures machine { IfOk result (λ machine. machine ≡ machine_of sheet.now (sheet_order sheet.now.tasks) (times_in bytes.now)) }
    ensures accepted { IfOk result (λ _. times_fault sheet.now bytes.now ≡ None) }
    ensures tells { IfErr result (λ ending. Tells ending (simulation sheet.now (Some bytes.now))) }
    ensures no_fault { IfErr result (λ ending. status_of ending ≢ Status.ReadFault) }
    ensures refusals { IfErr result (λ ending. IsBeforeOut (status_of ending)) }
    ensures line { IfErr result (λ ending. IsLine (status_of ending) (line_of ending)) }
{
    let choices = match read_choices(alloc, bytes) {
        Ok(choices) => choices,
        Err(ChoicesFault::BadLine(line)) => return Err(refuse_times(
            alloc,
            TimesFault::BadLine(line),
        )),
        Err(ChoicesFault::NoMemory) => return Err(Ending::NoMemory),
    };
    let order = match Order::of_sheet(alloc, sheet) {
        Ok(order) => order,
        Err(_) => return Err(Ending::NoMemory),
    };
    match Machine::new(alloc, sheet, &order, choices.list()) {
        Ok(machine) => Ok(machine),
        Err(MachineFault::WrongCount { got, .. }) => {
            Err(refuse_times(alloc, TimesFault::WrongCount(got)))
        }
        Err(MachineFault::NotInTable(i)) => Err(refuse_times(alloc, TimesFault::NotInTable(i))),
        Err(MachineFault::NoMemory) => Err(Ending::NoMemory),
    }
}

// The ending for a condition that refuses the file of times.
fn refuse_times(alloc: Global, fault: TimesFault) -> Ending
    ensures tells { Tells result (input_refused (Times fault)) }
    ensures refused { IsBeforeOut (status_of result) }
    ensures no_fault { status_of result ≢ Status.ReadFault }
    ensures line { IsLine (status_of result) (line_of result) }
{
    refuse(alloc, InputFault::Times(fault))
}
