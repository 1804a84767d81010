//! Why a second file is refused.

ghost use Rattle.std.specs.Prelude.{◌≡◌, ◌≢◌, ◌++◌, ◌+◌, ◌≤◌, IfOk};
ghost use Rattle.prta_cli.specs.declared.status.Status.{Status};
ghost use Rattle.prta_cli.specs.Answer.{input_refused};
ghost use Rattle.prta_cli.specs.Ending.{status_of, line_of, Tells};
ghost use Rattle.prta_cli.specs.Causes.{IsBeforeOut, IsLine};
ghost use Rattle.prta_cli.specs.Refused.{input_line, input_number, input_tail, times_tail, certificate_tail, counts_tail, script_tail};

use crate::ending::Ending;
use crate::refused::push_value;
use crate::times::TimesFault;
use prta_certfile::CertFault;
use prta_mass::NoMemory;
use prta_report::{LINE, Page, push_number};
use prta_session::ScriptFault;
use prta_times::CountsFault;
use std::alloc::Global;

/// The condition that refuses a second file.
#[derive(Clone, Copy, Debug, PartialEq, Eq)]
pub enum InputFault {
    /// One on a file of chosen times.
    Times(TimesFault),
    /// One on a certificate.
    Certificate(CertFault),
    /// One on a file of counts.
    Counts(CountsFault),
    /// One on a script.
    Script(ScriptFault),
}

/// The ending for a condition that refuses the file.
pub fn refuse(alloc: Global, fault: InputFault) -> Ending
    ensures tells { Tells result (input_refused fault) }
    ensures refused { IsBeforeOut (status_of result) }
    ensures no_fault { status_of result ≢ Status.ReadFault }
    ensures line { IsLine (status_of result) (line_of result) }
{
    match input_page(alloc, fault) {
        Ok(page) => Ending::InputRefused(page),
        Err(_) => Ending::NoMemory,
    }
}

// The line on err.
#[tactic(auto, unfolding(crate::specs::Refused::input_line))]
fn input_page(alloc: Global, fault: InputFault) -> Result<Page, NoMemory>
    ensures { IfOk result (λ page. page.written ≡ input_line fault) }
{
    let mut page = Page::with_room(alloc, LINE)?;
    page.push(b"prta: input refused ");
    push_number(&mut page, input_number(fault));
    push_tail(&mut page, fault);
    page.push(b"\n");
    Ok(page)
}

fn input_number(fault: InputFault) -> u64
    ensures { result ≡ input_number fault }
{
    match fault {
        InputFault::Times(fault) => fault.number(),
        InputFault::Certificate(fault) => fault.number() as u64,
        InputFault::Counts(fault) => fault.number() as u64,
        InputFault::Script(fault) => fault.number() as u64,
    }
}

// The line, the count or the place.
fn push_tail(page: &mut Page, fault: InputFault)
    requires { 40 ≤ page.old.spare }
    ensures written { page.new.written ≡ page.old.written ++ input_tail fault }
    ensures room { page.old.spare ≤ page.new.spare + 40 }
{
    match fault {
        InputFault::Times(fault) => push_times_tail(page, fault),
        InputFault::Certificate(fault) => push_certificate_tail(page, fault),
        InputFault::Counts(fault) => push_counts_tail(page, fault),
        InputFault::Script(fault) => push_script_tail(page, fault),
    }
}

fn push_times_tail(page: &mut Page, fault: TimesFault)
    requires { 40 ≤ page.old.spare }
    ensures written { page.new.written ≡ page.old.written ++ times_tail fault }
    ensures room { page.old.spare ≤ page.new.spare + 40 }
{
    match fault {
        TimesFault::TooLong => {}
        TimesFault::BadLine(n) | TimesFault::WrongCount(n) | TimesFault::NotInTable(n) => {
            push_value(page, n as u64)
        }
    }
}

fn push_certificate_tail(page: &mut Page, fault: CertFault)
    requires { 40 ≤ page.old.spare }
    ensures written { page.new.written ≡ page.old.written ++ certificate_tail fault }
    ensures room { page.old.spare ≤ page.new.spare + 40 }
{
    match fault {
        CertFault::TooLong | CertFault::NoMemory => {}
        CertFault::BadLine(line)
        | CertFault::WrongTask(line)
        | CertFault::NotIncreasing(line)
        | CertFault::PlaceTooLarge(line)
        | CertFault::NotWhole(line) => push_value(page, line as u64),
    }
}

fn push_counts_tail(page: &mut Page, fault: CountsFault)
    requires { 40 ≤ page.old.spare }
    ensures written { page.new.written ≡ page.old.written ++ counts_tail fault }
    ensures room { page.old.spare ≤ page.new.spare + 40 }
{
    match fault {
        CountsFault::TooLong | CountsFault::BadHeader | CountsFault::NoMemory => {}
        CountsFault::BadRow(n)
        | CountsFault::UnknownTask(n)
        | CountsFault::TooManyPoints(n)
        | CountsFault::TotalTooLarge(n) => push_value(page, n as u64),
        CountsFault::TooMuchWork(work) => push_value(page, work),
    }
}

fn push_script_tail(page: &mut Page, fault: ScriptFault)
    requires { 40 ≤ page.old.spare }
    ensures written { page.new.written ≡ page.old.written ++ script_tail fault }
    ensures room { page.old.spare ≤ page.new.spare + 40 }
{
    match fault {
        ScriptFault::TooLong | ScriptFault::NoMemory => {}
        ScriptFault::BadLine(line)
        | ScriptFault::UnknownTask(line)
        | ScriptFault::BadTable(line)
        | ScriptFault::BadEdit(line) => push_value(page, line as u64),
    }
}
