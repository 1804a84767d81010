//! The line on err for a refused sheet.

ghost use Rattle.std.specs.Prelude.{◌≡◌, ◌+◌, ◌≤◌, ◌++◌, IfOk, length};
ghost use Rattle.prta_cli.specs.Refused.{refused_line, tail, at_task, at_place, at_key, key_text, with_value};

use prta_mass::NoMemory;
use prta_report::{LINE, Page, push_number};
use prta_sheet::{Key, Place, SheetFault};
use std::alloc::Global;

/// The line for the condition that refuses a sheet.
#[tactic(auto, unfolding(crate::specs::Refused::refused_line))]
pub fn refused_page(alloc: Global, fault: SheetFault) -> Result<Page, NoMemory>
    ensures { IfOk result (λ page. page.written ≡ refused_line fault) }
{
    let mut page = Page::with_room(alloc, LINE)?;
    page.push(b"prta: sheet refused ");
    push_number(&mut page, fault.number() as u64);
    push_tail(&mut page, fault);
    page.push(b"\n");
    Ok(page)
}

// Where or by what the condition failed.
fn push_tail(page: &mut Page, fault: SheetFault)
    requires { 64 ≤ page.old.spare }
    ensures written { page.new.written ≡ page.old.written ++ tail fault }
    ensures room { page.old.spare ≤ page.new.spare + 64 }
{
    match fault {
        SheetFault::TooLong
        | SheetFault::NotToml
        | SheetFault::Format
        | SheetFault::HyperperiodTooLarge
        | SheetFault::NoMemory => {}
        SheetFault::UnknownKey(place) => push_place(page, place),
        SheetFault::MissingKey(place, key)
        | SheetFault::WrongKind(place, key)
        | SheetFault::OutOfRange(place, key) => push_key(page, place, key),
        SheetFault::TaskCount(n) => push_value(page, n as u64),
        SheetFault::TooManyJobs(n) | SheetFault::TooMuchWork(n) => push_value(page, n),
        SheetFault::BadName(i)
        | SheetFault::RepeatedName(i)
        | SheetFault::OffsetNotBelowPeriod(i)
        | SheetFault::BadTable(i, _)
        | SheetFault::TotalTooLarge(i)
        | SheetFault::DeadlineNotBelowCap(i) => push_task(page, i),
    }
}

#[tactic(auto, unfolding(crate::specs::Refused::at_key))]
fn push_key(page: &mut Page, place: Place, key: Key)
    requires { 64 ≤ page.old.spare }
    ensures written { page.new.written ≡ page.old.written ++ at_key place key }
    ensures room { page.old.spare ≤ page.new.spare + 64 }
{
    push_place(page, place);
    page.push(b" key ");
    page.push(key_text(key));
}

fn push_place(page: &mut Page, place: Place)
    requires { 40 ≤ page.old.spare }
    ensures written { page.new.written ≡ page.old.written ++ at_place place }
    ensures room { page.old.spare ≤ page.new.spare + 40 }
{
    match place {
        Place::Top => page.push(b" at top"),
        Place::Support => page.push(b" at support"),
        Place::Task(i) => push_task(page, i),
    }
}

#[tactic(auto, unfolding(crate::specs::Refused::at_task))]
fn push_task(page: &mut Page, i: usize)
    requires { 40 ≤ page.old.spare }
    ensures written { page.new.written ≡ page.old.written ++ at_task i }
    ensures room { page.old.spare ≤ page.new.spare + 40 }
{
    page.push(b" at task ");
    push_number(page, i as u64);
}

/// What a condition was failed by.
#[tactic(auto, unfolding(crate::specs::Refused::with_value))]
pub fn push_value(page: &mut Page, n: u64)
    requires { 40 ≤ page.old.spare }
    ensures written { page.new.written ≡ page.old.written ++ with_value n }
    ensures room { page.old.spare ≤ page.new.spare + 40 }
{
    page.push(b" value ");
    push_number(page, n);
}

fn key_text(key: Key) -> &'static [u8]
    ensures text { result.now ≡ key_text key }
    ensures short { length result.now ≤ 12 }
{
    match key {
        Key::Format => b"format",
        Key::Cap => b"cap",
        Key::Hyperperiods => b"hyperperiods",
        Key::Turns => b"turns",
        Key::Support => b"support",
        Key::Fine => b"fine",
        Key::Step => b"step",
        Key::Task => b"task",
        Key::Name => b"name",
        Key::Offset => b"offset",
        Key::Period => b"period",
        Key::Deadline => b"deadline",
        Key::Times => b"times",
        Key::Cycle => b"cycle",
        Key::Allow => b"allow",
    }
}
