//! The canonical text of a sheet.

ghost use Rattle.std.specs.Prelude.{◌≡◌, ◌++◌, None, Some, IfOk, OnOk, decimal, flat_map, length, nat_eq};
ghost use Rattle.std.specs.List.{list_all};
ghost use Rattle.prta_sheet.specs.Stated.{sheet_stated};
ghost use Rattle.prta_sheet.specs.Refusal.{refusal};
ghost use Rattle.prta_sheet.specs.Canonical.{number_line, support_line, support_text, canonical_format, settings_text, name_line, pair_text, next_pair_text, pairs_text, times_line, table_text, next_table_text, cycle_line, tables_line, allow_line, task_text, canonical_text, TextStatesSheet, AcceptedAreStatable};
ghost use Rattle.prta_sheet.specs.RoundTrip.{CanonicalIsRead};

use crate::settings::Settings;
use crate::sheet::Sheet;
use crate::task::Task;
use itoa::Buffer;
use prta_mass::{NoMemory, Support, TimeTable, faultless_pairs};
use std::alloc::Global;

/// The text that has all keys of a sheet, the defaults too. Reading it gives an equal sheet.
pub fn sheet_text(alloc: Global, sheet: &Sheet) -> Result<Vec<u8>, NoMemory>
    ensures text { IfOk result (λ text. text.items ≡ canonical_text sheet.now) }
    ensures accepted { IfOk result (λ text. refusal text.items ≡ None) }
    ensures states { IfOk result (λ text. sheet_stated text.items ≡ Some sheet.now) }
{
    canonical_is_read();
    let mut text = Vec::new(alloc);
    push_settings(&mut text, canonical_format(sheet.tasks()), sheet.settings())?;
    for task in sheet.tasks() {
        push_task(&mut text, task)?;
    }
    Ok(text)
}

// The number of the format that the tasks need.
fn canonical_format(tasks: &[Task]) -> u64
    ensures { result ≡ canonical_format tasks.now }
{
    if each_has_one_table(tasks) { 1 } else { 2 }
}

fn each_has_one_table(tasks: &[Task]) -> bool
    ensures { result ≡ list_all (λ task. nat_eq (length task.cycle) 1) tasks.now }
{
    tasks.iter().all(|task| task.cycle().len() == 1)
}

fn push_settings(text: &mut Vec<u8>, format: u64, settings: Settings) -> Result<(), NoMemory>
    ensures { OnOk result (text.new.items ≡ text.old.items ++ settings_text format settings) }
{
    push_number_line(text, b"format", format)?;
    push_number_line(text, b"cap", settings.cap as u64)?;
    push_number_line(text, b"hyperperiods", settings.hyperperiods as u64)?;
    push_number_line(text, b"turns", settings.turns as u64)?;
    push_support(text, settings.support)
}

fn push_support(text: &mut Vec<u8>, support: Option<Support>) -> Result<(), NoMemory>
    ensures { OnOk result (text.new.items ≡ text.old.items ++ support_text support) }
{
    match support {
        Some(support) => push_support_line(text, support),
        None => Ok(()),
    }
}

fn push_support_line(text: &mut Vec<u8>, support: Support) -> Result<(), NoMemory>
    ensures { OnOk result (text.new.items ≡ text.old.items ++ support_line support) }
{
    push(text, b"support = { fine = ")?;
    push_number(text, support.fine as u64)?;
    push(text, b", step = ")?;
    push_number(text, support.step as u64)?;
    push(text, b" }\n")
}

#[tactic(auto, unfolding(crate::specs::Canonical::task_text))]
fn push_task(text: &mut Vec<u8>, task: &Task) -> Result<(), NoMemory>
    ensures { OnOk result (text.new.items ≡ text.old.items ++ task_text task.now) }
{
    push(text, b"\n[[task]]\n")?;
    push_name(text, task.name())?;
    push_number_line(text, b"offset", task.offset() as u64)?;
    push_number_line(text, b"period", task.period() as u64)?;
    push_number_line(text, b"deadline", task.deadline() as u64)?;
    push_tables(text, task.cycle())?;
    push_allow(text, task.allow())
}

#[tactic(auto, unfolding(crate::specs::Canonical::name_line))]
fn push_name(text: &mut Vec<u8>, name: &str) -> Result<(), NoMemory>
    ensures { OnOk result (text.new.items ≡ text.old.items ++ name_line name.now) }
{
    push(text, b"name = \"")?;
    push(text, name.as_bytes())?;
    push(text, b"\"\n")
}

// A cycle of one table stands under `times`.
fn push_tables(text: &mut Vec<u8>, cycle: &[TimeTable]) -> Result<(), NoMemory>
    ensures { OnOk result (text.new.items ≡ text.old.items ++ tables_line cycle.now) }
{
    match cycle {
        [] => Ok(()),
        [times] => push_times(text, times.points()),
        [first, rest @ ..] => push_cycle(text, first, rest),
    }
}

#[tactic(auto, unfolding(crate::specs::Canonical::cycle_line))]
fn push_cycle(text: &mut Vec<u8>, first: &TimeTable, rest: &[TimeTable]) -> Result<(), NoMemory>
    ensures { OnOk result (text.new.items ≡ text.old.items ++ cycle_line first.now rest.now) }
{
    push(text, b"cycle = [")?;
    push_table(text, first.points())?;
    push_next_tables(text, rest)?;
    push(text, b"]\n")
}

fn push_next_tables(text: &mut Vec<u8>, tables: &[TimeTable]) -> Result<(), NoMemory>
    ensures { OnOk result (text.new.items ≡ text.old.items ++ flat_map next_table_text tables.now) }
{
    for table in tables {
        push(text, b", ")?;
        push_table(text, table.points())?;
    }
    Ok(())
}

#[tactic(auto, unfolding(crate::specs::Canonical::table_text))]
fn push_table(text: &mut Vec<u8>, times: &[(u32, u64)]) -> Result<(), NoMemory>
    ensures { OnOk result (text.new.items ≡ text.old.items ++ table_text times.now) }
{
    push(text, b"[")?;
    push_pairs(text, times)?;
    push(text, b"]")
}

#[tactic(auto, unfolding(crate::specs::Canonical::times_line))]
fn push_times(text: &mut Vec<u8>, times: &[(u32, u64)]) -> Result<(), NoMemory>
    ensures { OnOk result (text.new.items ≡ text.old.items ++ times_line times.now) }
{
    push(text, b"times = [")?;
    push_pairs(text, times)?;
    push(text, b"]\n")
}

fn push_pairs(text: &mut Vec<u8>, pairs: &[(u32, u64)]) -> Result<(), NoMemory>
    ensures { OnOk result (text.new.items ≡ text.old.items ++ pairs_text pairs.now) }
{
    if let Some((first, rest)) = pairs.split_first() {
        push_pair(text, first.0 as u64, first.1)?;
        push_next_pairs(text, rest)?;
    }
    Ok(())
}

fn push_next_pairs(text: &mut Vec<u8>, pairs: &[(u32, u64)]) -> Result<(), NoMemory>
    ensures { OnOk result (text.new.items ≡ text.old.items ++ flat_map next_pair_text pairs.now) }
{
    for pair in pairs {
        push(text, b", ")?;
        push_pair(text, pair.0 as u64, pair.1)?;
    }
    Ok(())
}

#[tactic(auto, unfolding(crate::specs::Canonical::allow_line))]
fn push_allow(text: &mut Vec<u8>, allow: (u64, u64)) -> Result<(), NoMemory>
    ensures { OnOk result (text.new.items ≡ text.old.items ++ allow_line allow) }
{
    push(text, b"allow = ")?;
    push_pair(text, allow.0, allow.1)?;
    push(text, b"\n")
}

#[tactic(auto, unfolding(crate::specs::Canonical::pair_text))]
fn push_pair(text: &mut Vec<u8>, first: u64, second: u64) -> Result<(), NoMemory>
    ensures { OnOk result (text.new.items ≡ text.old.items ++ pair_text (first, second)) }
{
    push(text, b"[")?;
    push_number(text, first)?;
    push(text, b", ")?;
    push_number(text, second)?;
    push(text, b"]")
}

#[tactic(auto, unfolding(crate::specs::Canonical::number_line))]
fn push_number_line(text: &mut Vec<u8>, key: &[u8], n: u64) -> Result<(), NoMemory>
    ensures { OnOk result (text.new.items ≡ text.old.items ++ number_line key.now n) }
{
    push(text, key)?;
    push(text, b" = ")?;
    push_number(text, n)?;
    push(text, b"\n")
}

// A whole number in decimal.
fn push_number(text: &mut Vec<u8>, n: u64) -> Result<(), NoMemory>
    ensures { OnOk result (text.new.items ≡ text.old.items ++ decimal n) }
{
    let mut buffer = Buffer::new();
    push(text, buffer.format(n).as_bytes())
}

fn push(text: &mut Vec<u8>, bytes: &[u8]) -> Result<(), NoMemory>
    ensures { OnOk result (text.new.items ≡ text.old.items ++ bytes.now) }
{
    text.extend_from_slice(bytes)?;
    Ok(())
}

/// The canonical text states the sheet's document.
pub fn text_states_sheet()
    ensures { TextStatesSheet }
{}

/// An accepted sheet has such a text.
pub fn accepted_are_statable()
    ensures { AcceptedAreStatable }
{}

/// The canonical text of an accepted sheet is accepted, and states that very sheet.
pub fn canonical_is_read()
    ensures { CanonicalIsRead }
{
    faultless_pairs();
}
