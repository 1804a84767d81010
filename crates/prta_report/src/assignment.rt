//! The lines on orders of priorities.

ghost use Rattle.std.specs.Prelude.{◌≡◌, ◌+◌, ◌*◌, ◌≤◌, ◌<◌, ◌++◌, length, flat_map, All};
ghost use Rattle.prta_sheet.specs.Sheet.{sheet_order};
ghost use Rattle.prta_report.specs.Assignment.{name_text, name_at, name_if, order_line, set_line};

use crate::page::{LINE, Page};
use prta_jobs::{Order, TaskSet};
use prta_sheet::{Sheet, TASK_LIMIT};

/// Appends the line of an order: its tasks from the highest priority to the lowest.
pub fn order_line(page: &mut Page, sheet: &Sheet, order: &Order)
    requires room { LINE ≤ page.old.spare }
    requires order { length order.now ≤ length sheet.now.tasks }
    ensures written { page.new.written ≡ page.old.written ++ order_line sheet.now.tasks order.now }
    ensures room { page.old.spare ≤ page.new.spare + LINE }
    ensures size { length page.new.written + page.new.spare ≡ length page.old.written + page.old.spare }
{
    page.push(b"order");
    push_order(page, sheet, order.list());
    page.push(b"\n");
}

/// Appends a line of a word and the tasks of a set, in sheet order.
pub fn set_line(page: &mut Page, sheet: &Sheet, word: &str, set: TaskSet)
    requires room { LINE ≤ page.old.spare }
    requires word { length word.now ≤ 16 }
    ensures written { page.new.written ≡ page.old.written ++ set_line sheet.now.tasks word.now set }
    ensures room { page.old.spare ≤ page.new.spare + LINE }
    ensures size { length page.new.written + page.new.spare ≡ length page.old.written + page.old.spare }
{
    // A sheet has at most 12 tasks, and a name and its space take at most 25 bytes.
    let _tasks = sheet.tasks();
    page.push(word.as_bytes());
    push_set(page, sheet, set);
    page.push(b"\n");
}

// The names of the tasks of a list.
fn push_order(page: &mut Page, sheet: &Sheet, order: &[usize])
    requires room { length order.now * 25 ≤ page.old.spare }
    requires tasks { All (λ task. task < length sheet.now.tasks) order.now }
    ensures written { page.new.written ≡ page.old.written ++ flat_map (name_at sheet.now.tasks) order.now }
    ensures room { page.old.spare ≤ page.new.spare + length order.now * 25 }
    ensures size { length page.new.written + page.new.spare ≡ length page.old.written + page.old.spare }
{
    for task in order {
        push_name(page, sheet, *task);
    }
}

// The names of the tasks of a set.
fn push_set(page: &mut Page, sheet: &Sheet, set: TaskSet)
    requires room { length sheet.now.tasks * 25 ≤ page.old.spare }
    ensures written { page.new.written ≡ page.old.written ++ flat_map (name_if sheet.now.tasks set) (sheet_order sheet.now.tasks) }
    ensures room { page.old.spare ≤ page.new.spare + length sheet.now.tasks * 25 }
    ensures size { length page.new.written + page.new.spare ≡ length page.old.written + page.old.spare }
{
    for task in 0..sheet.tasks().len() {
        push_held(page, sheet, set, task);
    }
}

// The name of the task, if the set holds it.
fn push_held(page: &mut Page, sheet: &Sheet, set: TaskSet, task: usize)
    requires room { 25 ≤ page.old.spare }
    requires task { task < length sheet.now.tasks }
    requires limit { task < TASK_LIMIT }
    ensures written { page.new.written ≡ page.old.written ++ name_if sheet.now.tasks set task }
    ensures room { page.old.spare ≤ page.new.spare + 25 }
    ensures size { length page.new.written + page.new.spare ≡ length page.old.written + page.old.spare }
{
    if set.holds(task) {
        push_name(page, sheet, task);
    }
}

fn push_name(page: &mut Page, sheet: &Sheet, task: usize)
    requires room { 25 ≤ page.old.spare }
    requires task { task < length sheet.now.tasks }
    ensures written { page.new.written ≡ page.old.written ++ name_at sheet.now.tasks task }
    ensures room { page.old.spare ≤ page.new.spare + 25 }
    ensures size { length page.new.written + page.new.spare ≡ length page.old.written + page.old.spare }
{
    push_text(page, sheet.tasks()[task].name());
}

#[tactic(auto, unfolding(crate::specs::Assignment::name_text))]
fn push_text(page: &mut Page, name: &str)
    requires room { 25 ≤ page.old.spare }
    requires name { length name.now ≤ 24 }
    ensures written { page.new.written ≡ page.old.written ++ name_text name.now }
    ensures room { page.old.spare ≤ page.new.spare + 25 }
    ensures size { length page.new.written + page.new.spare ≡ length page.old.written + page.old.spare }
{
    page.push(b" ");
    page.push(name.as_bytes());
}
